//! Laws of the replay of logs.
ghost use Rattle.std.specs.Prelude.{◌≡◌, ℕ, ◌+◌, false, List, [], Option, None, unwrap_or, Ok};
ghost use Rattle.std.specs.List.{AllByRecursion};
ghost use Rattle.rk_bytes.specs.declared.model.manifest.Version.{Version};
ghost use Rattle.rk_bytes.specs.declared.model.wal.Mode.{Mode};
ghost use Rattle.rk_bytes.specs.declared.model.wal.Mode.TheVariants.{TolerateTail, Absolute, PointInTime, SkipAny};
ghost use Rattle.rk_bytes.specs.Model.Replay.{Log, Replayed, IsPartOf, ends_stale, replay};

/// Law: no log adds nothing, in every mode.
pub fn no_log_adds_nothing()
    ensures { (mode : Mode) (version : Version) → replay mode version [] ≡ Ok (record { records = []; expected = unwrap_or version.last_sequence 0 + 1; stopped = None }) }
{}

/// Law: what logs add where all damage is refused, they add where a cut-off end is tolerated and where damage is passed over. To a point in
/// time they add it too, where none ends at an earlier life of its file. Else they add what some of them would.
pub fn undamaged_logs_add_alike()
    ensures tolerated { (version : Version) (logs : List Log) (added : Replayed) → replay Absolute version logs ≡ Ok added → replay TolerateTail version logs ≡ Ok added }
    ensures skipped { (version : Version) (logs : List Log) (added : Replayed) → replay Absolute version logs ≡ Ok added → replay SkipAny version logs ≡ Ok added }
    ensures stopped_nowhere { (version : Version) (logs : List Log) (added : Replayed) → replay Absolute version logs ≡ Ok added → AllByRecursion (λ log. ends_stale log ≡ false) logs → replay PointInTime version logs ≡ Ok added }
    ensures stopped { (version : Version) (logs : List Log) (added : Replayed) → replay Absolute version logs ≡ Ok added → (part : List Log) × IsPartOf part logs × (fewer : Replayed) × (replay Absolute version part ≡ Ok fewer) × (end : Option ℕ) × (replay PointInTime version logs ≡ Ok (record fewer { stopped = end })) }
{}
