//! The search for a slot in records that stand in the order of theirs, from a near place on.
ghost use Rattle.std.specs.Prelude.{◌≡◌, ◌+◌, ◌-◌, ◌<◌, ◌≤◌, true, false, length};
ghost use Rattle.std.specs.List.{AllWithin};
ghost use Rattle.rk_bytes.specs.Model.Records.{slot_of};
ghost use Rattle.rk_view.specs.Places.{is_from};
ghost use Rattle.rk_view.specs.Maps.{IsRun};

use crate::place::cmp_slots;
use rk_ikey::Record;

/// How many records come before the slot of the one that is sought. If a near count isn't above that, the search
/// takes few steps more than the distance has digits.
pub fn seek(run: &[Record], sought: &Record, near: usize) -> usize
    requires { IsRun run.now }
    ensures bound { result ≤ length run.now }
    ensures before { AllWithin (λ r. is_from (slot_of sought.now) r ≡ false) run.now 0 result }
    ensures after { AllWithin (λ r. is_from (slot_of sought.now) r ≡ true) run.now result (length run.now) }
{
    if are_before(run, sought, near) {
        gallop(run, sought, near)
    } else {
        gallop(run, sought, 0)
    }
}

/// Whether so many records come before the slot of the one that is sought.
fn are_before(run: &[Record], sought: &Record, count: usize) -> bool
    requires { IsRun run.now }
    ensures bound { result ≡ true → count ≤ length run.now }
    ensures before { result ≡ true → AllWithin (λ r. is_from (slot_of sought.now) r ≡ false) run.now 0 count }
{
    if count == 0 {
        return true;
    }
    count <= run.len() && cmp_slots(&run[count - 1], sought).is_lt()
}

/// The count of `seek`, from one that isn't above it on: steps that double, and then bisection.
fn gallop(run: &[Record], sought: &Record, start: usize) -> usize
    requires run { IsRun run.now }
    requires bound { start ≤ length run.now }
    requires before { AllWithin (λ r. is_from (slot_of sought.now) r ≡ false) run.now 0 start }
    ensures bound { result ≤ length run.now }
    ensures before { AllWithin (λ r. is_from (slot_of sought.now) r ≡ false) run.now 0 result }
    ensures after { AllWithin (λ r. is_from (slot_of sought.now) r ≡ true) run.now result (length run.now) }
{
    let mut low = start;
    let mut step = 1;
    while leaps(run, sought, low, step) {
        low += step;
        step = low - start;
    }
    let width = (run.len() - low).min(step - 1);
    bisect(run, sought, low, low + width)
}

/// Whether so many records more come before the slot of the one that is sought.
fn leaps(run: &[Record], sought: &Record, low: usize, step: usize) -> bool
    requires run { IsRun run.now }
    requires low { low ≤ length run.now }
    requires step { 0 < step }
    ensures bound { result ≡ true → low + step ≤ length run.now }
    ensures before { result ≡ true → AllWithin (λ r. is_from (slot_of sought.now) r ≡ false) run.now 0 (low + step) }
    ensures after { result ≡ false → AllWithin (λ r. is_from (slot_of sought.now) r ≡ true) run.now (low + (step - 1)) (length run.now) }
{
    step <= run.len() - low && cmp_slots(&run[low + (step - 1)], sought).is_lt()
}

/// The count of `seek`, which lies between two bounds.
fn bisect(run: &[Record], sought: &Record, least: usize, most: usize) -> usize
    requires run { IsRun run.now }
    requires order { least ≤ most }
    requires bound { most ≤ length run.now }
    requires before { AllWithin (λ r. is_from (slot_of sought.now) r ≡ false) run.now 0 least }
    requires after { AllWithin (λ r. is_from (slot_of sought.now) r ≡ true) run.now most (length run.now) }
    ensures bound { result ≤ length run.now }
    ensures before { AllWithin (λ r. is_from (slot_of sought.now) r ≡ false) run.now 0 result }
    ensures after { AllWithin (λ r. is_from (slot_of sought.now) r ≡ true) run.now result (length run.now) }
{
    let mut low = least;
    let mut high = most;
    while low < high {
        let middle = low + (high - low) / 2;
        if cmp_slots(&run[middle], sought).is_lt() {
            low = middle + 1;
        } else {
            high = middle;
        }
    }
    low
}
