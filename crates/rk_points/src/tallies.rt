ghost use Rattle.std.specs.Prelude.{◌≡◌, ◌∷◌, ◌==◌, [], ℕ, true, false, map, filter, IfOk};
ghost use Rattle.rk_version.specs.Keyed.{put};
ghost use Rattle.rk_version.specs.Places.{Rises, IsPlace};
ghost use Rattle.rk_points.specs.Tallies.{default_tally, tally_of, course_of};

use crate::broken::Broken;
use crate::course::{Course, Turn};
use crate::tally::Tally;
use rk_bytes::{Memory, Seq};
use std::alloc::Global;
use std::marker::Model;
use std::mem;

/// The tallies of the families that were live or spoken of. Contracts see them as a list.
#[derive(Debug, Drop)]
pub(crate) struct Tallies {
    alloc: Global,
    /// By rising id.
    tallies: Vec<Tally>,
}

impl Model for Tallies {
    ghost use Rattle.std.specs.Prelude.{List};
    ghost use Rattle.rk_version.specs.Places.{Rises};
    ghost use Rattle.rk_points.specs.declared.tally.Tally.{Tally};

    ghost Value = { List Tally };

    ghost view = { λ t. t.tallies.items };

    ghost invariant = { λ t. Rises (λ tally. tally.family) t.tallies.items };
}

impl Tallies {
    /// The tally of the default family, which is live before the first unit.
    pub(crate) fn first(alloc: Global) -> Result<Tallies, Memory>
        ensures { IfOk result (λ tallies. tallies ≡ default_tally ∷ []) }
    {
        let mut tallies = Vec::new(alloc);
        tallies.push(Tally {
            family: 0,
            turns: Seq::new(alloc),
            now: Turn {
                at: 0,
                live: true,
                whole: true,
            },
            broken: Broken::new(alloc),
        })?;
        Ok(Tallies { alloc, tallies })
    }

    /// Takes the tally of the family with this id out, which has to be put back.
    pub(crate) fn take(&mut self, id: u32) -> Tally
        ensures own { result ≡ tally_of id self.old }
        ensures others { (other : ℕ) → (other == id) ≡ false → tally_of other self.new ≡ tally_of other self.old }
    {
        let blank = Tally::blank(self.alloc, id);
        match place_of(&self.tallies, id) {
            Ok(place) => mem::replace(&mut self.tallies[place], blank),
            Err(_) => blank,
        }
    }

    /// Puts the tally in the place of the one of its family.
    pub(crate) fn put(&mut self, tally: Tally) -> Result<(), Memory>
        ensures { IfOk result (λ done. self.new ≡ put (λ tally. tally.family) tally self.old) }
    {
        match place_of(&self.tallies, tally.family) {
            Ok(place) => self.tallies[place] = tally,
            Err(place) => self.tallies.insert(place, tally)?,
        }
        Ok(())
    }

    /// The courses of the families that are live.
    pub(crate) fn into_courses(self) -> Result<Seq<Course>, Memory>
        ensures courses { IfOk result (λ courses. courses ≡ map course_of (filter (λ tally. tally.now.live) self)) }
        ensures order { Rises (λ tally. tally.family) self }
    {
        let Tallies { alloc, tallies } = self;
        let mut courses = Seq::new(alloc);
        for tally in tallies {
            if tally.now.live {
                courses.push(tally.into_course()?)?;
            }
        }
        Ok(courses)
    }
}

/// The place of the family's tally, or in an `Err` the one where it belongs.
fn place_of(tallies: &[Tally], id: u32) -> Result<usize, usize>
    requires { Rises (λ tally. tally.family) tallies.now }
    ensures { IsPlace (λ tally. tally.family) id tallies.now result }
{
    tallies.binary_search_by_key(&id, |tally| tally.family)
}
