ghost use Rattle.std.specs.Prelude.{◌≡◌, ◌==◌, [], not, filter, IfOk};
ghost use Rattle.rk_version.specs.Keyed.{put};
ghost use Rattle.rk_version.specs.Places.{Rises, IsPlace};
ghost use Rattle.rk_points.specs.Tallies.{none_broken};

use rk_bytes::Memory;
use std::alloc::Global;
use std::marker::Model;

/// The numbers of a family's files that aren't whole. Contracts see them as a list.
#[derive(Debug, Drop)]
pub(crate) struct Broken {
    /// They rise.
    numbers: Vec<u64>,
}

impl Model for Broken {
    ghost use Rattle.std.specs.Prelude.{List, ℕ};
    ghost use Rattle.rk_version.specs.Places.{Rises};

    ghost Value = { List ℕ };

    ghost view = { λ b. b.numbers.items };

    ghost invariant = { λ b. Rises (λ number. number) b.numbers.items };
}

impl Broken {
    /// No files. Takes no memory yet.
    pub(crate) fn new(alloc: Global) -> Broken
        ensures { result ≡ [] }
    {
        Broken {
            numbers: Vec::new(alloc),
        }
    }

    /// Whether there is none.
    pub(crate) fn is_empty(&self) -> bool
        ensures { result ≡ none_broken self.now }
    {
        self.numbers.is_empty()
    }

    /// Puts one more file among them.
    pub(crate) fn add(&mut self, number: u64) -> Result<(), Memory>
        ensures { IfOk result (λ done. self.new ≡ put (λ number. number) number self.old) }
    {
        match place_of(&self.numbers, number) {
            Ok(place) => self.numbers[place] = number,
            Err(place) => self.numbers.insert(place, number)?,
        }
        Ok(())
    }

    /// Takes a file out, if it is among them.
    pub(crate) fn remove(&mut self, number: u64)
        ensures { self.new ≡ filter (λ broken. not (broken == number)) self.old }
    {
        if let Ok(place) = place_of(&self.numbers, number) {
            self.numbers.remove(place);
        }
    }
}

/// The place of the number, or in an `Err` the one where it belongs.
fn place_of(numbers: &[u64], number: u64) -> Result<usize, usize>
    requires { Rises (λ number. number) numbers.now }
    ensures { IsPlace (λ number. number) number numbers.now result }
{
    numbers.binary_search(&number)
}
