ghost use Rattle.std.specs.Prelude.{◌≡◌, ◌≢◌, ℕ, ◌+◌, ◌≤◌, ◌++◌, [], length, take, drop, OnOk, OnErr, IfErr, IsTrue, IsFalse};
ghost use Rattle.std.specs.IoError.{error_kind};
ghost use Rattle.std.specs.Io.KnownBytes.{Appends};
ghost use Rattle.rk_folder.specs.HandsOn.{HandsOn};

use std::io;
use std::io::{ErrorKind, Write};
use std::marker::Model;

/// How many bytes are held at most.
const ROOM: usize = 65_536;

/// Bytes that wait to be handed on to a writer. Contracts see the list of them.
#[derive(Drop)]
pub struct Held {
    room: [u8; ROOM],
    start: usize,
    end: usize,
}

impl Model for Held {
    ghost use Rattle.std.specs.Prelude.{List, ℕ, ◌-◌, ◌≤◌, take, drop};

    ghost Value = { List ℕ };

    ghost view = { λ h. take (h.end - h.start) (drop h.start h.room) };

    ghost invariant = { λ h. (h.start ≤ h.end) × (h.end ≤ 65536) };
}

impl Held {
    pub fn new() -> Held
        ensures { result ≡ [] }
    {
        Held {
            room: [0; ROOM],
            start: 0,
            end: 0,
        }
    }

    /// Takes the bytes: they wait behind those that are held, which are handed on first where there
    /// is no room for both. More bytes than there is room for go through. After an `Err` what was not
    /// handed on is still held, in order, and of the bytes a front was taken.
    pub fn put<W: Write>(&mut self, to: &mut W, bytes: &[u8]) -> io::Result<()>
        ensures ok { OnOk result (HandsOn (W.contents to.old) (W.contents to.new) (self.old ++ bytes.now) self.new) }
        ensures err { OnErr result ((n : ℕ) × HandsOn (W.contents to.old) (W.contents to.new) (self.old ++ take n bytes.now) self.new) }
    {
        if self.keep(bytes) {
            return Ok(());
        }
        self.hand_on(to)?;
        if self.keep(bytes) {
            return Ok(());
        }
        match write_whole(to, bytes) {
            Ok(()) => Ok(()),
            Err(stopped) => Err(stopped.error),
        }
    }

    // Puts the bytes behind those that are held, where there is room for them, and says whether there is.
    fn keep(&mut self, bytes: &[u8]) -> bool
        ensures kept { IsTrue result → self.new ≡ self.old ++ bytes.now }
        ensures left { IsFalse result → self.new ≡ self.old }
    {
        if bytes.len() > ROOM - self.end {
            return false;
        }
        let end = self.end + bytes.len();
        self.room[self.end..end].copy_from_slice(bytes);
        self.end = end;
        true
    }

    /// Hands on what is held. After an `Err` the rest of it is still held.
    pub fn hand_on<W: Write>(&mut self, to: &mut W) -> io::Result<()>
        ensures handed { HandsOn (W.contents to.old) (W.contents to.new) self.old self.new }
        ensures ok { OnOk result (self.new ≡ []) }
    {
        match write_whole(to, &self.room[self.start..self.end]) {
            Ok(()) => {
                self.start = 0;
                self.end = 0;
                Ok(())
            }
            Err(stopped) => {
                self.start += stopped.taken;
                Err(stopped.error)
            }
        }
    }
}

/// How many bytes a writer took before it failed, and why it did.
#[derive(Drop)]
struct Stopped {
    taken: usize,
    error: io::Error,
}

impl Stopped {
    fn after(taken: usize, error: io::Error) -> Stopped
        ensures { result ≡ record { taken = taken; error = error } }
    {
        Stopped { taken, error }
    }
}

// The writer of a runtime keeps nothing back, so that after an Ok the system has all the bytes.
fn write_whole<W: Write>(to: &mut W, bytes: &[u8]) -> Result<(), Stopped>
    ensures ok { OnOk result (Appends (W.contents to.old) (W.contents to.new) bytes.now) }
    ensures err { IfErr result (λ stopped. (stopped.taken ≤ length bytes.now) × Appends (W.contents to.old) (W.contents to.new) (take stopped.taken bytes.now)) }
    ensures retried { IfErr result (λ stopped. error_kind stopped.error ≢ ErrorKind.Interrupted) }
{
    let mut taken = 0;
    for _ in 0..u64::MAX {
        if taken == bytes.len() {
            return Ok(());
        }
        match to.write(&bytes[taken..]) {
            Ok(0) => return Err(Stopped::after(taken, io::Error::from(ErrorKind::WriteZero))),
            Ok(n) => taken += n,
            Err(error) if error.kind() == ErrorKind::Interrupted => {}
            Err(error) => return Err(Stopped::after(taken, error)),
        }
    }
    Err(Stopped::after(taken, io::Error::from(ErrorKind::TimedOut)))
}
