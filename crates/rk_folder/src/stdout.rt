ghost use Rattle.std.specs.Prelude.{◌≡◌, ℕ, None, IfErr};
ghost use Rattle.rk_bytes.specs.Model.DiskImages.{Counts};
ghost use Rattle.rk_disk.specs.Faults.{sink_failed};

use crate::held::Held;
use rk_disk::{Sink, SinkErr};
use std::io;
use std::marker::Model;

/// The standard output of a runtime. It holds back up to 64 KiB of what it took, until there is no
/// room for more or it is flushed, and tells nothing of what it took. Contracts see the count of its
/// failures.
#[derive(Drop)]
pub struct StdoutSink<'r, R> {
    rt: &'r R,
    held: Held,
    failures: u64,
}

impl<'r, R> Model for StdoutSink<'r, R> {
    ghost use Rattle.std.specs.Prelude.{ℕ};

    ghost Value = { ℕ };

    ghost view = { λ out. out.failures };
}

impl<'r, R: Print> StdoutSink<'r, R> {
    /// The standard output, to which nothing is written yet.
    pub fn new(rt: &'r R) -> StdoutSink<'r, R>
        ensures { result ≡ 0 }
    {
        StdoutSink {
            rt,
            held: Held::new(),
            failures: 0,
        }
    }

    // The answer to the caller. A failure of the system is counted.
    fn counted(&mut self, answer: io::Result<()>) -> Result<(), SinkErr>
        ensures failed { IfErr result (λ error. error ≡ SinkErr.Failed) }
        ensures count { Counts (sink_failed result) self.old self.new }
    {
        match answer {
            Ok(()) => Ok(()),
            Err(_) => {
                self.failures = self.failures.saturating_add(1);
                Err(SinkErr::Failed)
            }
        }
    }
}

impl<'r, R: Print> Sink for StdoutSink<'r, R> {
    ghost taken = { λ _. None };

    ghost faults = { λ failures. failures };

    fn write(&mut self, bytes: &[u8]) -> Result<(), SinkErr> {
        let answer = self.held.put(&mut io::writer(self.rt), bytes);
        self.counted(answer)
    }

    fn flush(&mut self) -> Result<(), SinkErr> {
        let answer = self.held.hand_on(&mut io::writer(self.rt));
        self.counted(answer)
    }
}

#[cfg(test)]
mod tests {
    use super::*;
    use std::cell::Cell;
    use std::fmt::Display;
    use std::io::ErrorKind;
    use std::test::Fail;

    // Takes so many bytes at a call, is interrupted at its second, and has room for so many bytes. It
    // keeps the last ones that it took.
    #[derive(Drop)]
    struct Narrow {
        most: usize,
        calls: Cell<u64>,
        room: Cell<usize>,
        last: Cell<[u8; 4]>,
    }

    impl Narrow {
        fn new(most: usize, room: usize) -> Narrow {
            Narrow {
                most,
                calls: Cell::new(0),
                room: Cell::new(room),
                last: Cell::new([b'-'; 4]),
            }
        }
    }

    impl Print for Narrow {
        fn print<D: Display + Drop>(&self, _value: D) -> io::Result<()> {
            Err(io::Error::from(ErrorKind::Unsupported))
        }

        fn println<D: Display + Drop>(&self, _value: D) -> io::Result<()> {
            Err(io::Error::from(ErrorKind::Unsupported))
        }

        fn write_all(&self, _bytes: &[u8]) -> io::Result<()> {
            Err(io::Error::from(ErrorKind::Unsupported))
        }

        fn write_some(&self, bytes: &[u8]) -> io::Result<usize> {
            self.calls.set(self.calls.get().wrapping_add(1));
            if self.calls.get() == 2 {
                return Err(io::Error::from(ErrorKind::Interrupted));
            }
            let n = bytes.len().min(self.most).min(self.room.get());
            self.room.set(self.room.get().saturating_sub(n));
            for byte in &bytes[..n] {
                let [_, b, c, d] = self.last.get();
                self.last.set([b, c, d, *byte]);
            }
            Ok(n)
        }
    }

    fn put<S: Sink>(out: &mut S, bytes: &[u8]) -> Result<(), SinkErr> {
        out.write(bytes)
    }

    fn flushed<S: Sink>(out: &mut S) -> Result<(), SinkErr> {
        out.flush()
    }

    #[test]
    fn what_was_not_handed_on_is_still_held(rt: HostRuntime) -> Result<(), Fail> {
        let mut real = StdoutSink::new(&rt);
        assert_eq!(rt; put(&mut real, b"taken\n"), Ok(()));
        assert_eq!(rt; flushed(&mut real), Ok(()));
        let narrow = Narrow::new(2, 7);
        let mut out = StdoutSink::new(&narrow);
        assert_eq!(rt; put(&mut out, b"12345"), Ok(()));
        assert_eq!(rt; narrow.calls.get(), 0);
        assert_eq!(rt; flushed(&mut out), Ok(()));
        assert_eq!(rt; narrow.calls.get(), 4);
        assert_eq!(rt; narrow.last.get(), *b"2345");
        assert_eq!(rt; put(&mut out, b"678"), Ok(()));
        assert_eq!(rt; flushed(&mut out), Err(SinkErr::Failed));
        assert_eq!(rt; out.failures, 1);
        assert_eq!(rt; narrow.last.get(), *b"4567");
        narrow.room.set(9);
        assert_eq!(rt; put(&mut out, b"9"), Ok(()));
        assert_eq!(rt; flushed(&mut out), Ok(()));
        assert_eq!(rt; narrow.last.get(), *b"6789");
        assert_eq!(rt; narrow.room.get(), 7);
        Ok(())
    }

    #[test]
    fn what_there_is_no_room_for_is_handed_on(rt: HostRuntime) -> Result<(), Fail> {
        let narrow = Narrow::new(100_000, 200_000);
        let mut out = StdoutSink::new(&narrow);
        // The held bytes go once there is no room for more: one call, and one for the interruption.
        for (bytes, calls) in [
            ([b'a'; 65_535].as_slice(), 0),
            (b"b", 0),
            (b"c", 1),
            (&[b'd'; 65_537], 4),
        ] {
            assert_eq!(rt; put(&mut out, bytes), Ok(()));
            assert_eq!(rt; narrow.calls.get(), calls);
        }
        assert_eq!(rt; narrow.last.get(), *b"dddd");
        assert_eq!(rt; narrow.room.get(), 200_000 - 65_536 - 1 - 65_537);
        Ok(())
    }
}
