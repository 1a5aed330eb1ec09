ghost use Rattle.std.specs.Prelude.{◌≡◌, ◌↔◌, ◌++◌, OnOk, OnErr, IsOk, IsErrOf, IsTrue, Some};
ghost use Rattle.rk_bytes.specs.Model.DiskImages.{Counts};
ghost use Rattle.rk_disk.specs.Faults.{sink_failed};
ghost use Rattle.rk_disk.specs.CallPlan.{fails_next, after_call, with_failing};
ghost use Rattle.rk_disk.specs.InMemory.{new_sink};

use crate::plan::Plan;
use crate::{Sink, SinkErr};
use rk_bytes::{Bytes, Memory};
use std::alloc::Global;
use std::marker::Model;

/// An output in memory, which tells what it took. The writes that are set to fail do, and no
/// others.
#[derive(Debug, Drop)]
pub struct MemSink {
    taken: Bytes,
    plan: Plan,
}

impl Model for MemSink {
    ghost use Rattle.rk_disk.specs.InMemory.{SinkInMemory, coded_sink};

    ghost Value = { SinkInMemory };

    ghost coded = { coded_sink };

    ghost view = { λ s. record { taken = s.taken; plan = s.plan } };
}

impl MemSink {
    /// Nothing taken, and no write set to fail. Takes no memory yet.
    pub fn new(alloc: Global) -> MemSink
        ensures { result ≡ new_sink }
    {
        MemSink {
            taken: Bytes::new(alloc),
            plan: Plan::new(alloc),
        }
    }

    /// Makes the write with this number, counted from 1, answer `Failed` and take nothing. The
    /// number of a write that was made already is of no effect.
    pub fn fail_at(&mut self, call: u64) -> Result<(), Memory>
        ensures ok { OnOk result (self.new ≡ record self.old { plan = with_failing call self.old.plan }) }
        ensures err { OnErr result (self.new ≡ self.old) }
    {
        self.plan.fail_at(call)
    }

    /// The bytes taken so far.
    pub fn taken(&self) -> &[u8]
        ensures { result.now ≡ self.now.taken }
    {
        self.taken.as_slice()
    }
}

impl Sink for MemSink {
    ghost taken = { λ s. Some s.taken };

    ghost faults = { λ s. s.plan.failed };

    /// `Memory` where there is none for the bytes.
    fn write(&mut self, bytes: &[u8]) -> Result<(), SinkErr>
        ensures ok { OnOk result (self.new.taken ≡ self.old.taken ++ bytes.now) }
        ensures err { OnErr result (self.new.taken ≡ self.old.taken) }
        ensures exactly { IsErrOf result SinkErr.Failed ↔ IsTrue (fails_next self.old.plan) }
        ensures counted { self.new.plan ≡ after_call (sink_failed result) self.old.plan }
        ensures faults { Counts (sink_failed result) self.old.plan.failed self.new.plan.failed }
    {
        let fails = self.plan.fails_next();
        self.plan.count_call(fails);
        if fails {
            return Err(SinkErr::Failed);
        }
        self.taken.append(bytes)?;
        Ok(())
    }

    /// Nothing is held back, so this never fails, and is no write.
    fn flush(&mut self) -> Result<(), SinkErr>
        ensures ok { IsOk result }
        ensures same { self.new ≡ self.old }
    {
        Ok(())
    }
}
