ghost use Rattle.std.specs.Prelude.{◌≡◌, OnOk, OnErr};
ghost use Rattle.rk_bytes.specs.Model.DiskImages.{Counts};
ghost use Rattle.rk_disk.specs.CallPlan.{unused_plan, fails_next, after_call, with_failing};

use rk_bytes::Memory;
use std::alloc::Global;
use std::marker::Model;

/// Which calls are to fail, how many were made, and how many of these failed. Each call goes through
/// the numbers that are set.
#[derive(Debug, Drop)]
pub(crate) struct Plan {
    failing: Vec<u64>,
    calls: u64,
    failed: u64,
}

impl Model for Plan {
    ghost use Rattle.rk_disk.specs.CallPlan.{CallPlan, coded_plan};

    ghost Value = { CallPlan };

    ghost coded = { coded_plan };

    ghost view = { λ p. record { failing = p.failing.items; calls = p.calls; failed = p.failed } };
}

impl Plan {
    pub(crate) fn new(alloc: Global) -> Plan
        ensures { result ≡ unused_plan }
    {
        Plan {
            failing: Vec::new(alloc),
            calls: 0,
            failed: 0,
        }
    }

    pub(crate) fn calls(&self) -> u64
        ensures { result ≡ self.now.calls }
    {
        self.calls
    }

    /// Sets a call to fail. One that was made already is none to come.
    pub(crate) fn fail_at(&mut self, call: u64) -> Result<(), Memory>
        ensures ok { OnOk result (self.new ≡ with_failing call self.old) }
        ensures err { OnErr result (self.new ≡ self.old) }
    {
        self.failing.push(call)?;
        Ok(())
    }

    /// Whether the next call is set to fail.
    pub(crate) fn fails_next(&self) -> bool
        ensures { result ≡ fails_next self.now }
    {
        let failing = self.failing.as_slice();
        match self.calls.checked_add(1) {
            Some(call) => failing.contains(&call),
            None => false,
        }
    }

    /// Counts a call, and whether it failed.
    pub(crate) fn count_call(&mut self, fails: bool)
        ensures counted { self.new ≡ after_call fails self.old }
        ensures faults { Counts fails self.old.failed self.new.failed }
    {
        self.calls = self.calls.saturating_add(1);
        if fails {
            self.failed = self.failed.saturating_add(1);
        }
    }
}
