ghost use Rattle.std.specs.Prelude.{◌≡◌, ◌≤◌, ◌||◌};
ghost use Rattle.edge_core.specs.Faults.{is_next_failing, after_call};

use list_core::Parts;
use std::marker::Model;

/// Numbers of calls, counted from 1.
pub type Calls = Parts<u64>;

/// Which calls of an object fail, how many calls there were and how many failed.
#[derive(Debug, Drop)]
pub(crate) struct FaultPlan {
    calls: u64,
    count: u64,
    failing: Calls,
}

impl Model for FaultPlan {
    ghost use Rattle.edge_core.specs.Faults.{PlannedFaults};

    ghost Value = { PlannedFaults };

    ghost view = { λ p. record { calls = p.calls; count = p.count; failing = p.failing } };
}

impl FaultPlan {
    pub(crate) fn new(failing: Calls) -> FaultPlan
        ensures { result ≡ record { calls = 0; count = 0; failing = failing } }
    {
        FaultPlan {
            calls: 0,
            count: 0,
            failing,
        }
    }

    /// Counts a call, and answers whether it fails: it was to fail, or fails for `another` cause.
    /// A call that fails is counted as a fault.
    pub(crate) fn fails_next(&mut self, another: bool) -> bool
        ensures result { result ≡ (is_next_failing self.old || another) }
        ensures after { self.new ≡ after_call self.old result }
        ensures never_falls { self.old.count ≤ self.new.count }
    {
        self.calls = self.calls.saturating_add(1);
        let fails = self.failing.as_slice().contains(&self.calls) || another;
        if fails {
            self.count = self.count.saturating_add(1);
        }
        fails
    }

    /// How many calls failed.
    pub(crate) fn count(&self) -> u64
        ensures { result ≡ self.now.count }
    {
        self.count
    }
}
