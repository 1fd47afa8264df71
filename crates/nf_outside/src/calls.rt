//! Which calls of an object in memory fail.

ghost use Rattle.std.specs.Prelude.{◌≡◌, ◌≤◌, is_ok, not};
ghost use Rattle.nf_outside.specs.Calls.{IsNextCall, first_calls, is_failing};
ghost use Rattle.nf_outside.specs.Causes.{HasCause, Rose};

use crate::Failed;
use crate::faults::FaultCount;
use std::marker::Model;

/// Calls by number from 1, of which those that are listed fail.
#[derive(Drop)]
pub struct CallCount {
    failing: Vec<u64>,
    made: u64,
    faults: FaultCount,
}

impl Model for CallCount {
    ghost use Rattle.nf_outside.specs.Calls.{Calls};

    ghost Value = { Calls };

    ghost view = { λ calls. record { failing = calls.failing.items; made = calls.made; faults = calls.faults.count } };
}

impl CallCount {
    /// No call was made yet.
    pub fn new(failing: Vec<u64>) -> Self
        ensures { result ≡ first_calls failing.items }
    {
        CallCount {
            failing,
            made: 0,
            faults: FaultCount::new(),
        }
    }

    /// Makes the next call, which fails where it is listed.
    pub fn next(&mut self) -> Result<(), Failed>
        ensures next { IsNextCall self.old self.new }
        ensures fails { is_ok result ≡ not (is_failing self.new) }
        ensures cause { HasCause self.old.faults self.new.faults result }
        ensures never_fewer { self.old.faults ≤ self.new.faults }
    {
        self.made = self.made.saturating_add(1);
        if self.failing.as_slice().contains(&self.made) {
            return Err(self.faults.fault());
        }
        Ok(())
    }

    /// Counts a fault of the last call, which wasn't listed.
    pub(crate) fn fault(&mut self) -> Failed
        ensures rose { Rose self.old.faults self.new.faults }
        ensures same { (self.new.made ≡ self.old.made) × (self.new.failing ≡ self.old.failing) }
    {
        self.faults.fault()
    }

    pub(crate) fn made(&self) -> u64
        ensures { result ≡ self.now.made }
    {
        self.made
    }

    /// How many calls failed, up to 2^64 - 1.
    pub fn faults(&self) -> u64
        ensures { result ≡ self.now.faults }
    {
        self.faults.count
    }
}
