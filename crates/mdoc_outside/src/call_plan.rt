// Which calls of an object in memory fail.
ghost use Rattle.std.specs.Prelude.{◌≡◌, ◌≤◌, ◌↔◌, IsTrue, Contains, MatchBool};
ghost use Rattle.mdoc_outside.specs.Faults.{one_more};

// The numbers of the calls that fail, from 0, with how many calls were made and how many failed.
#[derive(Drop)]
pub(crate) struct CallPlan {
    fails: Vec<u64>,
    calls: u64,
    faults: u64,
}

impl CallPlan {
    ghost use Rattle.mdoc_outside.specs.CallPlan.{planned, call_number, fault_count, IsNextCall};

    pub(crate) fn new(fails: Vec<u64>) -> CallPlan
        ensures failing { planned result ≡ fails.items }
        ensures calls { call_number result ≡ 0 }
        ensures faults { fault_count result ≡ 0 }
    {
        CallPlan {
            fails,
            calls: 0,
            faults: 0,
        }
    }

    // Whether the next call fails.
    pub(crate) fn is_next_failing(&self) -> bool
        ensures { IsTrue result ↔ Contains (planned self.now) (call_number self.now) }
    {
        self.fails.contains(&self.calls)
    }

    // Counts a call that was made.
    pub(crate) fn count(&mut self, failed: bool)
        ensures failing { planned self.new ≡ planned self.old }
        ensures calls { IsNextCall (call_number self.old) (call_number self.new) }
        ensures faults { MatchBool failed
            (fault_count self.new ≡ one_more (fault_count self.old))
            (fault_count self.new ≡ fault_count self.old) }
        ensures later { fault_count self.old ≤ fault_count self.new }
    {
        self.calls = self.calls.saturating_add(1);
        if failed {
            self.count_fault();
        }
    }

    // Counts one more failure.
    pub(crate) fn count_fault(&mut self)
        ensures failing { planned self.new ≡ planned self.old }
        ensures calls { call_number self.new ≡ call_number self.old }
        ensures faults { fault_count self.new ≡ one_more (fault_count self.old) }
        ensures later { fault_count self.old ≤ fault_count self.new }
    {
        self.faults = self.faults.saturating_add(1);
    }

    // Counts the call that begins now, and says whether it fails.
    pub(crate) fn fails_now(&mut self) -> bool
        ensures planned { IsTrue result ↔ Contains (planned self.old) (call_number self.old) }
        ensures failing { planned self.new ≡ planned self.old }
        ensures calls { IsNextCall (call_number self.old) (call_number self.new) }
        ensures faults { MatchBool result
            (fault_count self.new ≡ one_more (fault_count self.old))
            (fault_count self.new ≡ fault_count self.old) }
        ensures later { fault_count self.old ≤ fault_count self.new }
    {
        let fails = self.is_next_failing();
        self.count(fails);
        fails
    }
}
