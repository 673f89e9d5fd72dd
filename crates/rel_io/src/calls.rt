//! The calls of an object in memory: how many there were, which are to fail, and the faults.
ghost use Rattle.std.specs.Prelude.{◌≡◌, ◌+◌, ◌-◌, ◌^◌, ◌≤◌, min};
ghost use Rattle.rel_io.specs.Told.{Rose};
ghost use Rattle.rel_io.specs.Memory.{is_to_fail};

use rel_list::List;

/// The count after one more fault. It stops at the greatest `u64`.
pub(crate) fn one_more(count: u64) -> u64
    ensures rose { Rose count result }
    ensures grows { count ≤ result }
{
    count.saturating_add(1)
}

/// Calls are numbered from 0. The number stops at the greatest `u64`.
#[derive(Debug, Drop)]
pub struct Calls {
    fails: List<u64>,
    made: u64,
    faults: u64,
}

impl Calls {
    pub(crate) fn new(fails: List<u64>) -> Calls
        ensures fails { result.fails ≡ fails }
        ensures made { result.made ≡ 0 }
        ensures faults { result.faults ≡ 0 }
    {
        Calls {
            fails,
            made: 0,
            faults: 0,
        }
    }

    /// Counts a call, and tells whether it is to fail.
    pub(crate) fn is_failing(&mut self) -> bool
        ensures told { result ≡ is_to_fail self.old.fails self.old.made }
        ensures counted { self.new ≡ record self.old { made = min (self.old.made + 1) (2 ^ 64 - 1) } }
    {
        let number = self.made;
        self.made = number.saturating_add(1);
        self.fails.as_slice().contains(&number)
    }

    pub(crate) fn count_fault(&mut self)
        ensures rose { Rose self.old.faults self.new.faults }
        ensures grows { self.old.faults ≤ self.new.faults }
        ensures rest { self.new ≡ record self.old { faults = self.new.faults } }
    {
        self.faults = one_more(self.faults);
    }
}
