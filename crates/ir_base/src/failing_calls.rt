//! Calls by number, of which some are told to fail.
ghost use Rattle.std.specs.Prelude.{◌≡◌, ◌+◌, [], List, ℕ, if◌then◌else◌};
ghost use Rattle.ir_base.specs.Calls.{is_named, next_count, next_fails, named_calls};

use crate::NumberList;

/// The numbers of the calls that fail, counted from 1, and how many calls were made.
#[derive(Debug, Drop)]
pub(crate) struct FailingCalls {
    pub(crate) fails: NumberList,
    pub(crate) made: u64,
}

impl FailingCalls {
    /// No call was made yet.
    pub(crate) fn new(fails: NumberList) -> FailingCalls
        ensures fails { result.fails ≡ fails }
        ensures made { result.made ≡ 0 }
    {
        FailingCalls { fails, made: 0 }
    }

    /// Makes the next call, and says whether it is told to fail.
    #[tactic(auto, using(crate::proofs::NamedCalls::named_calls_more))]
    pub(crate) fn next_fails(&mut self) -> bool
        ensures fails { self.new.fails ≡ self.old.fails }
        ensures made { self.new.made ≡ next_count self.old.made }
        ensures named { result ≡ next_fails self.old.fails self.old.made }
        ensures count { named_calls self.new.fails self.new.made
            ≡ named_calls self.old.fails self.old.made + (if result then 1 else 0) }
    {
        if self.made == u64::MAX {
            return false;
        }
        self.made += 1;
        self.fails.as_slice().contains(&self.made)
    }
}
