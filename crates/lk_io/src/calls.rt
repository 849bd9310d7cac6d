ghost use Rattle.std.specs.Prelude.{◌≡◌, ◌≤◌, ◌↔◌, Contains, IsErr, MatchResult};
ghost use Rattle.lk_io.specs.Run.{one_more};

use crate::Failed;

/// The calls of an object in memory, counted from 1, and those that are to fail.
#[derive(Drop)]
pub(crate) struct Calls {
    pub(crate) fail_at: Vec<u64>,
    pub(crate) made: u64,
    pub(crate) failed: u64,
}

impl Calls {
    pub(crate) fn new(fail_at: Vec<u64>) -> Calls
        ensures fail_at { result.fail_at ≡ fail_at }
        ensures made { result.made ≡ 0 }
        ensures failed { result.failed ≡ 0 }
    {
        Calls {
            fail_at,
            made: 0,
            failed: 0,
        }
    }

    /// Counts one call, which fails exactly where its number is listed.
    pub(crate) fn begin(&mut self) -> Result<(), Failed>
        ensures fail_at { self.new.fail_at ≡ self.old.fail_at }
        ensures made { self.new.made ≡ one_more self.old.made }
        ensures listed { IsErr result ↔ Contains self.old.fail_at.items (one_more self.old.made) }
        ensures failed { MatchResult result (λ _. self.new.failed ≡ self.old.failed) (λ _. self.new.failed ≡ one_more self.old.failed) }
    {
        self.made = self.made.saturating_add(1);
        if self.fail_at.contains(&self.made) {
            self.failed = self.failed.saturating_add(1);
            return Err(Failed);
        }
        Ok(())
    }
}
