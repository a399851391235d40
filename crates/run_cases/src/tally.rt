//! How many tries, or answers of the real host, came as wanted.

/// How many failed tries of one case are printed in full.
pub const IN_FULL: u64 = 3;

/// How many tries came as wanted, how many didn't, and how many of the open case didn't.
#[derive(Clone, Copy)]
pub struct Tally {
    pub passed: u64,
    pub failed: u64,
    pub failed_here: u64,
}

impl Tally {
    pub fn new() -> Tally {
        Tally {
            passed: 0,
            failed: 0,
            failed_here: 0,
        }
    }

    /// The next tries are of another case.
    pub fn begin_case(&mut self) {
        self.failed_here = 0;
    }

    pub fn count(&mut self, passed: bool) {
        if passed {
            self.passed = self.passed.saturating_add(1);
        } else {
            self.failed = self.failed.saturating_add(1);
            self.failed_here = self.failed_here.saturating_add(1);
        }
    }

    /// How many failed tries of the open case aren't printed.
    pub fn unshown(&self) -> u64 {
        self.failed_here.saturating_sub(IN_FULL)
    }
}
