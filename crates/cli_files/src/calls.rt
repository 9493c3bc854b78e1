//! Which calls fail.
ghost use Rattle.std.specs.Prelude.{◌≡◌, ◌≤◌};
ghost use Rattle.cli_files.specs.Memory.{IsNew, calls_after, fails_now};

/// The number of calls so far, the numbers of those that fail, from 0, and how many failed.
#[derive(Drop)]
pub(crate) struct Calls {
    failing: Vec<u64>,
    made: u64,
    faults: u64,
}

impl Calls {
    pub(crate) fn new(failing: Vec<u64>) -> Calls
        ensures { IsNew result failing.items }
    {
        Calls {
            failing,
            made: 0,
            faults: 0,
        }
    }

    // Counts a call, and says whether it fails.
    pub(crate) fn next_fails(&mut self) -> bool
        ensures answer { result ≡ fails_now self.old }
        ensures counted { self.new ≡ calls_after self.old }
        ensures grows { self.old.faults ≤ self.new.faults }
    {
        let fails = self.failing.contains(&self.made);
        self.made = self.made.saturating_add(1);
        if fails {
            self.faults = self.faults.saturating_add(1);
        }
        fails
    }
}
