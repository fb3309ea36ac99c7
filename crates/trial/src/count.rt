// How far a run has come.
ghost use Rattle.std.specs.Prelude.{◌≡◌};

use crate::running::Trial;
use clocks::Bench;

impl<'a> Trial<'a> {
    // What it is a run of.
    pub fn bench(&self) -> Bench<'a>
        ensures { result ≡ self.now.bench }
    {
        self.bench
    }

    // How many moments have gone.
    pub fn moment(&self) -> u64
        ensures { result ≡ self.now.moment }
    {
        self.moment
    }

    // How many cycles are done.
    pub fn done(&self) -> u64
        ensures { result ≡ self.now.done }
    {
        self.done
    }
}
