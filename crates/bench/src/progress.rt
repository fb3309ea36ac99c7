// How far a long run is, told on standard error, where that is a terminal, on one line that is written again and again.
use std::io::IsTerminal;
use std::time::Instant;
use std::{fmt, io};

// Moments between two looks at the clock.
const BETWEEN: u32 = 256;

// Seconds between two times that it is told.
const EACH: u64 = 1;

// A run of several: which, and of how many.
#[derive(Clone, Copy)]
pub(crate) struct OneOf(pub(crate) u32, pub(crate) u32);

// What stands before the cycles.
#[derive(Clone, Copy)]
struct Which(Option<OneOf>);

impl fmt::Display for Which {
    fn fmt<W: fmt::Write>(&self, f: &mut fmt::Formatter<W>) -> fmt::Result {
        match self.0 {
            None => Ok(()),
            Some(OneOf(run, runs)) => write!(f, "run {run} of {runs}, "),
        }
    }
}

// When it was told last, or when the first run began; nothing where it is not to be told. And whether it stands on the line.
#[derive(Clone, Copy)]
pub(crate) struct Progress {
    since: Option<Instant>,
    stands: bool,
    moments: u32,
    pub(crate) run: Option<OneOf>,
}

impl Progress {
    pub(crate) fn new(rt: &HostRuntime, quiet: bool) -> io::Result<Progress> {
        let told = !quiet && rt.stderr().is_terminal();
        let since = if told { Some(Instant::now(rt)?) } else { None };
        Ok(Progress {
            since,
            stands: false,
            moments: 0,
            run: None,
        })
    }

    // Whether it is time to tell it, one moment later.
    fn is_due(&mut self, rt: &HostRuntime) -> io::Result<bool> {
        let Some(since) = self.since else {
            return Ok(false);
        };
        self.moments = self.moments.wrapping_add(1) % BETWEEN;
        if self.moments != 0 || since.elapsed(rt)?.as_secs() < EACH {
            return Ok(false);
        }
        self.since = Some(Instant::now(rt)?);
        Ok(true)
    }

    // One moment more, with so many cycles done.
    pub(crate) fn moment(&mut self, rt: &HostRuntime, done: u64, cycles: u32) -> io::Result<()> {
        if self.is_due(rt)? {
            let run = Which(self.run);
            // A run goes on where nobody can be told how far it is.
            let _ = eprint!(rt; "\r\u{1b}[Kbench: {run}{done} of {cycles} cycles");
            self.stands = true;
        }
        Ok(())
    }

    // Takes it off the line, before another is printed.
    pub(crate) fn clear(&mut self, rt: &HostRuntime) {
        if self.stands {
            let _ = eprint!(rt; "\r\u{1b}[K");
            self.stands = false;
        }
    }
}
