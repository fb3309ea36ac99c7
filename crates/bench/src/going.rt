// Runs, and what they come to.
use crate::halt::Halt;
use crate::progress::{OneOf, Progress};
use crate::report::{Cycle, Difference, Ended, Found, Tried};
use crate::vcd::Dump;
use circuit::{Circuit, Refusal};
use cli::BenchOptions;
use clocks::Bench;
use script::Script;
use trial::Trial;
use watch::Watch;

// What goes on beside a run: a dump that is written of it, and what is told of how far it is.
#[derive(Drop)]
struct Beside {
    dump: Option<Dump>,
    progress: Progress,
}

impl Beside {
    // Before the run: the dump that is asked for is begun.
    fn begin(
        &mut self,
        rt: &HostRuntime,
        task: &BenchOptions<'_>,
        bench: Bench<'_>,
    ) -> Result<(), Halt> {
        if let Some(path) = task.vcd {
            self.dump = Some(Dump::new(rt, path, bench)?);
        }
        Ok(())
    }

    // The moment that has just gone.
    fn moment(
        &mut self,
        rt: &HostRuntime,
        bench: Bench<'_>,
        trial: &Trial<'_>,
    ) -> Result<(), Halt> {
        if let Some(dump) = &mut self.dump {
            dump.moment(bench, trial)?;
        }
        Ok(self.progress.moment(rt, trial.done(), bench.script.cycles)?)
    }

    // The end of the run.
    fn finish(&mut self, trial: &Trial<'_>) -> Result<(), Halt> {
        match &mut self.dump {
            Some(dump) => dump.finish(trial),
            None => Ok(()),
        }
    }
}

// To the end of cycle `number`, the next one: the first register that is not as drawn.
fn go_on(
    rt: &HostRuntime,
    bench: Bench<'_>,
    watch: &mut Watch<'_>,
    beside: &mut Beside,
    number: u32,
) -> Result<Option<Difference>, Halt> {
    while watch.step() {
        beside.moment(rt, bench, watch.trial())?;
    }
    watch.cycle();
    match watch.first_difference() {
        Some(register) => Ok(Some(Difference {
            cycle: number,
            register,
        })),
        None => Ok(None),
    }
}

// All cycles of a run, each of which is printed.
fn print_cycles(
    rt: &HostRuntime,
    bench: Bench<'_>,
    watch: &mut Watch<'_>,
    beside: &mut Beside,
) -> Result<Option<Difference>, Halt> {
    let mut first = None;
    for done in 0..bench.script.cycles {
        let number = done + 1;
        first = first.or(go_on(rt, bench, watch, beside, number)?);
        let cycle = Cycle { number, watch };
        beside.progress.clear(rt);
        println!(rt; "{cycle}")?;
    }
    Ok(first)
}

// A run, of which each cycle is printed.
fn print_run(
    rt: &HostRuntime,
    task: &BenchOptions<'_>,
    bench: Bench<'_>,
    watch: &mut Watch<'_>,
    beside: &mut Beside,
) -> Result<Option<Difference>, Halt> {
    beside.begin(rt, task, bench)?;
    let first = print_cycles(rt, bench, watch, beside)?;
    beside.finish(watch.trial())?;
    Ok(first)
}

// The cycles of a run, up to the first that differs from the drawing.
fn go_until_different(
    rt: &HostRuntime,
    bench: Bench<'_>,
    watch: &mut Watch<'_>,
    beside: &mut Beside,
) -> Result<Option<Difference>, Halt> {
    for done in 0..bench.script.cycles {
        let difference = go_on(rt, bench, watch, beside, done + 1)?;
        if difference.is_some() {
            return Ok(difference);
        }
    }
    Ok(None)
}

// Where a run first differs from the drawing. It is printed where it is the only one.
fn first_difference(
    rt: &HostRuntime,
    task: &BenchOptions<'_>,
    bench: Bench<'_>,
    beside: &mut Beside,
) -> Result<Option<Difference>, Halt> {
    let mut watch = Watch::prepare(rt.alloc(), bench)?;
    match task.trials {
        None => print_run(rt, task, bench, &mut watch, beside),
        Some(_) => go_until_different(rt, bench, &mut watch, beside),
    }
}

// Whether a run is not made by its number alone: a told clock does not come after the one before it, which was chosen.
fn by_number(bench: Bench<'_>, refusal: Refusal) -> bool {
    match refusal {
        Refusal::OutOfBounds(line) => {
            misfit::explain(bench.circuit, bench.script, line).is_none()
        }
        _ => false,
    }
}

impl Tried {
    // No run, each of so many cycles.
    fn none(cycles: u32) -> Tried {
        Tried {
            made: 0,
            cycles,
            wrong: 0,
            first_wrong: None,
            not_made: 0,
            first_not_made: None,
        }
    }

    // One run more, from this number, and what it came to.
    fn add(&mut self, seed: u32, difference: Option<Difference>) {
        self.made = self.made.saturating_add(1);
        if let Some(difference) = difference {
            self.wrong = self.wrong.saturating_add(1);
            self.first_wrong = self.first_wrong.or(Some((seed, difference)));
        }
    }

    // One run more that is not made.
    fn add_not_made(&mut self, seed: u32) {
        self.not_made = self.not_made.saturating_add(1);
        self.first_not_made = self.first_not_made.or(Some(seed));
    }
}

// One run more, from this number.
fn try_run(
    rt: &HostRuntime,
    task: &BenchOptions<'_>,
    bench: Bench<'_>,
    beside: &mut Beside,
    tried: &mut Tried,
    seed: u32,
) -> Result<(), Halt> {
    match first_difference(rt, task, bench, beside) {
        Ok(difference) => tried.add(seed, difference),
        Err(Halt::Refused(refusal)) if by_number(bench, refusal) => tried.add_not_made(seed),
        Err(halt) => return Err(halt),
    }
    Ok(())
}

// So many runs, from the number that is told and the ones after it. All are numbers that can be told.
fn try_runs(
    rt: &HostRuntime,
    task: &BenchOptions<'_>,
    circuit: Circuit<'_>,
    script: &mut Script,
    beside: &mut Beside,
    runs: u32,
) -> Result<Tried, Halt> {
    let from = u32::try_from(script.seed.unwrap_or(0)).unwrap_or(0);
    let mut tried = Tried::none(script.cycles);
    for i in 0..runs {
        let seed = from.wrapping_add(i);
        script.seed = Some(u64::from(seed));
        beside.progress.run = Some(OneOf(i + 1, runs));
        try_run(
            rt,
            task,
            Bench { circuit, script },
            beside,
            &mut tried,
            seed,
        )?;
    }
    Ok(tried)
}

// The one run that is asked for.
fn make_run(
    rt: &HostRuntime,
    task: &BenchOptions<'_>,
    bench: Bench<'_>,
    beside: &mut Beside,
) -> Result<Found, Halt> {
    let first = first_difference(rt, task, bench, beside)?;
    Ok(Found {
        cycles: bench.script.cycles,
        first,
    })
}

// One run, or as many as are asked for.
pub(crate) fn make_runs(
    rt: &HostRuntime,
    task: &BenchOptions<'_>,
    circuit: Circuit<'_>,
    script: &mut Script,
) -> Result<Ended, Halt> {
    let progress = Progress::new(rt, task.quiet)?;
    let mut beside = Beside {
        dump: None,
        progress,
    };
    let ended = match task.trials {
        None => make_run(rt, task, Bench { circuit, script }, &mut beside).map(Ended::Run),
        Some(runs) => try_runs(rt, task, circuit, script, &mut beside, runs).map(Ended::Runs),
    };
    beside.progress.clear(rt);
    ended
}
