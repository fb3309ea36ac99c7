//! The command line of `bench`.
ghost use Rattle.std.specs.Prelude.{◌≡◌, ◌≢◌, ◌<◌, ◌⊎◌, IfOk, IfSome, Some, None, codes};
ghost use Rattle.cli.specs.Asked.{IfDo, IfTell, IsToldBy};
ghost use Rattle.cli.specs.Bench.{KeepsFiles, ReadsStandardOnce, WritesOneRun};

use crate::option::{file, flag, number, valued};
use crate::told::{Asked, refusal_of, told_of};
use clap::{ArgMatches, Command, value_parser};
use std::alloc::{AllocError, Global};
use thiserror::Error;

/// What `bench` is to do.
#[derive(Clone, Copy)]
pub struct BenchOptions<'a> {
    /// The file of the circuit; `-` is standard input.
    pub circuit: &'a str,
    /// The file of the delays; `-` is standard input.
    pub delays: &'a str,
    /// The file that the run is written to as a value change dump, if it is.
    pub vcd: Option<&'a str>,
    /// How many runs are made, where more than one may be.
    pub trials: Option<u32>,
    /// Whether it is not told how far a long run is.
    pub quiet: bool,
    /// Whether to end with status 0 whatever is found.
    pub exit_zero: bool,
}

const NAME: &str = "bench";

const VERSION: &str = "(muleminute) 0.1.0";

const ABOUT: &str =
    "Lets the circuit of the file CIRCUIT go through time, moment by moment, with the delays, clocks and
all else that the file DELAYS tells, and looks at every register after every cycle.

  3: 10, as drawn             in cycle 3 registers 0 and 1 hold 1 and 0, as the drawing says
  4: 01, register 1 is 1 and drawn 0
                              register 1 holds another bit than the drawing says
  5 cycles, as drawn          the end: all were as drawn; or else
  5 cycles, not as drawn: first in cycle 4 at register 1
  turned away by N at P: REASON
                              the numbers are no circuit, what is told is out of its bounds, or no
                              run is possible";

const STATUSES: &str =
    "Status 0 if every register was as drawn after every cycle, and 1 if one was not or the circuit was
turned away. A file that cannot be read or written, or that has a fault in its text, is an error: it
is told on standard error, and the status is 2 in any case.";

const CIRCUIT: &str = "A text of one circuit; - is standard input";

const DELAYS: &str = "A text of delays; - is standard input";

const TRIALS: &str = "Make N runs, from the number that DELAYS tells behind `random` and the ones
after it, and print what they come to as one line";

const VCD: &str = "Write the run as a value change dump: all signals, clocks, and where a
register may show or take anything";

const QUIET: &str = "Do not tell how far a long run is";

const EXIT_ZERO: &str = "End with status 0 whatever is found";

// Why options cannot be followed that `clap` lets through.
#[derive(Debug, Drop, Error)]
enum BenchError {
    #[error("invalid value '0' for '--trials <N>': 0 is not in 1..=4294967295")]
    NoTrials,
    #[error("CIRCUIT and DELAYS are not both given")]
    NoFile,
    #[error("only one of the two files can be standard input")]
    BothStandard,
    #[error("--vcd would overwrite what is read")]
    Overwrites,
}

// The command line of `bench`, as `clap` reads it.
fn command<'a>(heap: Global) -> Result<Command<'a>, AllocError> {
    let trials = number(heap, "trials", "N", TRIALS)
        .value_parser(value_parser!(u32))
        .conflicts_with("vcd")?;
    Command::new(heap, NAME)
        .bin_name(NAME)?
        .version(VERSION)
        .about(ABOUT)
        .after_help(STATUSES)
        .arg(file(heap, "circuit", "CIRCUIT", CIRCUIT))?
        .arg(file(heap, "delays", "DELAYS", DELAYS))?
        .arg(trials)?
        .arg(valued(heap, "vcd", "FILE", VCD))?
        .arg(flag(heap, "quiet", QUIET))?
        .arg(flag(heap, "exit-zero", EXIT_ZERO))
}

// How many runs are made, and the file that one is written to.
fn runs_of<'a>(matches: &ArgMatches<'a>) -> Result<(Option<u32>, Option<&'a str>), BenchError>
    ensures trials { IfOk result (λ r. IfSome r.0 (λ n. 0 < n)) }
    ensures one { IfOk result (λ r. (r.1 ≡ None) ⊎ (r.0 ≡ None)) }
{
    match matches.get_one::<u32>("trials") {
        Some(0) => Err(BenchError::NoTrials),
        Some(trials) => Ok((Some(trials), None)),
        None => Ok((None, matches.get_str("vcd"))),
    }
}

// The two files that are read.
fn files_of<'a>(matches: &ArgMatches<'a>) -> Result<(&'a str, &'a str), BenchError>
    ensures { IfOk result (λ f. (f.0.now ≡ codes "-") → (f.1.now ≢ codes "-")) }
{
    let (Some(circuit), Some(delays)) = (matches.get_str("circuit"), matches.get_str("delays"))
    else {
        return Err(BenchError::NoFile);
    };
    if circuit == "-" && delays == "-" {
        return Err(BenchError::BothStandard);
    }
    Ok((circuit, delays))
}

fn options_of<'a>(matches: &ArgMatches<'a>) -> Result<BenchOptions<'a>, BenchError>
    ensures trials { IfOk result (λ o. IfSome o.trials (λ n. 0 < n)) }
    ensures one { IfOk result WritesOneRun }
    ensures standard { IfOk result ReadsStandardOnce }
    ensures kept { IfOk result KeepsFiles }
{
    let (circuit, delays) = files_of(matches)?;
    let (trials, vcd) = runs_of(matches)?;
    if vcd == Some(circuit) || vcd == Some(delays) {
        return Err(BenchError::Overwrites);
    }
    Ok(BenchOptions {
        circuit,
        delays,
        vcd,
        trials,
        quiet: matches.get_flag("quiet"),
        exit_zero: matches.get_flag("exit-zero"),
    })
}

/// What the words of a command line of `bench`, its name first, ask for. It fails only for want of memory.
pub fn bench_options<'a>(
    heap: Global,
    words: &'a [String],
) -> Result<Asked<BenchOptions<'a>>, AllocError>
    ensures trials { IfOk result (λ a. IfDo a (λ o. IfSome o.trials (λ n. 0 < n))) }
    ensures one { IfOk result (λ a. IfDo a WritesOneRun) }
    ensures standard { IfOk result (λ a. IfDo a ReadsStandardOnce) }
    ensures kept { IfOk result (λ a. IfDo a KeepsFiles) }
    ensures told { IfOk result (λ a. IfTell a (IsToldBy (codes "bench"))) }
{
    let mut command = command(heap)?;
    match command.try_get_matches_from_mut(words) {
        Ok(matches) => match options_of(&matches) {
            Ok(options) => Ok(Asked::Do(options)),
            Err(wrong) => Ok(Asked::Tell(refusal_of(heap, &mut command, NAME, &wrong)?)),
        },
        Err(error) => Ok(Asked::Tell(told_of(heap, NAME, &error)?)),
    }
}
