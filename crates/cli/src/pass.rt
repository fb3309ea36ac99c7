//! The command line of `pass`.
ghost use Rattle.std.specs.Prelude.{◌≡◌, ◌≤◌, ◌<◌, IfOk, IfSome, codes, length};
ghost use Rattle.cli.specs.Asked.{IfDo, IfTell, IsToldBy};
ghost use Rattle.cli.specs.Pass.{IsListed, IsOfOneRegister};

use crate::option::{file, flag, number};
use crate::told::{Asked, refusal_of, told_of};
use clap::{Arg, ArgAction, ArgMatches, Command, value_parser};
use std::alloc::{AllocError, Global};
use thiserror::Error;

/// What is printed of each circuit.
#[derive(Clone, Copy, PartialEq)]
pub enum Form {
    /// Its word.
    Words,
    /// Its word, and paths step by step.
    Paths,
    /// Its shortest period.
    Period,
    /// Its smallest setup margin as a part of its period.
    Near,
    /// All that is found, as a report.
    Report,
    /// All that is found, as JSON.
    Json,
    /// So many of the worst paths, by setup slack or, where `early`, by hold slack.
    Worst {
        paths: usize,
        early: bool,
        layout: Layout,
    },
}

/// How the worst paths are printed.
#[derive(Clone, Copy, PartialEq)]
pub enum Layout {
    /// As a table.
    Table,
    /// As a table, and then each path step by step.
    Steps,
    /// As JSON.
    Json,
}

/// What `pass` is to do.
#[derive(Drop)]
pub struct PassOptions<'a> {
    pub form: Form,
    /// The one register that is asked for, if one is.
    pub register: Option<usize>,
    /// Whether to end with status 0 whatever is said of the circuits.
    pub exit_zero: bool,
    /// The files; `-` is standard input.
    pub files: Vec<&'a str>,
}

const NAME: &str = "pass";

const VERSION: &str = "(muleminute) 0.1.0";

// The largest number of worst paths that can be asked for.
const MOST: u32 = 100;

const ABOUT: &str =
    "Passes the circuits of each FILE, in order, or says what stands in the way: a line for each.

  passed, margin A and B      whatever delays and clocks do within their bounds, the registers hold
                              what the drawing says, in every cycle; the setup time could be longer
                              by A, the hold time by B
  too late at R by G, G: A and B
                              the input of register R comes too late, by the path through these
                              gates: latest time and setup A, period and early time B
  too early at R by G, G: A and B
                              the input of register R changes too early: earliest time A, late time
                              and hold B
  turned away by N at P: REASON (line L)
                              the numbers are no circuit";

const STATUSES: &str =
    "Status 0 if every circuit is passed, or with --near or --period if none is turned away; else 1. A
file that cannot be read, that has a fault in its text, or that has no circuit is an error: it is
told on standard error, and the status is 2 in any case.";

const FILE: &str = "A text of circuits; - is standard input";

const JSON: &str = "Print for each circuit an object of JSON on a line of its own, which
docs/JSON.md describes";

const PATHS: &str = "After the word on a circuit tell, step by step, the path to the register that
it names, and those to the registers with the smallest margin of each kind";

const PERIOD: &str = "Print for each circuit the shortest period with which no input comes too late,
and the frequency of it: shortest period 17, 58823.529 MHz; whether one
changes too early is not looked at";

const NEAR: &str = "Print for each circuit its smallest setup margin as a part of the period,
below 0 where an input comes too late: smallest setup margin 0.15 of the
period; or no period, where that is 0; the hold time is not looked at";

const REPORT: &str = "Print for each circuit a text that stands for itself: the circuit, and all
that is found of it, which docs/REPORT.md describes";

const WORST: &str = "After the word on a circuit print a table of the K worst paths, 1 to 100, the
smallest setup slack first; with --paths each of them step by step too, with
--json as JSON";

const EARLY: &str = "With --worst: the smallest hold slack first";

const EXIT_ZERO: &str = "End with status 0 whatever is said of the circuits";

const REGISTER: &str =
    "Print what is found of register R alone: whether it meets its times, its margins,
and for each sum both numbers and the signals of its path";

// Why options cannot be followed that `clap` lets through.
#[derive(Debug, Drop, Error)]
enum PassError {
    #[error("invalid value '{0}' for '--worst <K>': {0} is not in 1..={MOST}")]
    Paths(u32),
    #[error("no FILE is given")]
    NoFile,
}

// Of the options that say what is printed, no two go together.
fn json<'a>(heap: Global) -> Result<Arg<'a>, AllocError> {
    flag(heap, "json", JSON)
        .conflicts_with("paths")?
        .conflicts_with("period")?
        .conflicts_with("near")?
        .conflicts_with("report")
}

fn paths<'a>(heap: Global) -> Result<Arg<'a>, AllocError> {
    flag(heap, "paths", PATHS)
        .conflicts_with("period")?
        .conflicts_with("near")?
        .conflicts_with("report")
}

fn period<'a>(heap: Global) -> Result<Arg<'a>, AllocError> {
    flag(heap, "period", PERIOD)
        .conflicts_with("near")?
        .conflicts_with("report")
}

fn near<'a>(heap: Global) -> Result<Arg<'a>, AllocError> {
    flag(heap, "near", NEAR).conflicts_with("report")
}

// The worst paths go with steps or with JSON.
fn worst<'a>(heap: Global) -> Result<Arg<'a>, AllocError> {
    number(heap, "worst", "K", WORST)
        .value_parser(value_parser!(u32))
        .conflicts_with("period")?
        .conflicts_with("near")?
        .conflicts_with("report")
}

fn early<'a>(heap: Global) -> Result<Arg<'a>, AllocError> {
    flag(heap, "early", EARLY).requires_arg("worst")
}

// One register is asked for alone.
fn register<'a>(heap: Global) -> Result<Arg<'a>, AllocError> {
    number(heap, "register", "R", REGISTER)
        .value_parser(value_parser!(usize))
        .conflicts_with("json")?
        .conflicts_with("paths")?
        .conflicts_with("period")?
        .conflicts_with("near")?
        .conflicts_with("report")?
        .conflicts_with("worst")
}

// The options that say what is printed of each circuit.
fn with_forms<'a>(heap: Global, command: Command<'a>) -> Result<Command<'a>, AllocError> {
    command
        .arg(json(heap)?)?
        .arg(paths(heap)?)?
        .arg(period(heap)?)?
        .arg(near(heap)?)?
        .arg(flag(heap, "report", REPORT))
}

// The options that say of which paths and of which register.
fn with_choices<'a>(heap: Global, command: Command<'a>) -> Result<Command<'a>, AllocError> {
    command
        .arg(worst(heap)?)?
        .arg(early(heap)?)?
        .arg(register(heap)?)
}

// The command line of `pass`, as `clap` reads it.
fn command<'a>(heap: Global) -> Result<Command<'a>, AllocError> {
    let files = file(heap, "file", "FILE", FILE)
        .num_args(1..)
        .action(ArgAction::Append);
    let named = Command::new(heap, NAME).bin_name(NAME)?.version(VERSION);
    let command = with_forms(heap, named.about(ABOUT).after_help(STATUSES).arg(files)?)?;
    with_choices(heap, command)?.arg(flag(heap, "exit-zero", EXIT_ZERO))
}

fn layout_of(matches: &ArgMatches<'_>) -> Layout {
    if matches.get_flag("json") {
        Layout::Json
    } else if matches.get_flag("paths") {
        Layout::Steps
    } else {
        Layout::Table
    }
}

// So many of the worst paths.
fn worst_of(matches: &ArgMatches<'_>, paths: u32) -> Result<Form, PassError>
    ensures { IfOk result IsListed }
{
    if paths == 0 || paths > MOST {
        return Err(PassError::Paths(paths));
    }
    Ok(Form::Worst {
        paths: paths as usize,
        early: matches.get_flag("early"),
        layout: layout_of(matches),
    })
}

// What is asked for where it is not the worst paths.
fn plain_form_of(matches: &ArgMatches<'_>) -> Form
    ensures { IsListed result }
{
    if matches.get_flag("json") {
        Form::Json
    } else if matches.get_flag("paths") {
        Form::Paths
    } else if matches.get_flag("period") {
        Form::Period
    } else if matches.get_flag("near") {
        Form::Near
    } else if matches.get_flag("report") {
        Form::Report
    } else {
        Form::Words
    }
}

fn form_of(matches: &ArgMatches<'_>) -> Result<Form, PassError>
    ensures { IfOk result IsListed }
{
    match matches.get_one::<u32>("worst") {
        Some(paths) => worst_of(matches, paths),
        None => Ok(plain_form_of(matches)),
    }
}

// The register that is asked for, where one can be.
fn register_of(matches: &ArgMatches<'_>, form: Form) -> Option<usize>
    ensures { IfSome result (λ r. IsOfOneRegister form) }
{
    match form {
        Form::Words => matches.get_one::<usize>("register"),
        _ => None,
    }
}

// The files that are named.
fn files_of<'m, 'a>(matches: &'m ArgMatches<'a>) -> Result<&'m [&'a str], PassError>
    ensures { IfOk result (λ f. 0 < length f.now) }
{
    match matches.get_strs("file") {
        Some(files) if !files.is_empty() => Ok(files),
        _ => Err(PassError::NoFile),
    }
}

// What the options are, with room made for the files.
fn options_of<'a>(
    heap: Global,
    matches: &ArgMatches<'a>,
    form: Form,
    files: &[&'a str],
) -> Result<PassOptions<'a>, AllocError>
    ensures form { IfOk result (λ o. o.form ≡ form) }
    ensures register { IfOk result (λ o. IfSome o.register (λ r. IsOfOneRegister o.form)) }
    ensures files { IfOk result (λ o. o.files.items ≡ files.now) }
{
    Ok(PassOptions {
        form,
        register: register_of(matches, form),
        exit_zero: matches.get_flag("exit-zero"),
        files: Vec::from_slice(heap, files)?,
    })
}

// What is asked for by what `clap` found.
fn asked_of<'a>(
    heap: Global,
    command: &mut Command<'a>,
    matches: &ArgMatches<'a>,
) -> Result<Asked<PassOptions<'a>>, AllocError>
    ensures worst { IfOk result (λ a. IfDo a (λ o. IsListed o.form)) }
    ensures register { IfOk result (λ a. IfDo a (λ o. IfSome o.register
        (λ r. IsOfOneRegister o.form))) }
    ensures files { IfOk result (λ a. IfDo a (λ o. 0 < length o.files.items)) }
    ensures told { IfOk result (λ a. IfTell a (IsToldBy (codes "pass"))) }
{
    match (form_of(matches), files_of(matches)) {
        (Ok(form), Ok(files)) => Ok(Asked::Do(options_of(heap, matches, form, files)?)),
        (Err(wrong), _) | (_, Err(wrong)) => Ok(Asked::Tell(refusal_of(
            heap, command, NAME, &wrong,
        )?)),
    }
}

/// What the words of a command line of `pass`, its name first, ask for. It fails only for want of memory.
pub fn pass_options<'a>(
    heap: Global,
    words: &'a [String],
) -> Result<Asked<PassOptions<'a>>, AllocError>
    ensures worst { IfOk result (λ a. IfDo a (λ o. IsListed o.form)) }
    ensures register { IfOk result (λ a. IfDo a (λ o. IfSome o.register (λ r. IsOfOneRegister o.form))) }
    ensures files { IfOk result (λ a. IfDo a (λ o. 0 < length o.files.items)) }
    ensures told { IfOk result (λ a. IfTell a (IsToldBy (codes "pass"))) }
{
    let mut command = command(heap)?;
    match command.try_get_matches_from_mut(words) {
        Ok(matches) => asked_of(heap, &mut command, &matches),
        Err(error) => Ok(Asked::Tell(told_of(heap, NAME, &error)?)),
    }
}
