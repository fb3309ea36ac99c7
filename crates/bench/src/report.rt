// What is printed of a run.
use crate::outcome::Outcome;
use circuit::Refusal;
use clocks::Bench;
use misfit::Misfit;
use std::fmt;
use std::fmt::Write;
use watch::Watch;

fn digit(bit: bool) -> char {
    if bit { '1' } else { '0' }
}

// A cycle: its number, the registers' bits, and whether they are as drawn, or else each that is not.
#[derive(Clone, Copy)]
pub(crate) struct Cycle<'a, 'b> {
    pub(crate) number: u32,
    pub(crate) watch: &'a Watch<'b>,
}

impl fmt::Display for Cycle<'_, '_> {
    fn fmt<W: fmt::Write>(&self, f: &mut fmt::Formatter<W>) -> fmt::Result {
        let (held, drawn) = (self.watch.held(), self.watch.drawn());
        write!(f, "{}: ", self.number)?;
        put_bits(f, held)?;
        if held == drawn {
            return f.write_str(", as drawn");
        }
        put_others(f, held, drawn)
    }
}

fn put_bits<W: fmt::Write>(f: &mut fmt::Formatter<W>, bits: &[bool]) -> fmt::Result {
    for bit in bits {
        f.write_char(digit(*bit))?;
    }
    Ok(())
}

// A register that holds another bit than is drawn.
fn put_other<W: fmt::Write>(f: &mut fmt::Formatter<W>, r: usize, held: bool) -> fmt::Result {
    let (is, should) = (digit(held), digit(!held));
    write!(f, ", register {r} is {is} and drawn {should}")
}

// Each register that holds another bit than is drawn.
fn put_others<W: fmt::Write>(
    f: &mut fmt::Formatter<W>,
    held: &[bool],
    drawn: &[bool],
) -> fmt::Result {
    for (r, (held, drawn)) in held.iter().zip(drawn).enumerate() {
        if held != drawn {
            put_other(f, r, *held)?;
        }
    }
    Ok(())
}

// Where a run was first seen to differ from the drawing.
#[derive(Clone, Copy)]
pub(crate) struct Difference {
    pub(crate) cycle: u32,
    pub(crate) register: usize,
}

impl fmt::Display for Difference {
    fn fmt<W: fmt::Write>(&self, f: &mut fmt::Formatter<W>) -> fmt::Result {
        write!(f, "in cycle {} at register {}", self.cycle, self.register)
    }
}

// A number of things of one name.
#[derive(Clone, Copy)]
struct Count(u32, &'static str);

impl fmt::Display for Count {
    fn fmt<W: fmt::Write>(&self, f: &mut fmt::Formatter<W>) -> fmt::Result {
        let Count(n, name) = *self;
        let plural = if n == 1 { "" } else { "s" };
        write!(f, "{n} {name}{plural}")
    }
}

// A run of so many cycles, which differs there.
#[derive(Clone, Copy)]
pub(crate) struct Found {
    pub(crate) cycles: u32,
    pub(crate) first: Option<Difference>,
}

impl fmt::Display for Found {
    fn fmt<W: fmt::Write>(&self, f: &mut fmt::Formatter<W>) -> fmt::Result {
        let cycles = Count(self.cycles, "cycle");
        match self.first {
            None => write!(f, "{cycles}, as drawn"),
            Some(difference) => write!(f, "{cycles}, not as drawn: first {difference}"),
        }
    }
}

// How many runs were made, each of so many cycles. How many of them differ: the first is the one from this number, and
// differs there. And how many could not be made, since by their number a told clock comes too soon: the first is the one
// from this number.
#[derive(Clone, Copy)]
pub(crate) struct Tried {
    pub(crate) made: u32,
    pub(crate) cycles: u32,
    pub(crate) wrong: u32,
    pub(crate) first_wrong: Option<(u32, Difference)>,
    pub(crate) not_made: u32,
    pub(crate) first_not_made: Option<u32>,
}

impl fmt::Display for Tried {
    fn fmt<W: fmt::Write>(&self, f: &mut fmt::Formatter<W>) -> fmt::Result {
        let runs = Count(self.made, "run");
        let cycles = Count(self.cycles, "cycle");
        write!(f, "{runs} of {cycles}, ")?;
        self.put_wrong(f)?;
        self.put_not_made(f)
    }
}

impl Tried {
    fn put_wrong<W: fmt::Write>(&self, f: &mut fmt::Formatter<W>) -> fmt::Result {
        let Some((seed, difference)) = self.first_wrong else {
            return f.write_str("as drawn");
        };
        write!(
            f,
            "{} not as drawn: first with random {seed}, {difference}",
            self.wrong
        )
    }

    fn put_not_made<W: fmt::Write>(&self, f: &mut fmt::Formatter<W>) -> fmt::Result {
        let Some(seed) = self.first_not_made else {
            return Ok(());
        };
        write!(
            f,
            "; {} not made, as a told clock comes too soon: first with random {seed}",
            self.not_made
        )
    }
}

// What a run, or some, came to.
#[derive(Clone, Copy)]
pub(crate) enum Ended {
    Run(Found),
    Runs(Tried),
}

impl Ended {
    pub(crate) fn outcome(self) -> Outcome {
        match self {
            Ended::Run(Found { first: None, .. }) => Outcome::AsDrawn,
            Ended::Run(_) => Outcome::NotAsDrawn,
            Ended::Runs(tried) if tried.wrong > 0 => Outcome::NotAsDrawn,
            Ended::Runs(tried) if tried.not_made > 0 => Outcome::TurnedAway,
            Ended::Runs(_) => Outcome::AsDrawn,
        }
    }
}

impl fmt::Display for Ended {
    fn fmt<W: fmt::Write>(&self, f: &mut fmt::Formatter<W>) -> fmt::Result {
        match self {
            Ended::Run(found) => found.fmt(f),
            Ended::Runs(tried) => tried.fmt(f),
        }
    }
}

// Why a circuit does not go with what it is told.
#[derive(Clone, Copy)]
pub(crate) enum Why {
    // What is out of its bounds on a line, counted from 0; a clock within them does not come after the one before it.
    Line(usize, Option<Misfit>),
    Period,
    Moment,
}

impl Why {
    pub(crate) fn of(bench: Bench<'_>, refusal: Refusal) -> Why {
        match refusal {
            Refusal::NoPeriod => Why::Period,
            Refusal::NoMoment => Why::Moment,
            _ => {
                let line = refusal.place();
                Why::Line(line, misfit::explain(bench.circuit, bench.script, line))
            }
        }
    }
}

impl fmt::Display for Why {
    fn fmt<W: fmt::Write>(&self, f: &mut fmt::Formatter<W>) -> fmt::Result {
        match self {
            Why::Line(_, Some(misfit)) => misfit.fmt(f),
            Why::Line(_, None) => f.write_str("this clock does not come after the one before it"),
            Why::Period => f.write_str("the bench makes no run with a period of 0"),
            Why::Moment => f.write_str(
                "the bench makes no run with a setup and a latest output time of 0",
            ),
        }
    }
}

// Where the reason stands that a circuit does not go with what it is told, if it stands on a line.
#[derive(Clone, Copy)]
pub(crate) struct OnLine(pub(crate) Why);

impl fmt::Display for OnLine {
    fn fmt<W: fmt::Write>(&self, f: &mut fmt::Formatter<W>) -> fmt::Result {
        match self.0 {
            Why::Line(line, _) => write!(f, " (line {})", line.saturating_add(1)),
            Why::Period | Why::Moment => Ok(()),
        }
    }
}
