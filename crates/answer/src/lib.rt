// What is said of a circuit that was read.
#![tactic(auto)]

ghost use Rattle.std.specs.Prelude.{◌≡◌, IfOk, IfErr, IfSome, is_some, codes, vec_items, string_bytes};
ghost use Rattle.std.specs.Option.{unwrap_or};
ghost use Rattle.slack.specs.Margin.{AreSmallest};
ghost use Rattle.text.specs.Meaning.{drafted};
ghost use Rattle.wording.specs.Line.{StandsBehind};
ghost use Rattle.wording.specs.Words.{titled};
ghost use Rattle.answer.specs.Line.{LineSays, PeriodLine, RatioLine};
ghost use Rattle.text.specs.Reader.{listed, placed_of};
ghost use Rattle.answer.specs.Said.{machine_of, HasNumbers, PassedIf, PeriodIf, RefusedFirst, Taken, line_about, TurnedAwayIf};

use circuit::Circuit;
use detail::Detail;
use signoff::{LONGEST_PATH, Verdict};
use slack::Smallest;
use std::alloc::Global;
use std::fmt;
use text::{Draft, Listing};
use wording::{Missed, Word};
pub use wording::{Refused, Title, TurnedAway, Why};

/// The line that is said of a circuit, and where it is passed the smallest margins, which the line tells.
#[derive(Drop)]
pub struct Said {
    pub line: String,
    pub margins: Option<Smallest>,
}

/// The line that is said of a circuit's period, and the shortest one, None where the circuit is turned away.
#[derive(Drop)]
pub struct Paced {
    pub line: String,
    pub period: Option<u64>,
}

/// The line on a circuit's smallest setup margin as a part of its period, and whether the circuit is turned away.
#[derive(Drop)]
pub struct Rated {
    pub line: String,
    pub turned_away: bool,
}

// The circuit that was read, where it is not turned away.
fn taken(draft: &Draft) -> Circuit<'_>
    requires { Taken (drafted draft.now) }
    ensures { (result.gates.now ≡ draft.now.gates.items) × (result.registers.now ≡ draft.now.registers.items)
        × (result.times.now ≡ draft.now.times.items) }
{
    Circuit::new(&draft.gates, &draft.registers, &draft.times)
}

// The line that a detail is about: that of a gate, a register or the times, else the one where the circuit began.
fn line_of(listing: &Listing, detail: Detail) -> usize
    ensures { result ≡ unwrap_or (line_about (placed_of listing.now.places) detail) listing.now.draft.line }
{
    let places = &listing.places;
    let line = match detail {
        Detail::Gate(k, _) => places.gates.get(k).copied(),
        Detail::Register(r, _) => places.registers.get(r).copied(),
        Detail::Times(_) => places.times.first().copied(),
        _ => None,
    };
    line.unwrap_or(listing.draft.line)
}

// Why a circuit is turned away, None where its numbers are one.
fn refused(listing: &Listing) -> Option<Refused>
    ensures away { TurnedAwayIf (drafted listing.now.draft) (is_some result) }
    ensures first { IfSome result (RefusedFirst (listed listing.now)) }
{
    let draft = &listing.draft;
    if let Some(miscount) = draft.miscount {
        return Some(Refused {
            what: TurnedAway::miscounted(miscount.part),
            line: miscount.line,
        });
    }
    let reason = reason::explain(&draft.gates, &draft.registers, &draft.times)?;
    Some(Refused {
        what: TurnedAway {
            refusal: reason.refusal,
            why: Why::Detail(reason.detail),
        },
        line: line_of(listing, reason.detail),
    })
}

/// The circuit that was read, or why it is turned away: the first refusal that applies, what is wrong, and the line.
pub fn circuit(listing: &Listing) -> Result<Circuit<'_>, Refused>
    ensures taken { IfOk result (λ c. Taken (drafted listing.now.draft) × HasNumbers (drafted listing.now.draft) c) }
    ensures away { IfErr result (λ x. (Taken (drafted listing.now.draft) → ⊥) × RefusedFirst (listed listing.now) x) }
{
    match refused(listing) {
        Some(refused) => Err(refused),
        None => Ok(taken(&listing.draft)),
    }
}

// What is said of a circuit that is not turned away.
fn judge(heap: Global, draft: &Draft) -> Result<Said, fmt::Error>
    requires { Taken (drafted draft.now) }
    ensures line { IfOk result (λ a. LineSays (titled (vec_items draft.now.name)) a.margins (string_bytes a.line)) }
    ensures passed { IfOk result (λ a. PassedIf (drafted draft.now) (is_some a.margins)) }
    ensures margins { IfOk result (λ a. IfSome a.margins (AreSmallest (machine_of (drafted draft.now)))) }
{
    let mut room = [0; LONGEST_PATH];
    let circuit = taken(draft);
    let verdict = signoff::verdict_on(circuit, &mut room);
    let room = &room;
    let word = match verdict {
        Verdict::Passed => {
            let smallest = slack::smallest(circuit);
            let line = wording::line(heap, &draft.name, Word::Passed(smallest))?;
            let margins = Some(smallest);
            return Ok(Said { line, margins });
        }
        Verdict::TooLate(miss) => Word::TooLate(Missed { miss, room }),
        Verdict::TooEarly(miss) => Word::TooEarly(Missed { miss, room }),
    };
    Ok(Said {
        line: wording::line(heap, &draft.name, word)?,
        margins: None,
    })
}

/// What is said of a circuit that was read: that it is passed, with its smallest margins, or what stands in its way.
pub fn answer(heap: Global, listing: &Listing) -> Result<Said, fmt::Error>
    ensures line { IfOk result (λ a. LineSays (titled (vec_items listing.now.draft.name)) a.margins (string_bytes a.line)) }
    ensures passed { IfOk result (λ a. PassedIf (drafted listing.now.draft) (is_some a.margins)) }
    ensures margins { IfOk result (λ a. IfSome a.margins (AreSmallest (machine_of (drafted listing.now.draft)))) }
{
    let draft = &listing.draft;
    match refused(listing) {
        None => judge(heap, draft),
        Some(refused) => Ok(Said {
            line: turned_away(heap, &draft.name, refused)?,
            margins: None,
        }),
    }
}

/// The line on which a circuit of this name is turned away.
pub fn turned_away(heap: Global, name: &[u8], refused: Refused) -> Result<String, fmt::Error>
    ensures { IfOk result (λ line. StandsBehind (titled name.now) (codes "turned away by ") (string_bytes line)) }
{
    wording::line(heap, name, Word::TurnedAway(refused))
}

/// What is said of a circuit's shortest period, and of the frequency that it allows.
pub fn period(heap: Global, listing: &Listing) -> Result<Paced, fmt::Error>
    ensures line { IfOk result (λ a. PeriodLine (titled (vec_items listing.now.draft.name)) a.period (string_bytes a.line)) }
    ensures period { IfOk result (λ a. PeriodIf (drafted listing.now.draft) a.period) }
{
    let name = &listing.draft.name;
    if let Some(refused) = refused(listing) {
        return Ok(Paced {
            line: turned_away(heap, name, refused)?,
            period: None,
        });
    }
    let shortest = slack::shortest_period(taken(&listing.draft));
    let line = wording::line(heap, name, Word::Shortest(shortest))?;
    let period = Some(shortest);
    Ok(Paced { line, period })
}

/// The line on a circuit's smallest setup margin as a part of its period.
pub fn ratio(heap: Global, listing: &Listing) -> Result<Rated, fmt::Error>
    ensures away { IfOk result (λ a. TurnedAwayIf (drafted listing.now.draft) a.turned_away) }
    ensures line { IfOk result (λ a. RatioLine (titled (vec_items listing.now.draft.name))
        (machine_of (drafted listing.now.draft)) a.turned_away (string_bytes a.line)) }
{
    let name = &listing.draft.name;
    if let Some(refused) = refused(listing) {
        return Ok(Rated {
            line: turned_away(heap, name, refused)?,
            turned_away: true,
        });
    }
    let words = near::in_words(heap, near::setup_ratio(taken(&listing.draft)))?;
    Ok(Rated {
        line: wording::line(heap, name, Word::Ratio(&words))?,
        turned_away: false,
    })
}
