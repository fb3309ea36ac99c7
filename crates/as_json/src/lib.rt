// What is said of a circuit as one line of JSON.
#![tactic(auto)]

ghost use Rattle.std.specs.Prelude.{◌≤◌, IfOk, IsSome, string_bytes};
ghost use Rattle.serde_json.specs.Data.{depth, members_depth};
ghost use Rattle.serde_json.specs.Read.{read};
ghost use Rattle.serde_json.specs.View.{view, members_view};

use answer::{Refused, TurnedAway, Why};
use circuit::Circuit;
use object::Object;
use serde_json::Value;
use signoff::{LONGEST_PATH, Miss, Verdict};
use slack::Smallest;
use std::alloc::{AllocError, Global};
use worst_paths::TimingPath;

mod object;
mod worst;

// Where a circuit stands: its file, its name, empty where it has none, and the line where it begins.
#[derive(Clone, Copy)]
pub struct Place<'a> {
    pub file: &'a str,
    pub name: &'a [u8],
    pub line: usize,
}

impl Place<'_> {
    // Puts the place into an object.
    fn put_into(self, object: &mut Object, heap: Global) -> Result<(), AllocError> {
        object.put_text("file", self.file)?;
        object.put_number("line", self.line as u64)?;
        if self.name.is_empty() {
            return Ok(());
        }
        object.put("name", Value::from(text_of(heap, self.name)?))
    }
}

// The text of a name, whose bytes are ASCII.
fn text_of(heap: Global, name: &[u8]) -> Result<String, AllocError> {
    let mut text = String::new(heap);
    for b in name {
        text.push(*b as char)?;
    }
    Ok(text)
}

// The reason for a refusal, in words.
fn reason_of(heap: Global, why: Why) -> Result<Value, AllocError>
    ensures { IfOk result (λ v. depth (view v) ≤ 0) }
{
    let reason = format!(in heap; "{why}")?;
    Ok(Value::from(reason))
}

// Puts a refusal into an object: its number, its place, the reason in words, and the line that it is about.
fn put_refusal(object: &mut Object, heap: Global, refused: Refused) -> Result<(), AllocError>
    ensures { members_depth (members_view object.old.map.entries) ≤ 0 → members_depth (members_view object.new.map.entries) ≤ 0 }
{
    let TurnedAway { refusal, why } = refused.what;
    object.put_number("number", u64::from(refusal.number()))?;
    object.put_number("place", refusal.place() as u64)?;
    object.put_number("line", refused.line as u64)?;
    object.put("reason", reason_of(heap, why)?)
}

// A refusal as an object.
fn refusal_of(heap: Global, refused: Refused) -> Result<Value, AllocError>
    ensures { IfOk result (λ v. depth (view v) ≤ 1) }
{
    let mut object = Object::new(heap);
    put_refusal(&mut object, heap, refused)?;
    Ok(object.into_value())
}

// The smallest margins as an object.
fn margin_of(heap: Global, smallest: Smallest) -> Result<Value, AllocError>
    ensures { IfOk result (λ v. depth (view v) ≤ 1) }
{
    let mut object = Object::new(heap);
    object.put_margin("setup", smallest.setup.margin)?;
    object.put_margin("hold", smallest.hold.margin)?;
    Ok(object.into_value())
}

// Puts a word on a register that misses its time into an object, with the register, its path and both sums.
fn put_miss(
    object: &mut Object,
    heap: Global,
    word: &str,
    miss: Miss,
    room: &[u32],
) -> Result<(), AllocError> {
    object.put_text("word", word)?;
    object.put_number("register", miss.register as u64)?;
    object.put_number("arrival", miss.arrival)?;
    object.put_number("limit", miss.limit)?;
    object.put("path", object::signals(heap, room, miss.path)?)
}

// Puts the verdict on a circuit into an object.
fn put_verdict(object: &mut Object, heap: Global, circuit: Circuit<'_>) -> Result<(), AllocError> {
    let mut room = [0; LONGEST_PATH];
    match signoff::verdict_on(circuit, &mut room) {
        Verdict::Passed => object.put_text("word", "passed"),
        Verdict::TooLate(miss) => put_miss(object, heap, "too late", miss, &room),
        Verdict::TooEarly(miss) => put_miss(object, heap, "too early", miss, &room),
    }
}

// A ratio as a number.
fn ratio_of(ratio: f64) -> Value
    ensures { depth (view result) ≤ 0 }
{
    Value::from(ratio)
}

// Puts a circuit's smallest setup margin as a part of its period into an object, where it has a period.
fn put_ratio(object: &mut Object, circuit: Circuit<'_>) -> Result<(), AllocError> {
    match near::setup_ratio(circuit) {
        Some(ratio) => object.put("near", ratio_of(ratio)),
        None => Ok(()),
    }
}

// Puts a circuit's margins and its shortest period into an object.
fn put_margins(object: &mut Object, heap: Global, circuit: Circuit<'_>) -> Result<(), AllocError> {
    object.put("margin", margin_of(heap, slack::smallest(circuit))?)?;
    object.put_number("shortest_period", slack::shortest_period(circuit))
}

// Puts into an object that a circuit is turned away, and why.
fn put_turned_away(object: &mut Object, heap: Global, refused: Refused) -> Result<(), AllocError> {
    object.put_text("word", "turned away")?;
    object.put("refusal", refusal_of(heap, refused)?)
}

/// The line on a circuit that is turned away, without its end: JSON.
pub fn turned_away(heap: Global, place: Place<'_>, refused: Refused) -> Result<String, AllocError>
    ensures { IfOk result (λ line. IsSome (read (string_bytes line))) }
{
    let mut object = Object::new(heap);
    place.put_into(&mut object, heap)?;
    put_turned_away(&mut object, heap, refused)?;
    object.line()
}

// All that is found of a circuit, as an object.
fn judged_object(
    heap: Global,
    place: Place<'_>,
    circuit: Circuit<'_>,
) -> Result<Object, AllocError> {
    let mut object = Object::new(heap);
    place.put_into(&mut object, heap)?;
    put_verdict(&mut object, heap, circuit)?;
    put_margins(&mut object, heap, circuit)?;
    put_ratio(&mut object, circuit)?;
    Ok(object)
}

/// The line on a circuit that is not turned away, without its end: JSON.
pub fn judged(heap: Global, place: Place<'_>, circuit: Circuit<'_>) -> Result<String, AllocError>
    ensures { IfOk result (λ line. IsSome (read (string_bytes line))) }
{
    judged_object(heap, place, circuit)?.line()
}

/// The line on a circuit that is not turned away, with some of its worst paths, without its end: JSON.
pub fn judged_with_worst(
    heap: Global,
    place: Place<'_>,
    circuit: Circuit<'_>,
    paths: &[TimingPath],
) -> Result<String, AllocError>
    ensures { IfOk result (λ line. IsSome (read (string_bytes line))) }
{
    let mut object = judged_object(heap, place, circuit)?;
    object.put("worst", worst::paths_of(heap, circuit, paths)?)?;
    object.line()
}
