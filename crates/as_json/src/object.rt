// A JSON object that is built key by key.
ghost use Rattle.std.specs.Prelude.{ℕ, ◌≤◌, IfOk, IsSome, string_bytes};
ghost use Rattle.serde_json.specs.Data.{depth, members_depth};
ghost use Rattle.serde_json.specs.Read.{read};
ghost use Rattle.serde_json.specs.View.{view, members_view};

use serde_json::{Map, Value};
use std::alloc::{AllocError, Global};

// Its members nest no deeper than three levels, so that what is written can be read.
#[derive(Drop)]
pub(crate) struct Object {
    heap: Global,
    map: Map<String, Value>,
    ghost shallow: { members_depth (members_view map.entries) ≤ 3 },
}

// What an object's members say of it: they nest no deeper than the member that is put and those before.
impl Object {
    pub(crate) fn new(heap: Global) -> Object
        ensures { members_depth (members_view result.map.entries) ≤ 0 }
    {
        Object {
            heap,
            map: Map::new(heap),
        }
    }

    pub(crate) fn put(&mut self, key: &str, value: Value) -> Result<(), AllocError>
        requires { depth (view value) ≤ 3 }
        ensures { (n : ℕ) → depth (view value) ≤ n → members_depth (members_view self.old.map.entries) ≤ n
            → members_depth (members_view self.new.map.entries) ≤ n }
    {
        serde_json::put(&mut self.map, self.heap, key, value)
    }

    pub(crate) fn put_number(&mut self, key: &str, number: u64) -> Result<(), AllocError>
        ensures { (n : ℕ) → members_depth (members_view self.old.map.entries) ≤ n
            → members_depth (members_view self.new.map.entries) ≤ n }
    {
        self.put(key, Value::from(number))
    }

    pub(crate) fn put_margin(&mut self, key: &str, margin: i64) -> Result<(), AllocError>
        ensures { (n : ℕ) → members_depth (members_view self.old.map.entries) ≤ n
            → members_depth (members_view self.new.map.entries) ≤ n }
    {
        self.put(key, Value::from(margin))
    }

    pub(crate) fn put_text(&mut self, key: &str, text: &str) -> Result<(), AllocError> {
        let text = String::from_str(self.heap, text)?;
        self.put(key, Value::from(text))
    }

    // The object as a value, which nests one level deeper than its members.
    pub(crate) fn into_value(self) -> Value
        ensures flat { members_depth (members_view self.map.entries) ≤ 0 → depth (view result) ≤ 1 }
        ensures nested { members_depth (members_view self.map.entries) ≤ 1 → depth (view result) ≤ 2 }
    {
        Value::from(self.map)
    }

    // The object as one line, without its end.
    pub(crate) fn line(self) -> Result<String, AllocError>
        ensures { IfOk result (λ line. IsSome (read (string_bytes line))) }
    {
        Value::from(self.map).to_string(self.heap)
    }
}

// The signals of a path of so many numbers, with which the room begins: a source, then of each gate its signal and the
// input that the path comes in by.
pub(crate) fn signals(heap: Global, room: &[u32], length: usize) -> Result<Value, AllocError>
    ensures { IfOk result (λ v. depth (view v) ≤ 1) }
{
    let mut signals = Vec::new(heap);
    for (i, number) in room.iter().take(length).enumerate() {
        if i == 0 || i % 2 == 1 {
            serde_json::push(&mut signals, Value::from(*number))?;
        }
    }
    Ok(Value::from(signals))
}
