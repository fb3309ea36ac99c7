// The worst paths of a circuit, as a list.
ghost use Rattle.std.specs.Prelude.{◌≤◌, IfOk};
ghost use Rattle.serde_json.specs.Data.{depth};
ghost use Rattle.serde_json.specs.View.{view};

use crate::object::Object;
use circuit::Circuit;
use serde_json::Value;
use std::alloc::{AllocError, Global};
use worst_paths::TimingPath;

// The signals of a path, from its source to its end.
fn signals_of(heap: Global, circuit: Circuit<'_>, path: &TimingPath) -> Result<Value, AllocError>
    ensures { IfOk result (λ v. depth (view v) ≤ 1) }
{
    let mut signals = Vec::new(heap);
    serde_json::push(&mut signals, Value::from(path.source as u64))?;
    for pin in path.pins.iter() {
        let signal = circuit.register_count().saturating_add(pin.gate);
        serde_json::push(&mut signals, Value::from(signal as u64))?;
    }
    Ok(Value::from(signals))
}

// A path: where it ends, its times, and its signals.
fn path_of(heap: Global, circuit: Circuit<'_>, path: &TimingPath) -> Result<Value, AllocError>
    ensures { IfOk result (λ v. depth (view v) ≤ 2) }
{
    let mut object = Object::new(heap);
    object.put_number("register", path.register as u64)?;
    object.put_margin("slack", path.slack)?;
    object.put_number("arrival", path.arrival)?;
    object.put_margin("required", path.required)?;
    object.put("path", signals_of(heap, circuit, path)?)?;
    Ok(object.into_value())
}

// The paths, in the order in which they are listed.
pub(crate) fn paths_of(
    heap: Global,
    circuit: Circuit<'_>,
    paths: &[TimingPath],
) -> Result<Value, AllocError>
    ensures { IfOk result (λ v. depth (view v) ≤ 3) }
{
    let mut list = Vec::new(heap);
    for path in paths.iter() {
        serde_json::push(&mut list, path_of(heap, circuit, path)?)?;
    }
    Ok(Value::from(list))
}
