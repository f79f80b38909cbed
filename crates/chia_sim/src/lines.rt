//! The lines of an input, each one JSON object.
ghost use Rattle.std.specs.Prelude.{◌≡◌, map};
ghost use Rattle.serde_json.specs.View.{view};
ghost use Rattle.session_spec.specs.Steps.{all_of};
ghost use Rattle.session_spec.specs.Lines.{lines, object_of};
ghost use Rattle.chia_sim.specs.Reads.{ReadsAs};

use crate::form::FormFault;
use bstr::ByteSlice;
use serde_json::Value;
use std::alloc::Global;

// What a line says.
fn object(alloc: Global, line: &[u8]) -> Result<Value, FormFault>
    ensures { ReadsAs view (object_of line.now) result }
{
    match Value::from_slice(alloc, line) {
        Ok(value) => {
            if value.is_object() {
                Ok(value)
            } else {
                Err(FormFault::Unbuilt)
            }
        }
        Err(error) if error.is_memory() => Err(FormFault::OutOfMemory),
        Err(_) => Err(FormFault::Unbuilt),
    }
}

/// What the lines of an input say.
pub(crate) fn objects(alloc: Global, input: &[u8]) -> Result<Vec<Value>, FormFault>
    ensures { ReadsAs (λ objects. map view objects.items) (all_of object_of (lines input.now)) result }
{
    let mut objects = Vec::new(alloc);
    for line in input.lines() {
        let object = object(alloc, line)?;
        objects.push(object)?;
    }
    Ok(objects)
}
