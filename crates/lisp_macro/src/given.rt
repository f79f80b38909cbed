//! What a call of a macro gives.

ghost use Rattle.std.specs.Prelude.{◌≡◌, ℕ, ◌<◌, ◌≤◌, List, IfOk, IfErr, OnOk, MatchResult};
ghost use Rattle.lisp_read.specs.Views.{form_of};
ghost use Rattle.lisp_spec.specs.MacroBodies.{BodyValue};
ghost use Rattle.lisp_spec.specs.Expansion.{Expands, within_limits, limited, call_given};
ghost use Rattle.lisp_macro.specs.Defined.{macro_with};
ghost use Rattle.lisp_macro.specs.Evaluations.{IsStop};
ghost use Rattle.lisp_macro.specs.Faults.{IsMacroFault};

use crate::MacroFault;
use crate::call::Call;
use crate::fault::Stop;
use crate::macros::Definition;
use crate::value::Value;
use bumpalo::Bump;
use lisp_read::{Form, Place, copy};
use std::alloc::Global;

// The fault of a call at this place whose body stops so.
fn fault_at(stop: Stop, place: Place) -> MacroFault
    ensures { (value : BodyValue) (left : ℕ) → IsStop value left stop → IsMacroFault (limited place value) left result }
{
    match stop {
        Stop::TurnsSpent => MacroFault::TurnsSpent(place),
        Stop::BadMacro => MacroFault::BadMacro(place),
        Stop::OutOfMemory => MacroFault::OutOfMemory,
    }
}

// What a body gives is neither too deep nor too heavy, and depth comes before weight.
fn within_limits<'a>(alloc: Global, place: Place, value: &'a Value<'a>) -> Result<Form, MacroFault>
    ensures { MatchResult result (λ form. (left : ℕ) → within_limits place value.now left ≡ Expands (form_of form) left)
        (λ fault. (left : ℕ) → IsMacroFault (within_limits place value.now left) left fault) }
{
    if value.is_too_deep() {
        return Err(MacroFault::BadMacro(place));
    }
    if value.is_too_heavy() {
        return Err(MacroFault::TooLarge(place));
    }
    Ok(copy(alloc, alloc, value)?)
}

/// What a call gives takes a turn of its own and those of the body. Its faults stand at the place.
pub(crate) fn call_given(
    alloc: Global,
    definition: &Definition,
    operands: &Form,
    place: Place,
    turns: &mut u32,
) -> Result<Form, MacroFault>
    ensures given { IfOk result (λ form. (name : List ℕ) → call_given (macro_with name definition.now) (form_of operands.now) place turns.old ≡ Expands (form_of form) turns.new) }
    ensures fewer { OnOk result (turns.new < turns.old) }
    ensures fault { IfErr result (λ fault. (name : List ℕ) → IsMacroFault (call_given (macro_with name definition.now) (form_of operands.now) place turns.old) turns.new fault) }
{
    if *turns == 0 {
        return Err(MacroFault::TurnsSpent(place));
    }
    *turns -= 1;
    let bump = Bump::new(alloc);
    let operands = copy(alloc, &bump, operands)?;
    let call = Call {
        alloc,
        bump: &bump,
        params: &definition.params,
        operands,
        place,
    };
    match call.evaluate_body(&definition.body, turns) {
        Ok(value) => within_limits(alloc, place, value),
        Err(stop) => Err(fault_at(stop, place)),
    }
}
