//! Trees of parameters.

ghost use Rattle.std.specs.Prelude.{◌≡◌, IfOk};
ghost use Rattle.lisp_read.specs.Views.{form_of};
ghost use Rattle.lisp_spec.specs.Parameters.{is_parameter_tree as is_tree};
ghost use Rattle.lisp_spec.specs.Inclusion.{params_fault};
ghost use Rattle.lisp_parts.specs.Faults.{twice_at};

use crate::names::Names;
use crate::{OutOfMemory, Place};
use lisp_read::Form;
use std::alloc::Global;

/// Whether a form is a tree of parameters.
pub(crate) fn is_parameter_tree(alloc: Global, form: &Form) -> Result<bool, OutOfMemory>
    ensures { IfOk result (λ is. is ≡ is_tree (form_of form.now)) }
{
    let mut left = Vec::new(alloc);
    left.push(form)?;
    'left: while let Some(part) = left.pop() {
        match part {
            Form::Atom(_, bytes) => {
                if !bytes.as_slice().is_empty() {
                    return Ok(false);
                }
            }
            Form::Symbol(_, _) => {}
            Form::Pair(_, first, rest) => {
                left.push(rest.get())?;
                left.push(first.get())?;
            }
        }
    }
    Ok(true)
}

/// The place at which a name of this tree stands a second time, the first such place of the text.
pub(crate) fn repeated(alloc: Global, params: &Form) -> Result<Option<Place>, OutOfMemory>
    ensures { IfOk result (λ place. twice_at place ≡ params_fault (form_of params.now)) }
{
    let mut names = Names::new(alloc);
    let mut left = Vec::new(alloc);
    left.push(params)?;
    'left: while let Some(part) = left.pop() {
        match part {
            Form::Atom(_, _) => {}
            Form::Symbol(place, name) => {
                if !names.add(name.copy(alloc)?)? {
                    return Ok(Some(*place));
                }
            }
            Form::Pair(_, first, rest) => {
                left.push(rest.get())?;
                left.push(first.get())?;
            }
        }
    }
    Ok(None)
}
