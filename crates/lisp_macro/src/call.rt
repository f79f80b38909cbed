//! A call of a macro: its parameters, and what they stand for.

ghost use Rattle.std.specs.Prelude.{◌≡◌, Some, option_map, option_and_then, IfOk, MatchResult};
ghost use Rattle.lisp_read.specs.Forms.{Symbol};
ghost use Rattle.lisp_read.specs.Views.{form_of};
ghost use Rattle.lisp_spec.specs.Parameters.{path_of};
ghost use Rattle.lisp_spec.specs.MacroBodies.{parameter_or};
ghost use Rattle.lisp_macro.specs.Values.{first_part, rest_part, IsAstray};
ghost use Rattle.lisp_macro.specs.Bindings.{named_in, part_of};
ghost use Rattle.lisp_macro.specs.Found.{found_of};

use crate::fault::Stop;
use crate::value::{Node, Value};
use bumpalo::Bump;
use lisp_read::{Form, OutOfMemory, Place};
use std::alloc::Global;

/// What a body is evaluated for. Its values are in the arena. What the operators make has the place.
#[derive(Drop)]
pub(crate) struct Call<'a> {
    pub(crate) alloc: Global,
    pub(crate) bump: &'a Bump,
    pub(crate) params: &'a Form,
    pub(crate) operands: &'a Value<'a>,
    pub(crate) place: Place,
}

/// What a name is among the parameters.
#[derive(Clone, Copy)]
enum Found<'a> {
    /// The part of the operands at the parameter's path.
    At(&'a Value<'a>),
    /// The path steps into what is no pair.
    Astray,
    NoParameter,
}

/// A part of the tree of parameters that is still to be looked through, with what stands there among the operands.
#[derive(Clone, Copy)]
struct Part<'a> {
    params: &'a Form,
    operand: Option<&'a Value<'a>>,
}

fn first_of<'a>(operand: Option<&'a Value<'a>>) -> Option<&'a Value<'a>>
    ensures { part_of result ≡ option_and_then first_part (part_of operand.entry) }
{
    match operand?.node() {
        Node::Pair(_, first, _) => Some(first),
        _ => None,
    }
}

fn rest_of<'a>(operand: Option<&'a Value<'a>>) -> Option<&'a Value<'a>>
    ensures { part_of result ≡ option_and_then rest_part (part_of operand.entry) }
{
    match operand?.node() {
        Node::Pair(_, _, rest) => Some(rest),
        _ => None,
    }
}

fn found_at<'a>(operand: Option<&'a Value<'a>>) -> Found<'a>
    ensures { found_of result ≡ Some (part_of operand.entry) }
{
    match operand {
        Some(operand) => Found::At(operand),
        None => Found::Astray,
    }
}

// The first parameter of this name, in the order of the text.
fn find_parameter<'a>(
    alloc: Global,
    params: &'a Form,
    operands: &'a Value<'a>,
    name: &[u8],
) -> Result<Found<'a>, OutOfMemory>
    ensures { IfOk result (λ found. found_of found ≡ named_in name.now (form_of params.now) (Some operands.now)) }
{
    let mut parts = Vec::new(alloc);
    parts.push(Part {
        params,
        operand: Some(operands),
    })?;
    'parts: while let Some(part) = parts.pop() {
        match part.params {
            Form::Atom(_, _) => {}
            Form::Symbol(_, other) => {
                if other.as_slice() == name {
                    return Ok(found_at(part.operand));
                }
            }
            Form::Pair(_, first, rest) => {
                parts.push(Part {
                    params: rest.get(),
                    operand: rest_of(part.operand),
                })?;
                parts.push(Part {
                    params: first.get(),
                    operand: first_of(part.operand),
                })?;
            }
        }
    }
    Ok(Found::NoParameter)
}

impl<'a> Call<'a> {
    /// What a symbol of the body stands for: a parameter for its form, another symbol for itself.
    pub(crate) fn symbol(&self, place: Place, name: &'a [u8]) -> Result<&'a Value<'a>, Stop>
        ensures { MatchResult result (λ value. parameter_or (Symbol place name.now) (path_of name.now (form_of self.now.params.now)) self.now.operands.now ≡ Some value.now)
            (IsAstray (parameter_or (Symbol place name.now) (path_of name.now (form_of self.now.params.now)) self.now.operands.now)) }
    {
        match find_parameter(self.alloc, self.params, self.operands, name)? {
            Found::At(value) => Ok(value),
            Found::Astray => Err(Stop::BadMacro),
            Found::NoParameter => Ok(Value::symbol(self.bump, place, name)?),
        }
    }
}
