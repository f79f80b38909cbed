//! The heads of expressions of a body, and the operators on forms among them.

ghost use Rattle.std.specs.Prelude.{◌≡◌, Some, option_map, bytes_eq, find, MatchResult, IfOk};
ghost use Rattle.lisp_read.specs.Views.{form_of};
ghost use Rattle.lisp_read.specs.FormLists.{form_elements};
ghost use Rattle.lisp_spec.specs.MacroBodies.{FormOperator, form_operators, body_head, flag};
ghost use Rattle.lisp_macro.specs.Values.{IsAstray};
ghost use Rattle.lisp_macro.specs.Operators.{row_of, head_of, head_at, suits, list_choice, list_applied};

use crate::fault::Stop;
use crate::value::Value;
use bumpalo::Bump;
use lisp_read::{Form, OutOfMemory, Place};

/// An operator on forms.
#[derive(Clone, Copy, Debug)]
pub(crate) enum Operator {
    First,
    Rest,
    Pair,
    IsPair,
    Choice,
    Same,
    List,
}

/// What a symbol is as the head of an expression of a body.
#[derive(Clone, Copy, Debug)]
pub(crate) enum Head {
    /// What follows the head is the value.
    Quotation,
    /// Its one operand is a template.
    TemplateOf,
    /// One of two expressions is evaluated.
    Branches,
    Operation(Operator),
    /// No body has another head.
    NoHead,
}

fn operator_named(name: &[u8]) -> Option<Operator>
    ensures { option_map row_of result ≡ find (λ (row : FormOperator). bytes_eq row.name name.now) form_operators }
{
    match name {
        b"f" => Some(Operator::First),
        b"r" => Some(Operator::Rest),
        b"c" => Some(Operator::Pair),
        b"l" => Some(Operator::IsPair),
        b"i" => Some(Operator::Choice),
        b"=" => Some(Operator::Same),
        b"list" => Some(Operator::List),
        _ => None,
    }
}

// What this symbol is as a head.
#[tactic(auto, unfolding(lisp_spec::specs::MacroBodies::body_head))]
fn body_head(name: &[u8]) -> Head
    ensures { head_of result ≡ body_head name.now }
{
    match name {
        b"q" => Head::Quotation,
        b"qq" => Head::TemplateOf,
        b"if" => Head::Branches,
        _ => match operator_named(name) {
            Some(operator) => Head::Operation(operator),
            None => Head::NoHead,
        },
    }
}

/// What a form is as a head: no body has one that isn't a symbol.
pub(crate) fn head_at(form: &Form) -> Head
    ensures { head_of result ≡ head_at (form_of form.now) }
{
    match form {
        Form::Symbol(_, name) => body_head(name.as_slice()),
        _ => Head::NoHead,
    }
}

// 1 for what holds, else the empty atom.
fn flag<'a>(bump: &'a Bump, place: Place, holds: bool) -> Result<&'a Value<'a>, OutOfMemory>
    ensures { IfOk result (λ value. value.now ≡ flag place holds) }
{
    if holds {
        Value::atom(bump, place, b"\x01")
    } else {
        Value::atom(bump, place, b"")
    }
}

impl Operator {
    /// Whether a form is a proper list of as many operands as the operator takes.
    pub(crate) fn suits(self, operands: &Form) -> bool
        ensures { result ≡ suits (row_of self).count (form_elements (form_of operands.now)) }
    {
        match self {
            Operator::First | Operator::Rest | Operator::IsPair => operands.is_list_of(1),
            Operator::Pair | Operator::Same => operands.is_list_of(2),
            Operator::Choice => operands.is_list_of(3),
            Operator::List => operands.is_list(),
        }
    }

    /// What the operator gives for the list of its operands' values. What it makes has this place.
    pub(crate) fn applied<'a>(
        self,
        bump: &'a Bump,
        place: Place,
        operands: &'a Value<'a>,
    ) -> Result<&'a Value<'a>, Stop>
        ensures { MatchResult result (λ value. list_applied self place operands.now ≡ Some value.now) (IsAstray (list_applied self place operands.now)) }
    {
        match self {
            Operator::First => operands.first()?.first(),
            Operator::Rest => operands.first()?.rest(),
            Operator::Pair => {
                let first = operands.first()?;
                let rest = operands.rest()?.first()?;
                Ok(Value::pair(bump, place, first, rest)?)
            }
            Operator::IsPair => Ok(flag(bump, place, operands.first()?.is_pair())?),
            Operator::Choice => choice(operands),
            Operator::Same => {
                let first = operands.first()?;
                let second = operands.rest()?.first()?;
                Ok(flag(bump, place, first.is_same(second))?)
            }
            Operator::List => Ok(operands),
        }
    }
}

// The second operand, or the third where the first is the empty atom.
fn choice<'a>(operands: &'a Value<'a>) -> Result<&'a Value<'a>, Stop>
    ensures { MatchResult result (λ value. list_choice operands.now ≡ Some value.now) (IsAstray (list_choice operands.now)) }
{
    let condition = operands.first()?;
    let behind = operands.rest()?;
    let second = behind.first()?;
    let third = behind.rest()?.first()?;
    if condition.is_empty() {
        Ok(third)
    } else {
        Ok(second)
    }
}
