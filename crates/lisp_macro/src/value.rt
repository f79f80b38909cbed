//! Forms while a body is evaluated: parts are shared, so that a form that doubles with each expression stays small.

ghost use Rattle.std.specs.Prelude.{◌≡◌, IfOk, Some, MatchResult, nat_lt};
ghost use Rattle.lisp_read.specs.Forms.{Atom, Symbol, Pair, is_pair};
ghost use Rattle.lisp_read.specs.FormLists.{is_empty};
ghost use Rattle.lisp_spec.specs.MacroBodies.{is_same};
ghost use Rattle.lisp_spec.specs.Macros.{nesting_limit};
ghost use Rattle.lisp_spec.specs.Expansion.{nesting};
ghost use Rattle.lisp_spec.specs.declared.limits.TheConstants.{MOST_WEIGHT};
ghost use Rattle.lisp_spec.specs.Weights.{form_weight, weight_limit};
ghost use Rattle.lisp_macro.specs.Values.{first_part, rest_part, IsAstray};
ghost use Rattle.lisp_macro.specs.Nodes.{node_form};
ghost use Rattle.std.specs.Prelude.{◌+◌, length, min};

use crate::fault::Stop;
use bumpalo::Bump;
use lisp_read::{OutOfMemory, Place};
use lisp_spec::limits::{MOST_NESTING, MOST_WEIGHT};
use std::cmp::{max, min};
use std::marker::Model;

/// One level of a value.
#[cycle(value)]
#[derive(Clone, Copy)]
pub(crate) enum Node<'a> {
    Atom(Place, &'a [u8]),
    Symbol(Place, &'a [u8]),
    Pair(Place, &'a Value<'a>, &'a Value<'a>),
}

/// A form of which parts are shared. Its nesting and its weight are known, each up to one more than its limit.
#[cycle(value)]
#[derive(Drop)]
pub(crate) struct Value<'a> {
    node: Node<'a>,
    nesting: u32,
    weight: u32,
}

impl<'a> Model for Value<'a> {
    ghost use Rattle.lisp_read.specs.Forms.{Form};
    ghost use Rattle.lisp_read.specs.Turns.{turns_to_drop};
    ghost use Rattle.lisp_read.specs.FormCode.{form_code};

    ghost Value = { Form };

    ghost coded = { form_code };

    ghost use Rattle.lisp_macro.specs.Nodes.{node_form, IsMeasured};

    ghost view = { λ v. node_form v.node };

    ghost invariant = { λ v. IsMeasured (node_form v.node) v.nesting v.weight };

    ghost size = { turns_to_drop };
}

// The weight of an atom or a symbol, up to one more than the limit.
fn leaf_weight(bytes: &[u8]) -> u32
    ensures { result ≡ min (1 + length bytes.now) (MOST_WEIGHT + 1) }
{
    min(bytes.len(), MOST_WEIGHT as usize) as u32 + 1
}

impl<'a> Value<'a> {
    pub(crate) fn atom(
        bump: &'a Bump,
        place: Place,
        bytes: &'a [u8],
    ) -> Result<&'a Value<'a>, OutOfMemory>
        ensures { IfOk result (λ value. value.now ≡ Atom place bytes.now) }
    {
        Ok(bump.try_alloc(Value {
            node: Node::Atom(place, bytes),
            nesting: 0,
            weight: leaf_weight(bytes),
        })?)
    }

    pub(crate) fn symbol(
        bump: &'a Bump,
        place: Place,
        name: &'a [u8],
    ) -> Result<&'a Value<'a>, OutOfMemory>
        ensures { IfOk result (λ value. value.now ≡ Symbol place name.now) }
    {
        Ok(bump.try_alloc(Value {
            node: Node::Symbol(place, name),
            nesting: 0,
            weight: leaf_weight(name),
        })?)
    }

    pub(crate) fn pair(
        bump: &'a Bump,
        place: Place,
        first: &'a Value<'a>,
        rest: &'a Value<'a>,
    ) -> Result<&'a Value<'a>, OutOfMemory>
        ensures { IfOk result (λ value. value.now ≡ Pair place first.now rest.now) }
    {
        let nesting = max(first.nesting + 1, rest.nesting);
        let weight = 1 + first.weight + rest.weight;
        Ok(bump.try_alloc(Value {
            node: Node::Pair(place, first, rest),
            nesting: min(nesting, MOST_NESTING + 1),
            weight: min(weight, MOST_WEIGHT + 1),
        })?)
    }

    pub(crate) fn node(&self) -> Node<'a>
        ensures { node_form result ≡ self.now }
    {
        self.node
    }

    /// The first of a pair. A step into what is no pair is a bad macro.
    pub(crate) fn first(&self) -> Result<&'a Value<'a>, Stop>
        ensures { MatchResult result (λ first. first_part self.now ≡ Some first.now) (IsAstray (first_part self.now)) }
    {
        match self.node {
            Node::Pair(_, first, _) => Ok(first),
            _ => Err(Stop::BadMacro),
        }
    }

    /// The rest of a pair, likewise.
    pub(crate) fn rest(&self) -> Result<&'a Value<'a>, Stop>
        ensures { MatchResult result (λ rest. rest_part self.now ≡ Some rest.now) (IsAstray (rest_part self.now)) }
    {
        match self.node {
            Node::Pair(_, _, rest) => Ok(rest),
            _ => Err(Stop::BadMacro),
        }
    }

    pub(crate) fn is_pair(&self) -> bool
        ensures { result ≡ is_pair self.now }
    {
        match self.node {
            Node::Pair(_, _, _) => true,
            _ => false,
        }
    }

    /// Whether it is the empty atom.
    pub(crate) fn is_empty(&self) -> bool
        ensures { result ≡ is_empty self.now }
    {
        match self.node {
            Node::Atom(_, bytes) => bytes.is_empty(),
            _ => false,
        }
    }

    /// Whether both are atoms with the same bytes, or the same symbol.
    pub(crate) fn is_same(&self, other: &Value<'_>) -> bool
        ensures { result ≡ is_same self.now other.now }
    {
        match (self.node, other.node) {
            (Node::Atom(_, bytes), Node::Atom(_, others)) => bytes == others,
            (Node::Symbol(_, name), Node::Symbol(_, other)) => name == other,
            _ => false,
        }
    }

    /// Whether more lists stand in one another than a result may have.
    pub(crate) fn is_too_deep(&self) -> bool
        ensures { result ≡ nat_lt nesting_limit (nesting self.now) }
    {
        self.nesting > MOST_NESTING
    }

    /// Whether it is over the limit of weights.
    pub(crate) fn is_too_heavy(&self) -> bool
        ensures { result ≡ nat_lt weight_limit (form_weight self.now) }
    {
        self.weight > MOST_WEIGHT
    }
}
