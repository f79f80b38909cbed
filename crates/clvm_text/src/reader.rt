//! What a token of a text leads to, with the lists that are open.

ghost use Rattle.std.specs.Prelude.{◌≡◌, ◌+◌, ◌<◌, ◌≤◌, ◌^◌, length, IfOk, IfErr};
ghost use Rattle.clvm_spec.specs.Tokens.{Closing};
ghost use Rattle.clvm_tree.specs.Nodes.{Grows};
ghost use Rattle.text_tokens.specs.Meanings.{meant};
ghost use Rattle.open_lists.specs.Held.{last_held, forms_held, held};
ghost use Rattle.clvm_text.specs.Forms.{formed, IsKnownForm, AreKnownForms};
ghost use Rattle.clvm_text.specs.Parsing.{IsLastOf, IsWholeOf, Leads, Stops};

use crate::form::{Form, Meant};
use clvm_tree::{OutOfMemory, Trees};
use open_lists::{Fault, OpenList, OpenLists, Reach};
use small_lists::ByteList;
use std::alloc::Global;
use text_tokens::Token;

/// The lists of a text that are open. A place is the text from there on.
pub(crate) type Lists<'a> = OpenLists<Form<'a>, &'a [u8]>;

// What stands behind the last element: the form behind the dot, or nil.
fn last_form<'a>(trees: &Trees, reach: Reach<Form<'a>, &'a [u8]>) -> Form<'a>
    requires known { AreKnownForms trees.now (last_held reach) }
    ensures known { IsKnownForm trees.now result }
    ensures last { IsLastOf trees.now reach.entry result }
{
    match reach {
        Reach::Last(_, form) => form,
        Reach::Elements => Form::Tree(trees.nil()),
        Reach::Dot(_) => Form::Tree(trees.nil()),
    }
}

// The form of a list that ends.
fn whole<'a>(
    alloc: Global,
    trees: &mut Trees,
    list: OpenList<Form<'a>, &'a [u8]>,
) -> Result<Form<'a>, OutOfMemory>
    requires known { AreKnownForms trees.old (forms_held list) }
    requires fits { length trees.old + length list.forms.items < 2 ^ 31 }
    ensures grows { Grows trees.old trees.new }
    ensures few { length trees.new ≤ length trees.old + length list.entry.forms.items }
    ensures known { IfOk result (IsKnownForm trees.new) }
    ensures whole { IfOk result (IsWholeOf trees.old list.entry trees.new) }
{
    let OpenList {
        place: _,
        mut forms,
        reach,
    } = list;
    let mut rest = last_form(trees, reach);
    'elements: while let Some(first) = forms.pop() {
        rest = Form::pair(alloc, trees, first, rest)?;
    }
    Ok(rest)
}

// A `)` ends the innermost list, which is the next form of the one around it.
fn close<'a>(
    alloc: Global,
    trees: &mut Trees,
    lists: &mut Lists<'a>,
    from: &'a [u8],
) -> Result<Option<Form<'a>>, Fault<&'a [u8]>>
    requires known { AreKnownForms trees.old (held lists.old.lists.items) }
    requires fits { length trees.old + length (held lists.old.lists.items) + 1 < 2 ^ 31 }
    ensures grows { Grows trees.old trees.new }
    ensures leads { IfOk result (Leads Closing from.now trees.old lists.old.lists.items trees.new lists.new.lists.items) }
    ensures stops { IfErr result (Stops Closing from.now trees.old lists.old.lists.items trees.new) }
{
    let list = lists.close::<Meant, ByteList>(from)?;
    let form = whole(alloc, trees, list)?;
    lists.put::<Meant, ByteList>(form, from)
}

/// What the token at the front of this text leads to: to a form that stands in no list, or on.
pub(crate) fn step<'a>(
    alloc: Global,
    trees: &mut Trees,
    lists: &mut Lists<'a>,
    token: Token<'a>,
    from: &'a [u8],
) -> Result<Option<Form<'a>>, Fault<&'a [u8]>>
    requires known { AreKnownForms trees.old (held lists.old.lists.items) }
    requires fits { length trees.old + length (held lists.old.lists.items) + 1 < 2 ^ 31 }
    ensures grows { Grows trees.old trees.new }
    ensures leads { IfOk result (Leads (meant token.entry) from.now trees.old lists.old.lists.items trees.new lists.new.lists.items) }
    ensures stops { IfErr result (Stops (meant token.entry) from.now trees.old lists.old.lists.items trees.new) }
{
    match token {
        Token::Opening => {
            lists.open::<Meant, ByteList>(alloc, from)?;
            Ok(None)
        }
        Token::Closing => close(alloc, trees, lists, from),
        Token::Point => {
            lists.point::<Meant, ByteList>(from)?;
            Ok(None)
        }
        Token::Literal(literal) => {
            let form = Form::literal(alloc, trees, literal)?;
            lists.put::<Meant, ByteList>(form, from)
        }
        Token::Symbol(name) => {
            let form = Form::symbol(alloc, trees, name, from)?;
            lists.put::<Meant, ByteList>(form, from)
        }
    }
}
