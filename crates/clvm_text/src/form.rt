//! The forms of a text: trees, made of what is read.

ghost use Rattle.std.specs.Prelude.{◌≡◌, ◌+◌, ◌<◌, ◌^◌, length, IfOk, OnErr};
ghost use Rattle.clvm_spec.specs.Tree.{Atom};
ghost use Rattle.clvm_spec.specs.Text.{Names, paired, clvm};
ghost use Rattle.clvm_tree.specs.Nodes.{Adds};
ghost use Rattle.text_tokens.specs.Meanings.{literal_bytes};
ghost use Rattle.clvm_text.specs.Forms.{formed, unknown_of, IsKnownForm, Makes};

use case_table::symbol_code;
use clvm_tree::{Node, OutOfMemory, Trees};
use open_lists::TextForm;
use std::alloc::Global;
use std::marker::Model;
use text_tokens::Literal;

/// A form: its tree, or the text from its first symbol on that is no operator's name.
#[derive(Clone, Copy)]
pub(crate) enum Form<'a> {
    Tree(Node),
    Unknown(&'a [u8]),
}

/// The name of what a form stands for in clauses, where a type has to say it. No value of it is made.
pub(crate) struct Meant {
    _node: Node,
}

impl Model for Meant {
    ghost use Rattle.clvm_spec.specs.Text.{Named};
    ghost use Rattle.clvm_text.specs.Codes.{named_code, nothing};

    ghost Value = { Named };

    ghost coded = { named_code };

    ghost view = { λ _. nothing };
}

impl<'a> TextForm<&'a [u8]> for Form<'a> {
    ghost unknown = { unknown_of };

    fn unknown(&self) -> Option<&'a [u8]> {
        match self {
            Form::Tree(_) => None,
            Form::Unknown(from) => Some(*from),
        }
    }
}

fn put_literal(alloc: Global, trees: &mut Trees, literal: Literal<'_>) -> Result<Node, OutOfMemory>
    requires fits { length trees.old + 1 < 2 ^ 31 }
    ensures ok { IfOk result (λ node. Adds trees.old trees.new node.0 (Atom (literal_bytes literal.entry))) }
    ensures out_of_memory { OnErr result (trees.new ≡ trees.old) }
{
    match literal {
        Literal::Number(number) => trees.put_number(alloc, number),
        Literal::Hex(digits) => {
            let bytes = digits.bytes(alloc)?;
            trees.atom(alloc, bytes.as_slice())
        }
        Literal::Text(bytes) => trees.atom(alloc, bytes),
    }
}

impl<'a> Form<'a> {
    /// The atom of a literal.
    pub(crate) fn literal(
        alloc: Global,
        trees: &mut Trees,
        literal: Literal<'_>,
    ) -> Result<Form<'a>, OutOfMemory>
        requires fits { length trees.old + 1 < 2 ^ 31 }
        ensures made { IfOk result (λ form. Makes trees.old trees.new form (Names (Atom (literal_bytes literal.entry)))) }
        ensures out_of_memory { OnErr result (trees.new ≡ trees.old) }
    {
        Ok(Form::Tree(put_literal(alloc, trees, literal)?))
    }

    /// An operator's name is its code. The text from the symbol on is what remains of every other.
    pub(crate) fn symbol(
        alloc: Global,
        trees: &mut Trees,
        name: &[u8],
        from: &'a [u8],
    ) -> Result<Form<'a>, OutOfMemory>
        requires fits { length trees.old + 1 < 2 ^ 31 }
        ensures made { IfOk result (λ form. Makes trees.old trees.new form (clvm.symbol from.now name.now)) }
        ensures out_of_memory { OnErr result (trees.new ≡ trees.old) }
    {
        match symbol_code(name) {
            Some(code) => Ok(Form::Tree(trees.atom(alloc, &[code])?)),
            None => Ok(Form::Unknown(from)),
        }
    }

    /// An element and what follows it.
    pub(crate) fn pair(
        alloc: Global,
        trees: &mut Trees,
        first: Form<'a>,
        rest: Form<'a>,
    ) -> Result<Form<'a>, OutOfMemory>
        requires first_known { IsKnownForm trees.old first }
        requires rest_known { IsKnownForm trees.old rest }
        requires fits { length trees.old + 1 < 2 ^ 31 }
        ensures made { IfOk result (λ form. Makes trees.old trees.new form (paired (formed trees.old first.entry) (formed trees.old rest.entry))) }
        ensures out_of_memory { OnErr result (trees.new ≡ trees.old) }
    {
        match (first, rest) {
            (Form::Tree(first), Form::Tree(rest)) => Ok(Form::Tree(trees.pair(
                alloc, first, rest,
            )?)),
            (Form::Tree(_), Form::Unknown(_)) => Ok(rest),
            (Form::Unknown(_), _) => Ok(first),
        }
    }
}
