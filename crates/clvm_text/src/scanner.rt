//! Scanning: the one form of a text, or its first fault.

ghost use Rattle.std.specs.Prelude.{◌≡◌, ◌+◌, ◌*◌, ◌<◌, ◌≤◌, ◌^◌, length, IfOk, IfErr, OnOk};
ghost use Rattle.clvm_spec.specs.declared.limits.TheConstants.{MOST_SPELLED};
ghost use Rattle.clvm_spec.specs.Places.{place_of};
ghost use Rattle.clvm_spec.specs.Text.{Scans, scanned};
ghost use Rattle.clvm_tree.specs.Nodes.{tree_at, IsKnown, Grows};
ghost use Rattle.clvm_text.specs.Scans.{IsFormAt, IsFormFault, IsTextFault, answered};

use crate::TextFault;
use crate::form::{Form, Meant};
use crate::reader::{Lists, step};
use clvm_tree::{Node, Trees};
use open_lists::Fault;
use small_lists::ByteList;
use std::alloc::Global;
use text_tokens::{Front, ScanKind, first_token};

// The place of the end of a text.
fn place_of(text: &[u8], end: &[u8]) -> u32
    requires short { length text.now ≤ MOST_SPELLED }
    ensures { result ≡ place_of text.now end.now }
{
    text.len().saturating_sub(end.len()) as u32
}

// The answer to a fault of a text, with its place.
fn answered(text: &[u8], fault: Fault<&[u8]>) -> TextFault
    requires short { length text.now ≤ MOST_SPELLED }
    ensures { result ≡ answered text.now fault.entry }
{
    match fault {
        Fault::At(kind, from) => TextFault::Read(kind, place_of(text, from)),
        Fault::Unknown(from) => TextFault::Name(place_of(text, from)),
        Fault::OutOfMemory => TextFault::OutOfMemory,
    }
}

// The first form of a text, and the text behind it.
fn first_form<'a>(
    alloc: Global,
    trees: &mut Trees,
    text: &'a [u8],
) -> Result<(Form<'a>, &'a [u8]), Fault<&'a [u8]>>
    requires fits { length trees.old + 2 * length text.now + 1 < 2 ^ 31 }
    ensures grows { Grows trees.old trees.new }
    ensures few { OnOk result (length trees.new ≤ length trees.old + 2 * length text.now) }
    ensures found { IfOk result (λ found. IsFormAt trees.new text.now found.0 found.1.now) }
    ensures broken { IfErr result (IsFormFault trees.new text.now) }
{
    let mut lists: Lists<'a> = Lists::new(alloc);
    let mut rest = text;
    'tokens: loop {
        match first_token(rest) {
            Front::AtEnd => return Err(lists.fault::<Meant, ByteList>(ScanKind::End, &[])),
            Front::Unread { kind, from } => {
                return Err(lists.fault::<Meant, ByteList>(kind, from));
            }
            Front::Took {
                token,
                from,
                rest: behind,
            } => {
                if let Some(form) = step(alloc, trees, &mut lists, token, from)? {
                    return Ok((form, behind));
                }
                rest = behind;
            }
        }
    }
}

/// The tree of a text in the form of CLVM. The text has at most 67,108,864 bytes, and each of them may add two nodes.
/// Earlier nodes stand, whatever the answer; after a fault there may be further nodes. Of all faults the first from the
/// front is told, with its place.
pub fn scan(alloc: Global, trees: &mut Trees, text: &str) -> Result<Node, TextFault>
    requires short { length text.now ≤ MOST_SPELLED }
    requires fits { length trees.old + 2 * length text.now + 1 < 2 ^ 31 }
    ensures grows { Grows trees.old trees.new }
    ensures few { OnOk result (length trees.new ≤ length trees.old + 2 * length text.now) }
    ensures known { IfOk result (λ tree. IsKnown trees.new tree.0) }
    ensures scanned { IfOk result (λ tree. scanned text.now ≡ Scans (tree_at trees.new tree.0)) }
    ensures fault { IfErr result (IsTextFault text.now) }
{
    let bytes = text.as_bytes();
    let (form, rest) = match first_form(alloc, trees, bytes) {
        Ok(found) => found,
        Err(fault) => return Err(answered(bytes, fault)),
    };
    let tree = match form {
        Form::Tree(tree) => tree,
        Form::Unknown(from) => return Err(TextFault::Name(place_of(bytes, from))),
    };
    match first_token(rest) {
        Front::AtEnd => Ok(tree),
        Front::Unread { kind, from } => Err(TextFault::Read(kind, place_of(bytes, from))),
        Front::Took {
            token: _,
            from,
            rest: _,
        } => Err(TextFault::Left(place_of(bytes, from))),
    }
}
