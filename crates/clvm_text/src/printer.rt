//! Printing: the text of a tree.

ghost use Rattle.std.specs.Prelude.{◌≡◌, ◌+◌, ◌<◌, ◌≤◌, ◌++◌, length, Option, Some, None, IfOk, IfErr, OnOk, string_bytes, string_len, vec_len, codes, if◌then◌else◌};
ghost use Rattle.clvm_spec.specs.Tree.{Tree, Atom};
ghost use Rattle.clvm_spec.specs.Numbers.{number};
ghost use Rattle.clvm_spec.specs.Text.{is_decimal, hex_text, bytes_text, opening, first_position, text_at, printed};
ghost use Rattle.clvm_tree.specs.Nodes.{tree_at, IsKnown};
ghost use Rattle.clvm_text.specs.Positions.{position_of};

use case_table::name_of;
use clvm_spec::shortest_bytes;
use clvm_tree::{Node, Sight, Trees, WriteFault};
use std::alloc::Global;

/// Where a tree stands: as the first element of a list, elsewhere, or as what follows an element.
#[derive(Clone, Copy, Debug, PartialEq, Eq)]
pub(crate) enum Position {
    Head,
    Alone,
    Rest,
}

/// A tree that is still to be printed.
#[derive(Clone, Copy, Debug)]
pub(crate) struct Pending {
    position: Position,
    node: Node,
}

// Text of at most `most` bytes gets longer.
fn push(text: &mut String, piece: &str, most: usize) -> Result<(), WriteFault>
    requires within { string_len text.old ≤ most }
    ensures ok { OnOk result (string_bytes text.new ≡ string_bytes text.old ++ piece.now) }
    ensures within { OnOk result (string_len text.new ≤ most) }
    ensures too_long { IfErr result (λ fault. fault ≡ WriteFault.TooLong → most < string_len text.old + length piece.now) }
{
    if piece.len() > most - text.len() {
        return Err(WriteFault::TooLong);
    }
    text.push_str(piece)?;
    Ok(())
}

fn push_hex(alloc: Global, text: &mut String, bytes: &[u8], most: usize) -> Result<(), WriteFault>
    requires within { string_len text.old ≤ most }
    ensures ok { OnOk result (string_bytes text.new ≡ string_bytes text.old ++ (hex_text bytes.now)) }
    ensures within { OnOk result (string_len text.new ≤ most) }
    ensures too_long { IfErr result (λ fault. fault ≡ WriteFault.TooLong → most < string_len text.old + length (hex_text bytes.now)) }
{
    let room = most - text.len();
    if room < 2 || (room - 2) / 2 < bytes.len() {
        return Err(WriteFault::TooLong);
    }
    text.push_str("0x")?;
    let digits = hex::encode(alloc, bytes)?;
    text.push_str(digits.as_str())?;
    Ok(())
}

// Whether an atom is written in decimal.
fn is_decimal(bytes: &[u8]) -> bool
    ensures { result ≡ is_decimal bytes.now }
{
    let shortest = shortest_bytes(bytes);
    bytes.len() <= 2 && shortest.len() == bytes.len()
}

// The number of an atom that is written in decimal.
fn short_number(trees: &Trees, node: Node, bytes: &[u8]) -> Option<i128>
    requires known { IsKnown trees.now node.0 }
    requires bytes { tree_at trees.now node.0 ≡ Atom bytes.now }
    ensures { result ≡ (if is_decimal bytes.now then Some (number bytes.now) else None) }
{
    if is_decimal(bytes) {
        trees.number_of(node)
    } else {
        None
    }
}

// The text of an atom that isn't nil.
fn push_bytes(
    alloc: Global,
    text: &mut String,
    trees: &Trees,
    node: Node,
    bytes: &[u8],
    most: usize,
) -> Result<(), WriteFault>
    requires within { string_len text.old ≤ most }
    requires known { IsKnown trees.now node.0 }
    requires bytes { tree_at trees.now node.0 ≡ Atom bytes.now }
    ensures ok { OnOk result (string_bytes text.new ≡ string_bytes text.old ++ bytes_text bytes.now) }
    ensures within { OnOk result (string_len text.new ≤ most) }
    ensures too_long { IfErr result (λ fault. fault ≡ WriteFault.TooLong → most < string_len text.old + length (bytes_text bytes.now)) }
{
    match short_number(trees, node, bytes) {
        Some(number) => {
            let decimal = format!(in alloc; "{number}")?;
            push(text, decimal.as_str(), most)
        }
        None => push_hex(alloc, text, bytes, most),
    }
}

// The text of an atom that stands there.
fn push_atom(
    alloc: Global,
    text: &mut String,
    trees: &Trees,
    pending: Pending,
    bytes: &[u8],
    most: usize,
) -> Result<(), WriteFault>
    requires within { string_len text.old ≤ most }
    requires known { IsKnown trees.now pending.node.0 }
    requires bytes { tree_at trees.now pending.node.0 ≡ Atom bytes.now }
    ensures ok { OnOk result (string_bytes text.new ≡ string_bytes text.old ++ text_at (position_of pending.position) (Atom bytes.now)) }
    ensures within { OnOk result (string_len text.new ≤ most) }
    ensures too_long { IfErr result (λ fault. fault ≡ WriteFault.TooLong → most < string_len text.old + length (text_at (position_of pending.position) (Atom bytes.now))) }
{
    match (pending.position, bytes) {
        (Position::Rest, []) => push(text, ")", most),
        (_, []) => push(text, "()", most),
        (Position::Rest, _) => {
            push(text, " . ", most)?;
            push_bytes(alloc, text, trees, pending.node, bytes, most)?;
            push(text, ")", most)
        }
        (Position::Head, [code]) => match name_of(*code) {
            Some(name) => push(text, name, most),
            None => push_bytes(alloc, text, trees, pending.node, bytes, most),
        },
        _ => push_bytes(alloc, text, trees, pending.node, bytes, most),
    }
}

// What a pair's text begins with.
fn opening(position: Position) -> &'static str
    ensures { result.now ≡ opening (position_of position) }
{
    match position {
        Position::Rest => " ",
        _ => "(",
    }
}

// Where a pair's first stands.
fn first_position(position: Position) -> Position
    ensures { position_of result ≡ first_position (position_of position) }
{
    match position {
        Position::Rest => Position::Alone,
        _ => Position::Head,
    }
}

/// The text of a tree, if it has at most `most` bytes.
pub fn print(alloc: Global, trees: &Trees, node: Node, most: usize) -> Result<String, WriteFault>
    requires known { IsKnown trees.now node.0 }
    ensures printed { IfOk result (λ text. string_bytes text ≡ printed (tree_at trees.now node.0)) }
    ensures within { OnOk result (length (printed (tree_at trees.now node.0)) ≤ most) }
    ensures too_long { IfErr result (λ fault. fault ≡ WriteFault.TooLong → most < length (printed (tree_at trees.now node.0))) }
{
    let mut text = String::new(alloc);
    let mut pending = Vec::new(alloc);
    pending.push(Pending {
        position: Position::Alone,
        node,
    })?;
    'pending: while let Some(next) = pending.pop() {
        match trees.look(next.node) {
            Sight::Bytes(bytes) => push_atom(alloc, &mut text, trees, next, bytes, most)?,
            Sight::Parts(first, rest) => {
                push(&mut text, opening(next.position), most)?;
                pending.push(Pending {
                    position: Position::Rest,
                    node: rest,
                })?;
                pending.push(Pending {
                    position: first_position(next.position),
                    node: first,
                })?;
            }
        }
    }
    Ok(text)
}
