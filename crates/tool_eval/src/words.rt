//! The words of a run's outcome.
ghost use Rattle.std.specs.Prelude.{◌≡◌, ◌++◌, OnOk, string_bytes};
ghost use Rattle.hex.specs.Hex.{encode_lower};
ghost use Rattle.clvm_spec.specs.Text.{printed};
ghost use Rattle.clvm_spec.specs.Outcomes.{Outcome};
ghost use Rattle.clvm_tree.specs.Nodes.{tree_at, IsKnown};
ghost use Rattle.clvm_eval.specs.Runs.{why_of, IsWhyKnown};
ghost use Rattle.tool_eval.specs.Outcomes.{tree_words, why_words, which_words, done_words, failed_words, spent_words, outcome_words};
ghost use Rattle.tool_eval.specs.Runs.{IsRunKnown, HasOutcome};

use crate::Style;
use clvm_eval::{Done, OutOfMemory, RunFault, Which, Why};
use clvm_spec::limits::MOST_WRITTEN;
use clvm_text::print;
use clvm_tree::{Fuel, Node, Trees, WriteFault};
use std::alloc::Global;

fn write_hexadecimal(alloc: Global, text: &mut String, bytes: &[u8]) -> Result<(), OutOfMemory>
    ensures { OnOk result (string_bytes text.new ≡ string_bytes text.old ++ encode_lower bytes.now) }
{
    let digits = hex::encode(alloc, bytes)?;
    text.push_str(&digits)
}

// A text that has more bytes than a number of bytes can count doesn't fit into memory.
fn write_printed(
    alloc: Global,
    text: &mut String,
    trees: &Trees,
    node: Node,
) -> Result<(), OutOfMemory>
    requires { IsKnown trees.now node.0 }
    ensures { OnOk result (string_bytes text.new ≡ string_bytes text.old ++ printed (tree_at trees.now node.0)) }
{
    match print(alloc, trees, node, usize::MAX) {
        Ok(words) => text.push_str(&words),
        Err(_) => Err(OutOfMemory),
    }
}

/// Appends a tree in a style. One whose spelling has more than 33,554,432 bytes is `too-long`.
pub fn write_tree(
    alloc: Global,
    text: &mut String,
    trees: &Trees,
    node: Node,
    style: Style,
) -> Result<(), OutOfMemory>
    requires { IsKnown trees.now node.0 }
    ensures { OnOk result (string_bytes text.new ≡ string_bytes text.old ++ tree_words style (tree_at trees.now node.0)) }
{
    match trees.write(alloc, node, MOST_WRITTEN) {
        Ok(bytes) => match style {
            Style::Hexadecimal => write_hexadecimal(alloc, text, &bytes),
            Style::Text => write_printed(alloc, text, trees, node),
        },
        Err(WriteFault::TooLong) => text.push_str("too-long"),
        Err(WriteFault::OutOfMemory) => Err(OutOfMemory),
    }
}

fn write_why(
    alloc: Global,
    text: &mut String,
    trees: &Trees,
    why: Why,
    style: Style,
) -> Result<(), OutOfMemory>
    requires { IsWhyKnown trees.now why }
    ensures { OnOk result (string_bytes text.new ≡ string_bytes text.old ++ why_words style (why_of trees.now why)) }
{
    match why {
        Why::Path => text.push_str("path"),
        Why::List => text.push_str("list"),
        Why::Count => text.push_str("count"),
        Why::Operand(place) => write!(text, "operand {place}"),
        Why::Raised(node) => {
            text.push_str("raised ")?;
            write_tree(alloc, text, trees, node, style)
        }
        Why::Zero => text.push_str("zero"),
        Why::Shift => text.push_str("shift"),
        Why::Operator => text.push_str("operator"),
    }
}

fn which_words(which: Which) -> &'static str
    ensures { result.now ≡ which_words which }
{
    match which {
        Which::Cost => "cost",
        Which::Pairs => "pairs",
        Which::Bytes => "bytes",
        Which::Depth => "depth",
    }
}

fn write_spent(text: &mut String, which: Which) -> Result<(), OutOfMemory>
    ensures { OnOk result (string_bytes text.new ≡ string_bytes text.old ++ spent_words which) }
{
    text.push_str("spent ")?;
    text.push_str(which_words(which))
}

fn write_done(
    alloc: Global,
    text: &mut String,
    trees: &Trees,
    done: Done,
    style: Style,
) -> Result<(), OutOfMemory>
    requires { IsKnown trees.now done.value.0 }
    ensures { OnOk result (string_bytes text.new ≡ string_bytes text.old ++ done_words style (tree_at trees.now done.value.0) done.cost) }
{
    text.push_str("value ")?;
    write_tree(alloc, text, trees, done.value, style)?;
    let cost = done.cost;
    write!(text, " cost {cost}")
}

fn write_failed(
    alloc: Global,
    text: &mut String,
    trees: &Trees,
    why: Why,
    form: Node,
    style: Style,
) -> Result<(), OutOfMemory>
    requires why { IsWhyKnown trees.now why }
    requires form { IsKnown trees.now form.0 }
    ensures { OnOk result (string_bytes text.new ≡ string_bytes text.old ++ failed_words style (why_of trees.now why) (tree_at trees.now form.0)) }
{
    text.push_str("failed ")?;
    write_why(alloc, text, trees, why, style)?;
    text.push(' ')?;
    write_tree(alloc, text, trees, form, style)
}

/// Writes how a run came out, unless it is want of memory.
pub(crate) fn write_run(
    alloc: Global,
    text: &mut String,
    trees: &Trees,
    run: Result<Done, RunFault>,
    style: Style,
) -> Result<(), OutOfMemory>
    requires { IsRunKnown trees.now run }
    ensures { OnOk result ((fuel : Fuel) (outcome : Outcome) → HasOutcome trees.now fuel outcome run →
        string_bytes text.new ≡ string_bytes text.old ++ outcome_words style fuel outcome) }
{
    match run {
        Ok(done) => write_done(alloc, text, trees, done, style),
        Err(RunFault::Failed(why, form)) => write_failed(alloc, text, trees, why, form, style),
        Err(RunFault::Spent(which)) => write_spent(text, which),
        Err(RunFault::Wide) => text.push_str("wide"),
        Err(RunFault::OutOfMemory) => Err(OutOfMemory),
    }
}
