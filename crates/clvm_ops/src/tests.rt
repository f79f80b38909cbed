ghost use Rattle.std.specs.Prelude.{◌+◌, ◌≤◌, IfOk, vec_len};
ghost use Rattle.clvm_tree.specs.Nodes.{IsKnown, AreKnown};

mod arithmetic;
mod cases;
mod kinds;

use crate::CoreOps;
use cases::CASES;
use clvm_tree::{Fuel, Node, OpFault, Operators, OutOfMemory, Trees};
use std::alloc::Global;
use std::test::Fail;

const AMPLE: Fuel = Fuel {
    cost: 1_000_000,
    pairs: 100,
    bytes: 1_000,
    depth: 100,
};

// The elements of a list.
fn elements(alloc: Global, trees: &Trees, list: Node) -> Result<Vec<Node>, OutOfMemory>
    requires { IsKnown trees.now list.0 }
    ensures known { IfOk result (λ nodes. AreKnown trees.now nodes.items) }
    ensures few { IfOk result (λ nodes. vec_len nodes ≤ list.0) }
{
    let mut nodes = Vec::new(alloc);
    let mut rest = list;
    'elements: while let Some((first, others)) = trees.as_pair(rest) {
        nodes.push(first)?;
        rest = others;
    }
    Ok(nodes)
}

// What comes of a form within what is left.
fn applied(alloc: Global, form: &str, left: Fuel) -> Result<String, Fail> {
    let form = hex::decode(alloc, form)?;
    if form.len() > 100 || left.pairs > 100 || left.bytes > 1_000 {
        return Ok(format!(in alloc; "too large")?);
    }
    let mut trees = Trees::new(alloc);
    let list = trees.read_whole(alloc, &form)?;
    let nodes = elements(alloc, &trees, list)?;
    let [code, operands @ ..] = nodes.as_slice() else {
        return Ok(format!(in alloc; "no form")?);
    };
    match CoreOps.apply(alloc, &mut trees, *code, operands, left) {
        Ok(answer) => {
            let value = trees.write(alloc, answer.value, 100)?;
            let value = hex::encode(alloc, value.as_slice())?;
            Ok(format!(in alloc;
                "gives {value} {} {} {}",
                answer.cost, answer.pairs, answer.bytes
            )?)
        }
        Err(OpFault::Raised(list)) => {
            let list = trees.write(alloc, list, 100)?;
            let list = hex::encode(alloc, list.as_slice())?;
            Ok(format!(in alloc; "raises {list}")?)
        }
        Err(fault) => Ok(format!(in alloc; "fails {fault:?}")?),
    }
}

// Whether that comes of the form which the line tells. What stands behind # is not looked at.
fn is_so(alloc: Global, line: &str, left: Fuel) -> Result<bool, Fail> {
    let line = line.split(" #").next().unwrap_or(line);
    let Some((form, told)) = line.split_once(' ') else {
        return Ok(line.is_empty());
    };
    Ok(form == "#" || applied(alloc, form, left)?.as_str() == told)
}

#[test]
fn gives_what_the_table_says(rt: HostRuntime) -> Result<(), Fail> {
    for line in CASES.lines() {
        assert!(rt; is_so(rt.alloc(), line, AMPLE)?, "{line}");
    }
    Ok(())
}

// (c 5 6) costs 50 and takes a pair. (+ 5 6) costs 755 and takes 9 bytes. (divmod 7 2) costs 1148 and takes a pair and 18
// bytes. A sum that is too wide is told before its cost.
#[test]
fn spends_the_cost_then_pairs_then_bytes(rt: HostRuntime) -> Result<(), Fail> {
    for (line, cost, pairs, bytes) in [
        ("ff04ff05ff0680 gives ff0506 50 1 0", 50, 1, 0),
        ("ff04ff05ff0680 fails Spent(Cost)", 49, 0, 0),
        ("ff04ff05ff0680 fails Spent(Pairs)", 50, 0, 0),
        ("ff10ff05ff0680 gives 0b 755 0 9", 755, 0, 9),
        ("ff10ff05ff0680 fails Spent(Cost)", 754, 0, 8),
        ("ff10ff05ff0680 fails Spent(Bytes)", 755, 0, 8),
        ("ff14ff07ff0280 fails Spent(Pairs)", 1_148, 0, 17),
        ("ff14ff07ff0280 fails Spent(Bytes)", 1_148, 1, 17),
        (
            "ff10ff91000000000000000000000000000000000080 fails Wide",
            0,
            0,
            0,
        ),
    ] {
        let left = Fuel {
            cost,
            pairs,
            bytes,
            depth: 0,
        };
        assert!(rt; is_so(rt.alloc(), line, left)?, "{line}");
    }
    Ok(())
}
