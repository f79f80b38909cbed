ghost use Rattle.std.specs.Prelude.{◌+◌, ◌≤◌, length, IfOk};
ghost use Rattle.clvm_spec.specs.Evaluation.{most_pairs, most_bytes, most_depth};
ghost use Rattle.clvm_tree.specs.Nodes.{IsKnown};

mod paths;

use crate::{Done, Fuel, Node, Operators, OutOfMemory, RunFault, Trees, Which, Why, run};
use clvm_tree::{Answer, OpFault, ReadFault};
use std::alloc::Global;

/// A table that says of each operator that there is no memory.
struct NoMemory;

impl Operators for NoMemory {
    fn apply(
        &self,
        _alloc: Global,
        _trees: &mut Trees,
        _code: Node,
        _operands: &[Node],
        _left: Fuel,
    ) -> Result<Answer, OpFault> {
        Err(OpFault::OutOfMemory)
    }
}

#[derive(Clone, Copy, Debug)]
enum Wanted<'a> {
    Done(u64, &'a [u8]),
    Failed(Why, &'a [u8]),
    Spent(Which),
}

const FUEL: Fuel = Fuel {
    cost: 11_000_000_000,
    pairs: 16_777_216,
    bytes: 134_217_728,
    depth: 1_048_576,
};

fn is_spelled(alloc: Global, trees: &Trees, node: Node, spelling: &[u8]) -> bool
    requires { IsKnown trees.now node.0 }
{
    match trees.write(alloc, node, 1_000) {
        Ok(written) => written.as_slice() == spelling,
        Err(_) => false,
    }
}

fn is_done(alloc: Global, trees: &Trees, done: Done, wanted: Wanted<'_>) -> bool
    requires { IsKnown trees.now done.value.0 }
{
    match wanted {
        Wanted::Done(cost, value) => {
            done.cost == cost && is_spelled(alloc, trees, done.value, value)
        }
        _ => false,
    }
}

fn is_failed(alloc: Global, trees: &Trees, why: Why, form: Node, wanted: Wanted<'_>) -> bool
    requires { IsKnown trees.now form.0 }
{
    match wanted {
        Wanted::Failed(reason, spelling) => {
            why == reason && is_spelled(alloc, trees, form, spelling)
        }
        _ => false,
    }
}

fn is_spent(which: Which, wanted: Wanted<'_>) -> bool {
    match wanted {
        Wanted::Spent(count) => which == count,
        _ => false,
    }
}

// Whether the run of the first of a pair in the environment that is its rest comes out so.
fn comes_out(alloc: Global, pair: &[u8], fuel: Fuel, wanted: Wanted<'_>) -> Result<bool, ReadFault>
    requires short { length pair.now ≤ 1000 }
    requires pairs { fuel.pairs ≤ most_pairs }
    requires bytes { fuel.bytes ≤ most_bytes }
    requires depth { fuel.depth ≤ most_depth }
{
    let mut trees = Trees::new(alloc);
    let whole = trees.read_whole(alloc, pair)?;
    let Some((program, env)) = trees.as_pair(whole) else {
        return Ok(false);
    };
    match run(alloc, &mut trees, &NoMemory, program, env, fuel) {
        Ok(done) => Ok(is_done(alloc, &trees, done, wanted)),
        Err(RunFault::Failed(why, form)) => Ok(is_failed(alloc, &trees, why, form, wanted)),
        Err(RunFault::Spent(which)) => Ok(is_spent(which, wanted)),
        Err(_) => Ok(false),
    }
}

#[test]
fn comes_out_as_calculated_by_hand(rt: HostRuntime) -> Result<(), ReadFault> {
    let most = FUEL.cost;
    for (cost, depth, pair, wanted) in [
        // 1 in nil, with just its cost and with less
        (44, 0, b"\xff\x01\x80".as_slice(), Wanted::Done(44, b"\x80")),
        (43, 0, b"\xff\x01\x80", Wanted::Spent(Which::Cost)),
        // (q . 5), with just its cost and with less
        (20, 0, b"\xff\xff\x01\x05\x80", Wanted::Done(20, b"\x05")),
        (19, 0, b"\xff\xff\x01\x05\x80", Wanted::Spent(Which::Cost)),
        // (a 1 1 1)
        (
            most,
            1,
            b"\xff\xff\x02\xff\x01\xff\x01\xff\x01\x80\x80",
            Wanted::Failed(Why::Count, b"\xff\x02\xff\x01\xff\x01\xff\x01\x80"),
        ),
        // (a (q . 2) 1) in (9), also with just its cost and with less
        (
            203,
            1,
            b"\xff\xff\x02\xff\xff\x01\x02\xff\x01\x80\xff\x09\x80",
            Wanted::Done(203, b"\x09"),
        ),
        (
            202,
            1,
            b"\xff\xff\x02\xff\xff\x01\x02\xff\x01\x80\xff\x09\x80",
            Wanted::Spent(Which::Cost),
        ),
        (
            most,
            1,
            b"\xff\xff\x02\xff\xff\x01\x02\xff\x01\x80\xff\x09\x80",
            Wanted::Done(203, b"\x09"),
        ),
        (
            most,
            0,
            b"\xff\xff\x02\xff\xff\x01\x02\xff\x01\x80\xff\x09\x80",
            Wanted::Spent(Which::Depth),
        ),
        // the path 0002 in (5), and 0100 in ((((((((5))))))))
        (
            most,
            0,
            b"\xff\x82\x00\x02\xff\x05\x80",
            Wanted::Done(52, b"\x05"),
        ),
        (
            most,
            0,
            b"\xff\x82\x01\x00\xff\xff\xff\xff\xff\xff\xff\xff\x05\x80\x80\x80\x80\x80\x80\x80\x80",
            Wanted::Done(76, b"\x05"),
        ),
        // the empty path, and paths of zero bytes alone
        (most, 0, b"\xff\x80\x05", Wanted::Done(44, b"\x80")),
        (most, 0, b"\xff\x00\x05", Wanted::Done(48, b"\x80")),
        (most, 0, b"\xff\x82\x00\x00\x05", Wanted::Done(52, b"\x80")),
        // a step's failure before its lack of cost
        (0, 0, b"\xff\x02\x80", Wanted::Failed(Why::Path, b"\x02")),
        (
            0,
            0,
            b"\xff\xff\x04\x02\x80",
            Wanted::Failed(Why::List, b"\xff\x04\x02"),
        ),
        (
            0,
            0,
            b"\xff\xff\xff\x01\x80\x80\x80",
            Wanted::Failed(Why::Operator, b"\xff\xff\x01\x80\x80"),
        ),
        // (c 2 3) in nil: the last operand is evaluated first
        (
            most,
            1,
            b"\xff\xff\x04\xff\x02\xff\x03\x80\x80",
            Wanted::Failed(Why::Path, b"\x03"),
        ),
        // (a 1)
        (
            most,
            1,
            b"\xff\xff\x02\xff\x01\x80\x80",
            Wanted::Failed(Why::Count, b"\xff\x02\xff\x01\x80"),
        ),
    ] {
        assert!(rt; pair.len() <= 1_000 && depth <= 1);
        let fuel = Fuel {
            cost,
            depth,
            ..FUEL
        };
        let as_wanted = comes_out(rt.alloc(), pair, fuel, wanted)?;
        assert!(rt; as_wanted, "{wanted:?}");
    }
    Ok(())
}

// (a (q . 1) P)
fn wrapped(alloc: Global, trees: &mut Trees, program: Node) -> Result<Node, OutOfMemory>
    requires known { IsKnown trees.old program.0 }
    requires fits { length trees.old ≤ 1_000_000 }
    ensures known { IfOk result (λ node. IsKnown trees.new node.0) }
    ensures few { length trees.new ≤ length trees.old + 5 }
{
    let operands = trees.nil();
    let operands = trees.pair(alloc, program, operands)?;
    let one = trees.one();
    let quoted = trees.pair(alloc, one, one)?;
    let operands = trees.pair(alloc, quoted, operands)?;
    let apply = trees.atom(alloc, &[2])?;
    trees.pair(alloc, apply, operands)
}

// The run of a program that nests 100,000 forms, within this depth.
fn deep_run(alloc: Global, depth: u32) -> Result<Result<Done, RunFault>, OutOfMemory>
    requires { depth ≤ 100_000 }
{
    let mut trees = Trees::new(alloc);
    let mut program = trees.one();
    let mut level = 0u32;
    'levels: while level < 100_000 {
        program = wrapped(alloc, &mut trees, program)?;
        level += 1;
    }
    let env = trees.nil();
    let fuel = Fuel { depth, ..FUEL };
    Ok(run(alloc, &mut trees, &NoMemory, program, env, fuel))
}

#[test]
fn takes_deep_programs(rt: HostRuntime) -> Result<(), OutOfMemory> {
    let value = Trees::new(rt.alloc()).nil();
    let done = Done {
        value,
        cost: 15_500_044,
    };
    let deep = deep_run(rt.alloc(), 100_000)?;
    assert!(rt; deep == Ok(done));
    let short = deep_run(rt.alloc(), 99_999)?;
    assert!(rt; short == Err(RunFault::Spent(Which::Depth)));
    Ok(())
}
