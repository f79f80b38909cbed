//! Runs with just enough of each count of fuel, and with one less.

ghost use Rattle.std.specs.Prelude.{◌≤◌};
ghost use Rattle.clvm_spec.specs.Evaluation.{most_pairs, most_bytes, most_depth};

use clvm_eval::{Fuel, RunFault, Which, run};
use clvm_ops::CoreOps;
use clvm_tree::Trees;
use std::alloc::Global;
use std::test::Fail;

// How the run of a spelled program in nil comes out.
fn comes_out(alloc: Global, program: &str, fuel: Fuel) -> Result<&'static str, Fail>
    requires pairs { fuel.pairs ≤ most_pairs }
    requires bytes { fuel.bytes ≤ most_bytes }
    requires depth { fuel.depth ≤ most_depth }
{
    let bytes = hex::decode(alloc, program)?;
    if bytes.len() > 1_000 {
        return Ok("too long");
    }
    let mut trees = Trees::new(alloc);
    let program = trees.read_whole(alloc, &bytes)?;
    let nil = trees.nil();
    match run(alloc, &mut trees, &CoreOps, program, nil, fuel) {
        Ok(_) => Ok("done"),
        Err(RunFault::Spent(Which::Cost)) => Ok("cost"),
        Err(RunFault::Spent(Which::Pairs)) => Ok("pairs"),
        Err(RunFault::Spent(Which::Bytes)) => Ok("bytes"),
        Err(RunFault::Spent(Which::Depth)) => Ok("depth"),
        Err(_) => Ok("fault"),
    }
}

#[test]
fn tells_which_count_is_spent(rt: HostRuntime) -> Result<(), Fail> {
    // (c (q . 1) (q . 2)) and (+ (q . 1) (q . 2))
    let pair = "ff04ffff0101ffff010280";
    let sum = "ff10ffff0101ffff010280";
    for (program, cost, pairs, bytes, depth, want) in [
        (pair, 91, 1, 0, 1, "done"),
        (pair, 90, 1, 0, 1, "cost"),
        (pair, 91, 0, 0, 1, "pairs"),
        (pair, 91, 1, 0, 0, "depth"),
        (sum, 796, 0, 9, 1, "done"),
        (sum, 795, 0, 9, 1, "cost"),
        (sum, 796, 0, 8, 1, "bytes"),
        (sum, 796, 0, 9, 0, "depth"),
    ] {
        let fuel = Fuel {
            cost,
            pairs,
            bytes,
            depth,
        };
        let found = comes_out(rt.alloc(), program, fuel)?;
        assert!(rt; found == want, "{program}: {found}");
    }
    Ok(())
}
