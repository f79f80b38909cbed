//! Paths, and what they cost.

ghost use Rattle.std.specs.Prelude.{◌≤◌, length};

use super::is_spelled;
use crate::{OutOfMemory, Place, Trees, cost_of_path, follow};
use clvm_tree::ReadFault;
use std::alloc::Global;

// Whether the path leads, in the environment that is spelled so, by so many steps to what is spelled so.
fn leads(
    alloc: Global,
    path: &[u8],
    env: &[u8],
    wanted: Option<(u32, &[u8])>,
) -> Result<bool, ReadFault>
    requires { length env.now ≤ 1000 }
{
    let mut trees = Trees::new(alloc);
    let env = trees.read_whole(alloc, env)?;
    match (follow(&trees, path, env), wanted) {
        (Some(at), Some((steps, value))) => {
            Ok(at.steps == steps && is_spelled(alloc, &trees, at.node, value))
        }
        (None, None) => Ok(true),
        _ => Ok(false),
    }
}

#[test]
fn leads_as_calculated_by_hand(rt: HostRuntime) -> Result<(), ReadFault> {
    // each atom is the path to it
    let four = b"\xff\xff\x04\x06\xff\x05\x07".as_slice();
    for (path, env, wanted) in [
        // the empty path, and paths of zero bytes alone
        (b"".as_slice(), four, Some((0, b"\x80".as_slice()))),
        (b"", b"\x05", Some((0, b"\x80"))),
        (b"\x00", four, Some((0, b"\x80"))),
        (b"\x00\x00\x00", b"\x05", Some((0, b"\x80"))),
        // the environment itself
        (b"\x01", four, Some((0, four))),
        (b"\x01", b"\x05", Some((0, b"\x05"))),
        (b"\x02", four, Some((1, b"\xff\x04\x06"))),
        (b"\x03", four, Some((1, b"\xff\x05\x07"))),
        (b"\x04", four, Some((2, b"\x04"))),
        (b"\x05", four, Some((2, b"\x05"))),
        (b"\x06", four, Some((2, b"\x06"))),
        (b"\x07", four, Some((2, b"\x07"))),
        // zero bytes before the path
        (b"\x00\x01", b"\x05", Some((0, b"\x05"))),
        (b"\x00\x02", four, Some((1, b"\xff\x04\x06"))),
        (b"\x00\x00\x00\x05", four, Some((2, b"\x05"))),
        // the first step leads into an atom
        (b"\x02", b"\x80", None),
        (b"\x03", b"\x05", None),
        (b"\x00\x02", b"\x05", None),
        (b"\x07", b"\x05", None),
        // the last step does
        (b"\x04", b"\xff\x02\x03", None),
        (b"\x07", b"\xff\x02\x03", None),
        (b"\x00\x08", four, None),
    ] {
        assert!(rt; env.len() <= 1_000);
        let as_wanted = leads(rt.alloc(), path, env, wanted)?;
        assert!(rt; as_wanted, "{path:?} {wanted:?}");
    }
    Ok(())
}

// Where a path leads in an environment that has 1 along these turns, f to the first and r to the rest, and nil beside
// them.
fn follow_along(alloc: Global, path: &[u8], turns: &[u8]) -> Result<Option<Place>, OutOfMemory>
    requires { length turns.now ≤ 1000 }
{
    let mut trees = Trees::new(alloc);
    let nil = trees.nil();
    let mut env = trees.one();
    let mut left = turns.len();
    'turns: while left > 0 {
        left -= 1;
        env = if turns[left] == b'f' {
            trees.pair(alloc, env, nil)?
        } else {
            trees.pair(alloc, nil, env)?
        };
    }
    Ok(follow(&trees, path, env))
}

#[test]
fn follows_the_last_byte_first(rt: HostRuntime) -> Result<(), OutOfMemory> {
    let one = Trees::new(rt.alloc()).one();
    for (path, turns, steps) in [
        (b"\x80".as_slice(), b"fffffff".as_slice(), Some(7)),
        (b"\xff", b"rrrrrrr", Some(7)),
        (b"\x01\x00", b"ffffffff", Some(8)),
        (b"\x02\x80", b"fffffffrf", Some(9)),
        (b"\xff\xfe", b"frrrrrrrrrrrrrr", Some(15)),
        (b"\x01\x00\x01", b"rfffffffffffffff", Some(16)),
        (b"\x11\x02\x01", b"rffffffffrffffffrfff", Some(20)),
        (
            b"\x00\x00\x00\x11\x02\x01",
            b"rffffffffrffffffrfff",
            Some(20),
        ),
        // the last step leads into an atom
        (b"\x80", b"ffffff", None),
        (b"\x02\x80", b"fffffffr", None),
        (b"\x11\x02\x01", b"rffffffffrffffffrff", None),
        // one between does
        (b"\x11\x02\x01", b"rfffffffff", None),
        // the first does
        (b"\x02\x80", b"", None),
        (b"\x11\x02\x01", b"", None),
    ] {
        assert!(rt; turns.len() <= 1_000);
        let place = follow_along(rt.alloc(), path, turns)?;
        let wanted = steps.map(|steps| Place { node: one, steps });
        assert!(rt; place == wanted, "{path:?} {place:?}");
    }
    Ok(())
}

#[test]
fn each_leading_zero_and_each_step_costs_4(rt: HostRuntime) {
    for (path, steps, cost) in [
        (b"".as_slice(), 0, 44),
        (b"\x00", 0, 48),
        (b"\x00\x00\x00", 0, 56),
        (b"\x01", 0, 44),
        (b"\x00\x01", 0, 48),
        (b"\x00\x00\x00\x01", 0, 56),
        (b"\x02", 1, 48),
        (b"\x00\x02", 1, 52),
        (b"\x00\x00\x00\x05", 2, 64),
        // a zero byte behind another byte is free
        (b"\x01\x00", 8, 76),
        (b"\x00\x01\x00\x00", 16, 112),
        (b"\x02\x80", 9, 80),
        (b"\x11\x02\x01", 20, 124),
        // as many steps as the type holds
        (b"\x00", u32::MAX, 17_179_869_228),
    ] {
        assert!(rt; cost_of_path(path, steps) == cost, "{path:?} {steps}");
    }
}
