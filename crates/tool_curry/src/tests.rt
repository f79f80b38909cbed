ghost use Rattle.std.specs.Prelude.{◌≤◌, ◌^◌, length};

use crate::Curry;
use clvm_input::{line_for, read_words};
use std::alloc::Global;
use std::test::Fail;

// The line of a program curried with arguments, all in hexadecimal.
fn line(alloc: Global, program: &str, arguments: &[&str]) -> Result<String, Fail> {
    let input = Vec::from_slice(alloc, program.as_bytes())?;
    match read_words(alloc, arguments)? {
        Some(arguments) if input.len() <= 1_000 => Ok(line_for(
            alloc,
            &Curry {
                arguments: &arguments,
            },
            input,
        )?),
        _ => Ok(String::new(alloc)),
    }
}

#[test]
fn curries_in_hexadecimal(rt: HostRuntime) -> Result<(), Fail> {
    let rows = [
        (
            "ff10ff02ffff010180",
            ["05"].as_slice(),
            "ff02ffff01ff10ff02ffff010180ffff04ffff0105ff018080\n",
        ),
        ("02", [].as_slice(), "ff02ffff0102ff0180\n"),
        (
            " 0x02\n",
            ["80", "0xFF0102"].as_slice(),
            "ff02ffff0102ffff04ffff0180ffff04ffff01ff0102ff01808080\n",
        ),
    ];
    for (program, arguments, want) in rows {
        let got = line(rt.alloc(), program, arguments)?;
        assert!(rt; got.as_str() == want, "{program}: {got}");
    }
    Ok(())
}
