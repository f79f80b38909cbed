ghost use Rattle.std.specs.Prelude.{◌≤◌, ◌^◌, length};

mod fuel;

use crate::{Eval, Style};
use clvm_input::{line_for, read_word};
use std::alloc::Global;
use std::test::Fail;

const COST: u64 = 11_000_000_000;

// The line of a program's run on an environment, both in hexadecimal.
fn line(alloc: Global, program: &str, env: &str, style: Style, cost: u64) -> Result<String, Fail> {
    let input = Vec::from_slice(alloc, program.as_bytes())?;
    match read_word(alloc, env.as_bytes())? {
        Some(env) if input.len() <= 1_000 => {
            let env = &env;
            Ok(line_for(alloc, &Eval { env, style, cost }, input)?)
        }
        _ => Ok(String::new(alloc)),
    }
}

#[test]
fn runs_in_hexadecimal(rt: HostRuntime) -> Result<(), Fail> {
    let wide = "ff10ffff0191010000000000000000000000000000000080";
    let rows = [
        ("ff10ff02ffff010180", "ff0580", COST, "value 06 cost 824\n"),
        ("ff10ff02ffff010180", "ff0580", 824, "value 06 cost 824\n"),
        ("ff10ff02ffff010180", "ff0580", 823, "spent cost\n"),
        ("01", "80", COST, "value 80 cost 44\n"),
        ("ff0880", "80", 0, "spent cost\n"),
        ("ff0880", "80", 1, "failed raised 80 ff0880\n"),
        (
            "ff13ffff0181f9ffff010280",
            "80",
            COST,
            "value 81fc cost 1047\n",
        ),
        ("ff02ffff0102ff0180", "ff0980", COST, "value 09 cost 203\n"),
        ("02", "80", COST, "failed path 02\n"),
        (wide, "80", COST, "wide\n"),
        // (q . 5), with just its cost and with less
        ("ff0105", "80", 20, "value 05 cost 20\n"),
        ("ff0105", "80", 19, "spent cost\n"),
        // (a (q . 2) (q 9)), with just its cost and with less
        (
            "ff02ffff0102ffff01ff098080",
            "80",
            179,
            "value 09 cost 179\n",
        ),
        ("ff02ffff0102ffff01ff098080", "80", 178, "spent cost\n"),
        // (a (q . 2) (q . 9)): the path fails before it costs, so only what `a` itself costs can be wanting
        ("ff02ffff0102ffff010980", "80", 131, "failed path 02\n"),
        ("ff02ffff0102ffff010980", "80", 130, "spent cost\n"),
        // (a 1 1 1)
        (
            "ff02ff01ff01ff0180",
            "80",
            COST,
            "failed count ff02ff01ff01ff0180\n",
        ),
    ];
    for (program, env, cost, want) in rows {
        let got = line(rt.alloc(), program, env, Style::Hexadecimal, cost)?;
        assert!(rt; got.as_str() == want, "{program}: {got}");
    }
    Ok(())
}

#[test]
fn runs_as_text(rt: HostRuntime) -> Result<(), Fail> {
    let rows = [
        ("ff01ff6480", "80", "value (100) cost 20\n"),
        ("ff0880", "80", "failed raised () (x)\n"),
        ("ff05ff0180", "05", "failed operand 0 (f 1)\n"),
    ];
    for (program, env, want) in rows {
        let got = line(rt.alloc(), program, env, Style::Text, COST)?;
        assert!(rt; got.as_str() == want, "{program}: {got}");
    }
    Ok(())
}
