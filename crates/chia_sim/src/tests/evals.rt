// The command `eval`.
use super::*;

// What `eval` writes with these words behind it, on a program, with its status.
fn told(alloc: Global, arguments: &str, program: &str) -> Result<String, Fail> {
    let arguments = format!(in alloc; "eval {arguments}")?;
    let outcome = run_on(alloc, &arguments, program)?;
    let status = outcome.status;
    let written = String::from_utf8(outcome.written)?;
    Ok(format!(in alloc; "{status} {written}")?)
}

#[test]
fn values_with_their_costs(rt: HostRuntime) -> Result<(), Fail> {
    let alloc = rt.alloc();
    let curried = "ff02ffff01ff10ff02ffff010180ffff04ffff0105ff018080";
    let rows = [
        ("ff0580", "ff10ff02ffff010180", "0 value 06 cost 824\n"),
        (
            "--cost 824 ff0580",
            "ff10ff02ffff010180",
            "0 value 06 cost 824\n",
        ),
        ("--cost=823 ff0580", "ff10ff02ffff010180", "0 spent cost\n"),
        ("80", "01", "0 value 80 cost 44\n"),
        ("--cost 44 80", "01", "0 value 80 cost 44\n"),
        ("80 --cost 43", "01", "0 spent cost\n"),
        ("80", "ff13ffff0181f9ffff010280", "0 value 81fc cost 1047\n"),
        ("ff0980", "ff02ffff0102ff0180", "0 value 09 cost 203\n"),
        ("80", curried, "0 value 06 cost 1050\n"),
        (
            "0xFF0580",
            " 0xFF10ff02ffff010180\r\n",
            "0 value 06 cost 824\n",
        ),
        ("80", "ff0180", "0 value 80 cost 20\n"),
    ];
    for (arguments, program, text) in rows {
        let found = told(alloc, arguments, program)?;
        assert!(rt; found.as_str() == text, "{arguments} of {program}: {found}");
    }
    Ok(())
}

#[test]
fn runs_that_fail(rt: HostRuntime) -> Result<(), Fail> {
    let alloc = rt.alloc();
    let rows = [
        ("80", "02", "0 failed path 02\n"),
        ("80", "ff1001", "0 failed list ff1001\n"),
        ("80", "ff0580", "0 failed count ff0580\n"),
        ("05", "ff05ff0180", "0 failed operand 0 ff05ff0180\n"),
        (
            "80",
            "ff0cffff01821234ffff010580",
            "0 failed operand 1 ff0cffff01821234ffff010580\n",
        ),
        (
            "80",
            "ff08ffff010780",
            "0 failed raised ff0780 ff08ffff010780\n",
        ),
        ("--cost 0 80", "ff0880", "0 spent cost\n"),
        ("--cost 1 80", "ff0880", "0 failed raised 80 ff0880\n"),
        (
            "80",
            "ff13ffff0101ffff018080",
            "0 failed zero ff13ffff0101ffff018080\n",
        ),
        (
            "80",
            "ff16ffff0101ffff018301000080",
            "0 failed shift ff16ffff0101ffff018301000080\n",
        ),
        ("80", "ff0f80", "0 failed operator ff0f80\n"),
        ("--cost 0 80", "ff0f80", "0 spent cost\n"),
        (
            "--cost 0 80",
            "ffff018080",
            "0 failed operator ffff018080\n",
        ),
        // Operands are evaluated from the last to the first.
        (
            "05",
            "ff10ffff05ff0180ffff06ff018080",
            "0 failed operand 0 ff06ff0180\n",
        ),
        (
            "80",
            "ff10ffff0191010000000000000000000000000000000080",
            "0 wide\n",
        ),
    ];
    for (arguments, program, text) in rows {
        let found = told(alloc, arguments, program)?;
        assert!(rt; found.as_str() == text, "{arguments} of {program}: {found}");
    }
    Ok(())
}

#[test]
fn outcomes_as_text(rt: HostRuntime) -> Result<(), Fail> {
    let alloc = rt.alloc();
    let rows = [
        (
            "--text ff0580",
            "ff10ff02ffff010180",
            "0 value 6 cost 824\n",
        ),
        ("--text 80", "ff01ff6480", "0 value (100) cost 20\n"),
        (
            "80 --text",
            "ff01ff10ff02ffff010180",
            "0 value (+ 2 (q . 1)) cost 20\n",
        ),
        ("80 --text", "ff01830186a0", "0 value 0x0186a0 cost 20\n"),
        ("--text 80 --cost=1", "ff0880", "0 failed raised () (x)\n"),
        ("--text 05", "ff05ff0180", "0 failed operand 0 (f 1)\n"),
        ("--text --cost 0 80", "01", "0 spent cost\n"),
        ("--text 80", "8", "1 input hex\n"),
    ];
    for (arguments, program, text) in rows {
        let found = told(alloc, arguments, program)?;
        assert!(rt; found.as_str() == text, "{arguments} of {program}: {found}");
    }
    Ok(())
}

#[test]
fn programs_that_are_no_tree(rt: HostRuntime) -> Result<(), Fail> {
    let alloc = rt.alloc();
    let rows = [
        ("8101", "1 input long-spelling 0\n"),
        ("ff01", "1 input cut\n"),
        ("0xfe", "1 input bad-prefix 0\n"),
        ("8080", "1 input left 1\n"),
        ("8", "1 input hex\n"),
        ("0X80", "1 input hex\n"),
        ("", "1 input cut\n"),
    ];
    for (program, text) in rows {
        let found = told(alloc, "80", program)?;
        assert!(rt; found.as_str() == text, "{program}: {found}");
    }
    Ok(())
}

#[test]
fn words_that_are_no_eval(rt: HostRuntime) -> Result<(), Fail> {
    let alloc = rt.alloc();
    let lines = [
        "eval",
        "eval --text",
        "eval --cost 80",
        "eval 80 80",
        "eval 8",
        "eval 0X80",
        "eval 0x",
        "eval ",
        "eval 8080",
        "eval -80",
        "eval -- 80",
        "eval - 80",
        "eval --text=x 80",
        "eval --text --text 80",
        "eval --tex 80",
        "eval --cost= 80",
        "eval --cost -1 80",
        "eval --cost 1000000000001 80",
        "eval --cost 1 --cost 1 80",
        "evaluate 80",
    ];
    for line in lines {
        let outcome = run_on(alloc, line, "01")?;
        assert!(rt;
            outcome.status == 2 && outcome.written.as_slice() == b"words\n".as_slice(),
            "{line}"
        );
    }
    Ok(())
}

// A program that runs the first of its environment on the environment.
const CALL: &str = "ff02ff02ff0180";

#[test]
fn limits_of_a_run(rt: HostRuntime) -> Result<(), Fail> {
    let alloc = rt.alloc();
    let rows = [
        // Each turn puts the rest of the environment before itself.
        (
            "ffff02ff02ffff04ff02ffff04ff03ff0380808080",
            "0 spent pairs\n",
        ),
        // Each turn makes the rest of the environment twice as long.
        (
            "ffff02ff02ffff04ff02ffff0eff03ff0380808001",
            "0 spent bytes\n",
        ),
        // Each turn calls itself for an operand.
        ("ffff20ffff02ff02ff01808080", "0 spent depth\n"),
    ];
    for (env, text) in rows {
        let found = told(alloc, env, CALL)?;
        assert!(rt; found.as_str() == text, "{env}: {found}");
    }
    Ok(())
}

// A program that turns its environment to true or false again and again.
fn nested(alloc: Global, depth: usize) -> Result<String, Fail> {
    let mut program = String::new(alloc);
    for _ in 0..depth {
        program.push_str("ff20ff")?;
    }
    program.push_str("01")?;
    for _ in 0..depth {
        program.push_str("80")?;
    }
    Ok(program)
}

#[test]
fn deep_programs(rt: HostRuntime) -> Result<(), Fail> {
    let alloc = rt.alloc();
    for (depth, text) in [
        (500_000, "0 value 80 cost 100500044\n"),
        (1_048_576, "0 value 80 cost 210763820\n"),
        (1_048_577, "0 spent depth\n"),
    ] {
        let program = nested(alloc, depth)?;
        let found = told(alloc, "80", &program)?;
        assert!(rt; found.as_str() == text, "{depth}: {found}");
    }
    Ok(())
}

// An atom of this many zeros behind its prefix.
fn zeros(alloc: Global, prefix: &str, length: usize) -> Result<String, Fail> {
    let mut text = String::from_str(alloc, prefix)?;
    for _ in 0..length {
        text.push_str("00")?;
    }
    Ok(text)
}

#[test]
fn values_that_are_too_long(rt: HostRuntime) -> Result<(), Fail> {
    let alloc = rt.alloc();
    let env = zeros(alloc, "f0fffffb", 16_777_211)?;
    let found = told(alloc, &env, "ff04ff01ff0180")?;
    assert_eq!(rt; found.len(), 2 + 6 + 2 * 33_554_431 + 10);
    let env = zeros(alloc, "f0fffffc", 16_777_212)?;
    let found = told(alloc, &env, "ff04ff01ff0180")?;
    assert_eq!(rt; found.as_str(), "0 value too-long cost 139\n");
    Ok(())
}

#[test]
fn faults_of_source_and_sink(rt: HostRuntime) -> Result<(), Fail> {
    let alloc = rt.alloc();
    let arguments = words(alloc, "eval ff0580")?;
    for (reads, writes, status, text) in [
        (0, 9, 3, "read fault\n"),
        (1, 9, 3, "read fault\n"),
        (9, 0, 4, ""),
        (0, 0, 3, ""),
        (9, 9, 0, "value 06 cost 824\n"),
    ] {
        let bytes = Vec::from_slice(alloc, b"ff10ff02ffff010180")?;
        let mut source = MemorySource::new(bytes, 16, vec![in alloc; reads]?);
        let mut sink = MemorySink::new(alloc, vec![in alloc; writes]?);
        assert_eq!(rt; run_with(alloc, &arguments, &mut source, &mut sink), status);
        assert!(rt;
            sink.bytes() == text.as_bytes(),
            "read {reads}, write {writes}"
        );
    }
    Ok(())
}

#[test]
fn wrong_words_read_nothing(rt: HostRuntime) -> Result<(), Fail> {
    let alloc = rt.alloc();
    let arguments = words(alloc, "eval 8")?;
    let bytes = Vec::from_slice(alloc, b"01")?;
    let mut source = MemorySource::new(bytes, 16, vec![in alloc; 0]?);
    let mut sink = MemorySink::new(alloc, Vec::new(alloc));
    assert_eq!(rt; run_with(alloc, &arguments, &mut source, &mut sink), 2);
    assert_eq!(rt; sink.bytes(), b"words\n".as_slice());
    Ok(())
}
