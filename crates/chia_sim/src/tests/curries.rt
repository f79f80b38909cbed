// The command `curry`.
use super::*;

// What `curry` writes with these words behind it, on a program, with its status.
fn told(alloc: Global, arguments: &str, program: &str) -> Result<String, Fail> {
    let outcome = run_on(alloc, arguments, program)?;
    let status = outcome.status;
    let written = String::from_utf8(outcome.written)?;
    Ok(format!(in alloc; "{status} {written}")?)
}

#[test]
fn codes_with_their_arguments(rt: HostRuntime) -> Result<(), Fail> {
    let alloc = rt.alloc();
    let rows = [
        (
            "curry 05",
            "ff10ff02ffff010180",
            "0 ff02ffff01ff10ff02ffff010180ffff04ffff0105ff018080\n",
        ),
        (
            "curry 0x05",
            " 0xFF10ff02ffff010180\r\n",
            "0 ff02ffff01ff10ff02ffff010180ffff04ffff0105ff018080\n",
        ),
        ("curry", "02", "0 ff02ffff0102ff0180\n"),
        (
            "curry 80 ff0102",
            "02",
            "0 ff02ffff0102ffff04ffff0180ffff04ffff01ff0102ff01808080\n",
        ),
        ("curry 05", "8101", "1 input long-spelling 0\n"),
        ("curry 05", "ff01", "1 input cut\n"),
        ("curry", "0xfe", "1 input bad-prefix 0\n"),
        ("curry", "8080", "1 input left 1\n"),
        ("curry", "8", "1 input hex\n"),
        ("curry", "", "1 input cut\n"),
    ];
    for (arguments, program, text) in rows {
        let found = told(alloc, arguments, program)?;
        assert!(rt; found.as_str() == text, "{arguments} of {program}: {found}");
    }
    Ok(())
}

#[test]
fn words_that_are_no_curry(rt: HostRuntime) -> Result<(), Fail> {
    let alloc = rt.alloc();
    let lines = [
        "curry 8",
        "curry 05 0X80",
        "curry 0x",
        "curry ",
        "curry 8080",
        "curry 8101",
        "curry -05",
        "curry -- 05",
        "curry 05 -",
        "curry --text 05",
        "Curry 05",
    ];
    for line in lines {
        let found = told(alloc, line, "01")?;
        assert!(rt; found.as_str() == "2 words\n", "{line}: {found}");
    }
    Ok(())
}

#[test]
fn sixty_four_arguments(rt: HostRuntime) -> Result<(), Fail> {
    let alloc = rt.alloc();
    let mut line = String::from_str(alloc, "curry")?;
    let mut code = String::from_str(alloc, "0 ff02ffff0102ff")?;
    for _ in 0..64 {
        line.push_str(" 05")?;
        code.push_str("ff04ffff0105ff")?;
    }
    code.push_str("01")?;
    for _ in 0..64 {
        code.push_str("80")?;
    }
    code.push_str("80\n")?;
    let found = told(alloc, &line, "02")?;
    assert!(rt; found.as_str() == code.as_str(), "{found}");
    line.push_str(" 05")?;
    let found = told(alloc, &line, "02")?;
    assert!(rt; found.as_str() == "2 words\n", "{found}");
    Ok(())
}

// The hexadecimal of an atom of that many zero bytes, by its four bytes of prefix.
fn zeros(alloc: Global, prefix: &str, count: usize) -> Result<String, Fail> {
    let mut digits = Vec::from_slice(alloc, prefix.as_bytes())?;
    for _ in 0..count {
        digits.extend_from_slice(b"00")?;
    }
    Ok(String::from_utf8(digits)?)
}

// Without arguments the code has eight bytes more than the program.
#[test]
fn a_code_that_is_too_long(rt: HostRuntime) -> Result<(), Fail> {
    let program = zeros(rt.alloc(), "f1fffff5", 33_554_421)?;
    let found = told(rt.alloc(), "curry", &program)?;
    assert_eq!(rt; found.as_str(), "0 too-long\n");
    Ok(())
}

#[test]
fn faults_of_source_and_sink(rt: HostRuntime) -> Result<(), Fail> {
    let alloc = rt.alloc();
    let arguments = words(alloc, "curry 05")?;
    for (reads, writes, status, text) in [
        (0, 9, 3, "read fault\n"),
        (1, 9, 3, "read fault\n"),
        (9, 0, 4, ""),
        (0, 0, 3, ""),
        (9, 9, 0, "ff02ffff0102ffff04ffff0105ff018080\n"),
    ] {
        let bytes = Vec::from_slice(alloc, b"0x02")?;
        let mut source = MemorySource::new(bytes, 3, vec![in alloc; reads]?);
        let mut sink = MemorySink::new(alloc, vec![in alloc; writes]?);
        assert_eq!(rt; run_with(alloc, &arguments, &mut source, &mut sink), status);
        assert!(rt;
            sink.bytes() == text.as_bytes(),
            "read {reads}, write {writes}"
        );
    }
    Ok(())
}
