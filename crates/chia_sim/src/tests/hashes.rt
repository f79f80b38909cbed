// The command `hash`.
use super::*;

// The status and the text of `hash` on an input.
fn hashes(alloc: Global, input: &str, status: u8, text: &str) -> Result<bool, Fail> {
    let outcome = run_on(alloc, "hash", input)?;
    Ok(outcome.status == status && outcome.written.as_slice() == text.as_bytes())
}

#[test]
fn tree_hashes(rt: HostRuntime) -> Result<(), Fail> {
    let alloc = rt.alloc();
    let rows = [
        (
            "80",
            "4bf5122f344554c53bde2ebb8cd2b7e3d1600ad631c385a5d7cce23c7785459a\n",
        ),
        (
            " 0x01\r\n",
            "9dcf97a184f32623d11a73124ceb99a5709b083721e878a16d78f596718ba7b2\n",
        ),
        (
            "FF0180",
            "ba4484b961b7a2369d948d06c55b64bdbfaffb326bc13b490ab1215dd33d8d46\n",
        ),
    ];
    for (input, text) in rows {
        assert!(rt; hashes(alloc, input, 0, text)?, "{input}");
    }
    Ok(())
}

#[test]
fn inputs_that_are_no_tree(rt: HostRuntime) -> Result<(), Fail> {
    let alloc = rt.alloc();
    let rows = [
        ("8101", "input long-spelling 0\n"),
        ("ff01", "input cut\n"),
        ("fe", "input bad-prefix 0\n"),
        ("8080", "input left 1\n"),
        ("8", "input hex\n"),
        ("", "input cut\n"),
    ];
    for (input, text) in rows {
        assert!(rt; hashes(alloc, input, 1, text)?, "{input}");
    }
    Ok(())
}

#[test]
fn deep_trees(rt: HostRuntime) -> Result<(), Fail> {
    let alloc = rt.alloc();
    let mut input = String::new(alloc);
    for _ in 0..1_000_000 {
        input.push_str("ff")?;
    }
    assert!(rt; hashes(alloc, &input, 1, "input cut\n")?);
    for _ in 0..1_000_001 {
        input.push_str("80")?;
    }
    let outcome = run_on(alloc, "hash", &input)?;
    assert_eq!(rt; outcome.status, 0);
    assert_eq!(rt; outcome.written.len(), 65);
    Ok(())
}

#[test]
fn faults_of_source_and_sink(rt: HostRuntime) -> Result<(), Fail> {
    let alloc = rt.alloc();
    let arguments = words(alloc, "hash")?;
    for (reads, writes, status, text) in [
        (0, 9, 3, "read fault\n"),
        (1, 9, 3, "read fault\n"),
        (2, 9, 3, "read fault\n"),
        (9, 0, 4, ""),
        (0, 0, 3, ""),
    ] {
        let bytes = Vec::from_slice(alloc, b"ff0180")?;
        let mut source = MemorySource::new(bytes, 4, vec![in alloc; reads]?);
        let mut sink = MemorySink::new(alloc, vec![in alloc; writes]?);
        assert_eq!(rt; run_with(alloc, &arguments, &mut source, &mut sink), status);
        assert!(rt;
            sink.bytes() == text.as_bytes(),
            "read {reads}, write {writes}"
        );
    }
    Ok(())
}

#[test]
fn an_input_that_is_too_long(rt: HostRuntime) -> Result<(), Fail> {
    let alloc = rt.alloc();
    let arguments = words(alloc, "hash")?;
    for (length, status, text) in [
        (67_108_864, 1, "input left 1\n"),
        (67_108_865, 7, "too long\n"),
    ] {
        let bytes = vec![in alloc; b'0'; length]?;
        let mut source = MemorySource::new(bytes, 1_000_000, Vec::new(alloc));
        let mut sink = MemorySink::new(alloc, Vec::new(alloc));
        assert_eq!(rt; run_with(alloc, &arguments, &mut source, &mut sink), status);
        assert!(rt; sink.bytes() == text.as_bytes(), "{length} bytes");
    }
    Ok(())
}
