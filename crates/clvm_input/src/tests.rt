use super::*;
use clvm_tree::Trees;
use std::alloc::Global;
use std::test::Fail;

fn fault(alloc: Global, input: &str) -> Result<Option<InputFault>, Fail> {
    if input.len() > 1_000 {
        return Ok(None);
    }
    let input = Vec::from_slice(alloc, input.as_bytes())?;
    Ok(read_input(alloc, &mut Trees::new(alloc), input).err())
}

#[test]
fn inputs_and_their_faults(rt: HostRuntime) -> Result<(), Fail> {
    let rows = [
        ("80", None),
        ("0x80", None),
        (" \t\r\n0xFF01Ff0280\r\n\t ", None),
        ("", Some(Fault::Cut)),
        (" \n", Some(Fault::Cut)),
        ("0x", Some(Fault::Cut)),
        ("ff01", Some(Fault::Cut)),
        ("0X80", Some(Fault::Hex)),
        ("0x 80", Some(Fault::Hex)),
        ("80 80", Some(Fault::Hex)),
        ("8", Some(Fault::Hex)),
        ("8g", Some(Fault::Hex)),
        ("80\u{c}", Some(Fault::Hex)),
        ("8101", Some(Fault::LongSpelling(0))),
        ("ff018101", Some(Fault::LongSpelling(2))),
        ("fe", Some(Fault::BadPrefix(0))),
        ("0xff01fe", Some(Fault::BadPrefix(2))),
        ("8080", Some(Fault::Left(1))),
        ("ff010280", Some(Fault::Left(3))),
    ];
    for (input, want) in rows {
        assert_eq!(rt;
            fault(rt.alloc(), input)?,
            want.map(InputFault::Faulty),
            "{input}"
        );
    }
    Ok(())
}

// The bytes that a word stands for, in hexadecimal.
fn word_bytes(alloc: Global, text: &str) -> Result<String, Fail> {
    match read_word(alloc, text.as_bytes())? {
        Some(word) => Ok(hex::encode(alloc, word.as_slice())?),
        None => Ok(String::from_str(alloc, "none")?),
    }
}

#[test]
fn words_are_one_spelled_tree(rt: HostRuntime) -> Result<(), Fail> {
    let rows = [
        ("80", "80"),
        ("0x80", "80"),
        ("0xFF01Ff0280", "ff01ff0280"),
        ("", "none"),
        ("0x", "none"),
        ("0X80", "none"),
        (" 80", "none"),
        ("80\n", "none"),
        ("8 0", "none"),
        ("8", "none"),
        ("8g", "none"),
        ("8101", "none"),
        ("ff01", "none"),
        ("fe", "none"),
        ("8080", "none"),
    ];
    for (text, want) in rows {
        let got = word_bytes(rt.alloc(), text)?;
        assert!(rt; got.as_str() == want, "{text}: {got}");
    }
    Ok(())
}

#[test]
fn words_are_read_among_other_trees(rt: HostRuntime) -> Result<(), Fail> {
    let mut trees = Trees::new(rt.alloc());
    let text = b"0xFF0102".as_slice();
    let word = read_word(rt.alloc(), text)?.expect(&rt, "a word");
    assert!(rt; word.as_slice().len() < 100);
    let node = word.read(rt.alloc(), &mut trees)?;
    assert!(rt; trees.write(rt.alloc(), node, 100)?.as_slice() == b"\xff\x01\x02".as_slice());
    Ok(())
}

// How many words these are.
fn count(alloc: Global, texts: &[&str]) -> Result<Option<usize>, Fail> {
    match read_words(alloc, texts)? {
        Some(words) => Ok(Some(words.as_slice().len())),
        None => Ok(None),
    }
}

#[test]
fn several_words_are_words_each(rt: HostRuntime) -> Result<(), Fail> {
    assert!(rt; count(rt.alloc(), &[])? == Some(0));
    assert!(rt; count(rt.alloc(), &["80", "0x05", "ff0102"])? == Some(3));
    assert!(rt; count(rt.alloc(), &["80", "8080"])? == None);
    assert!(rt; count(rt.alloc(), &["", "80"])? == None);
    Ok(())
}
