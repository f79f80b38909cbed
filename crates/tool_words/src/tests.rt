use super::command;
use super::said::{Command, WordsFault};
use std::alloc::Global;
use std::test::Fail;

// What a command's words say.
fn told(alloc: Global, said: Result<Command, WordsFault>) -> Result<String, Fail> {
    let text = match said {
        Ok(Command::Session) => String::from_str(alloc, "session")?,
        Ok(Command::Hash) => String::from_str(alloc, "hash")?,
        Ok(Command::Eval { cost, as_text, env }) => {
            let style = if as_text { "text" } else { "digits" };
            let bytes = env.as_slice();
            format!(in alloc; "eval {cost} {style} {bytes:?}")?
        }
        Ok(Command::Curry { arguments }) => {
            let mut text = String::from_str(alloc, "curry")?;
            for word in arguments.as_slice() {
                let bytes = word.as_slice();
                write!(text, " {bytes:?}")?;
            }
            text
        }
        Err(WordsFault::Words) => String::from_str(alloc, "words")?,
        Err(WordsFault::OutOfMemory) => String::from_str(alloc, "memory")?,
    };
    Ok(text)
}

fn words_of(alloc: Global, line: &str) -> Result<Vec<String>, Fail> {
    let mut words = Vec::new(alloc);
    for word in line.split_whitespace() {
        words.push(String::from_str(alloc, word)?)?;
    }
    Ok(words)
}

// What the words of a line say.
fn said(alloc: Global, line: &str) -> Result<String, Fail> {
    let words = words_of(alloc, line)?;
    told(alloc, command(alloc, words.as_slice()))
}

// What `eval` with this word behind it says.
fn said_of(alloc: Global, word: &str) -> Result<String, Fail> {
    let mut words = words_of(alloc, "eval")?;
    words.push(String::from_str(alloc, word)?)?;
    told(alloc, command(alloc, words.as_slice()))
}

#[test]
fn each_line_says_its_command(rt: HostRuntime) -> Result<(), Fail> {
    let table = [
        ("session", "session"),
        ("hash", "hash"),
        ("", "words"),
        ("Hash", "words"),
        ("hash --", "words"),
        ("session session", "words"),
        ("eval 80", "eval 11000000000 digits [128]"),
        ("eval --cost 80 5", "words"),
        ("eval --cost 80 05", "eval 80 digits [5]"),
        ("eval --cost=0 80", "eval 0 digits [128]"),
        ("eval 80 --text", "eval 11000000000 text [128]"),
        ("eval --text --cost 007 ff0180", "eval 7 text [255, 1, 128]"),
        (
            "eval --cost 1000000000000 80",
            "eval 1000000000000 digits [128]",
        ),
        (
            "eval --cost 00000001000000000000 80",
            "eval 1000000000000 digits [128]",
        ),
        ("eval --cost 1000000000001 80", "words"),
        ("eval --cost 18446744073709551616 80", "words"),
        ("eval --cost 99999999999999999999 80", "words"),
        ("eval --cost 000000000000000000005 80", "words"),
        ("eval --cost= 80", "words"),
        ("eval --cost -1 80", "words"),
        ("eval --cost +1 80", "words"),
        ("eval --text=x 80", "words"),
        ("eval --text --text 80", "words"),
        ("eval --cost 1 --cost 1 80", "words"),
        ("eval --tex 80", "words"),
        ("eval --cos 1 80", "words"),
        ("eval -80", "words"),
        ("eval -- 80", "words"),
        ("eval 80 80", "words"),
        ("eval", "words"),
        ("eval --cost 80", "words"),
        ("Eval 80", "words"),
        ("curry", "curry"),
        ("curry 05", "curry [5]"),
        ("curry 05 ff0180 0x80", "curry [5] [255, 1, 128] [128]"),
        ("curry 05 8", "words"),
        ("curry 8080 05", "words"),
        ("curry --text 05", "words"),
        ("curry -- 05", "words"),
        ("curry 05 -", "words"),
    ];
    for (line, expected) in table {
        let found = said(rt.alloc(), line)?;
        assert!(rt; found.as_str() == expected, "{line}: {found}");
    }
    Ok(())
}

#[test]
fn an_environment_is_one_spelled_tree(rt: HostRuntime) -> Result<(), Fail> {
    let table = [
        ("0x80", "eval 11000000000 digits [128]"),
        ("fF0180", "eval 11000000000 digits [255, 1, 128]"),
        ("0X80", "words"),
        ("", "words"),
        ("0x", "words"),
        ("8", "words"),
        ("8g", "words"),
        (" 80", "words"),
        ("80\n", "words"),
        ("8080", "words"),
        ("8101", "words"),
        ("ff01", "words"),
        ("fe", "words"),
    ];
    for (word, expected) in table {
        let found = said_of(rt.alloc(), word)?;
        assert!(rt; found.as_str() == expected, "{word}: {found}");
    }
    Ok(())
}

// What `curry` with so many arguments says.
fn said_of_many(alloc: Global, count: u32) -> Result<String, Fail> {
    let mut words = words_of(alloc, "curry")?;
    for _ in 0..count {
        words.push(String::from_str(alloc, "01")?)?;
    }
    told(alloc, command(alloc, words.as_slice()))
}

#[test]
fn sixty_four_arguments_are_the_most(rt: HostRuntime) -> Result<(), Fail> {
    let most = said_of_many(rt.alloc(), 64)?;
    assert!(rt; most.len() == 5 + 64 * 4, "{most}");
    assert!(rt; said_of_many(rt.alloc(), 65)?.as_str() == "words");
    Ok(())
}
