use super::*;
use serde_json::Value;
use std::alloc::Global;
use std::test::Fail;

const KEY: &str =
    "0x777777777777777777777777777777777777777777777777777777777777777777777777777777777777777777777777";

// The first fault of a text's bundle, where no module is there.
fn fault(alloc: Global, text: &str) -> Result<Option<MemberFault>, Fail> {
    let codes = Codes::new(alloc);
    match Value::from_str(alloc, text) {
        Ok(value) => Ok(bundle(alloc, &value, &codes).err()),
        Err(_) => Ok(Some(MemberFault::OutOfMemory)),
    }
}

#[test]
fn bundles_and_their_first_faults(rt: HostRuntime) -> Result<(), Fail> {
    let rows = [
        ("{\"coin_spends\":[],\"aggregated_signature\":5}", None),
        (
            "{\"attested\":5}",
            Some(MemberFault::Missing(Member::CoinSpends)),
        ),
        (
            "{\"coin_spends\":[{},5]}",
            Some(MemberFault::Bad(Member::CoinSpends)),
        ),
        (
            "{\"coin_spends\":[{}],\"attested\":5}",
            Some(MemberFault::Missing(Member::Coin)),
        ),
        (
            "{\"coin_spends\":[],\"attested\":[[\"00\",\"\"]]}",
            Some(MemberFault::Bad(Member::Attested)),
        ),
    ];
    for (text, want) in rows {
        assert_eq!(rt; fault(rt.alloc(), text)?, want, "{text}");
    }
    Ok(())
}

#[test]
fn a_bundle_with_a_pair(rt: HostRuntime) -> Result<(), Fail> {
    let text = format!(in rt.alloc();
        "{{\"coin_spends\":[],\"attested\":[[\"{KEY}\",\"0aF0\"]]}}"
    )?;
    assert_eq!(rt; fault(rt.alloc(), &text)?, None);
    Ok(())
}

#[test]
fn no_code_is_there_at_first(rt: HostRuntime) {
    let codes = Codes::new(rt.alloc());
    assert!(rt; codes.code_of("one").is_none());
    assert!(rt; codes.is_empty());
    assert_eq!(rt; codes.len(), 0);
}

#[test]
fn names_have_letters_digits_and_two_marks(rt: HostRuntime) {
    let rows = [
        ("a", true),
        ("a-b_9", true),
        ("", false),
        ("A", false),
        ("a b", false),
    ];
    for (text, want) in rows {
        assert_eq!(rt; is_name(text), want, "{text}");
    }
}
