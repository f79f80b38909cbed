use super::{
    ANY_COUNT, Row, code_of, conditions, find, find_name, name_of, operators, symbol_code,
};

const fn row(code: u8, name: &'static str) -> Row {
    Row {
        code,
        name,
        arity_low: 0,
        arity_high: ANY_COUNT,
        cost: 0,
        kind: 0,
    }
}

#[test]
fn finds_rows(rt: HostRuntime) {
    let rows = operators();
    for (code, place) in [
        (1, Some(0)),
        (15, None),
        (16, Some(14)),
        (27, Some(25)),
        (28, None),
        (34, Some(28)),
        (0, None),
        (255, None),
    ] {
        assert_eq!(rt; find(rows, code), place, "at {code}");
    }
    assert!(rt; find_name(rows, "sha256") == Some(10));
    assert!(rt; find_name(rows, "sha") == None);
    let few = [row(3, "same"), row(5, "same"), row(9, "other")];
    assert!(rt; find_name(&few, "same") == Some(0));
    assert!(rt; find_name(&few, "other") == Some(2));
    assert!(rt; rows[24].cost == 100 && rows[24].arity_high == ANY_COUNT);
}

#[test]
fn names_operators(rt: HostRuntime) {
    assert!(rt; name_of(10) == Some(">s"));
    assert!(rt; name_of(15) == None);
    assert!(rt; code_of("lognot") == Some(27));
    assert!(rt; code_of("softfork") == None);
    assert!(rt; symbol_code(b"lognot") == Some(27));
    assert!(rt; symbol_code(b"+\xff") == None);
}

#[test]
fn finds_conditions(rt: HostRuntime) {
    let rows = conditions();
    for (code, place) in [
        (1, Some(0)),
        (42, None),
        (43, Some(1)),
        (53, None),
        (67, Some(18)),
        (87, Some(33)),
        (88, None),
        (90, None),
    ] {
        assert_eq!(rt; find(rows, code), place, "at {code}");
    }
    assert!(rt; find_name(rows, "CREATE_COIN") == Some(9));
    assert!(rt; rows[9].cost == 1_800_000 && rows[9].arity_low == 2);
}
