// Inputs that are no session of the form that is built.
use super::*;

fn is_unbuilt(alloc: Global, input: &str) -> Result<bool, Fail> {
    writes(alloc, input, 1, "unbuilt\n")
}

// Whether the first example is unbuilt with this text in place of that one.
fn is_unbuilt_with(alloc: Global, old: &str, new: &str) -> Result<bool, Fail> {
    let asked = look_up(alloc, ZERO)?;
    let input = example(alloc, &asked)?;
    if !input.contains(old) {
        return Ok(false);
    }
    let changed = input.replace(alloc, old, new)?;
    writes(alloc, &changed, 1, "unbuilt\n")
}

#[test]
fn lines_that_are_no_objects(rt: HostRuntime) -> Result<(), Fail> {
    let alloc = rt.alloc();
    let payment = payment(alloc)?;
    for line in ["", " ", "[]", "1", "{", "{}", HEADER] {
        let input = format!(in alloc; "{HEADER}\n{line}\n{payment}\n")?;
        assert!(rt; is_unbuilt(alloc, &input)?, "{line}");
    }
    assert!(rt; is_unbuilt(alloc, "")?);
    assert!(rt; is_unbuilt(alloc, &payment)?);
    Ok(())
}

#[test]
fn members_that_are_not_built(rt: HostRuntime) -> Result<(), Fail> {
    let alloc = rt.alloc();
    let rows = [
        ("\"seconds\":0", "\"seconds\":0,\"lanes\":1"),
        ("\"seconds\":0", "\"seconds\":0,\"max_cost\":11000000000"),
        ("\"seconds\":0", "\"seconds\":0,\"pool_cost\":110000000000"),
        ("\"seconds\":0", "\"seconds\":0,\"reward\":0"),
        ("\"seconds\":0", "\"seconds\":-1"),
        ("\"seconds\":0", "\"second\":0"),
        ("\"session\":1", "\"session\":2"),
        ("\"genesis\":\"11", "\"genesis\":\"0x11"),
        ("\"genesis\":\"11", "\"genesis\":\"1"),
        ("\"puzzle_reveal\":\"", "\"puzzle_reveal\":\"0x"),
        ("\"puzzle_reveal\":\"", "\"puzzle_reveal\":\"@p"),
        ("\"do\":\"admit\"", "\"do\":\"admit\",\"lane\":0"),
        ("\"do\":\"coin\"", "\"do\":\"coin\",\"lane\":0"),
        ("\"do\":\"coin\"", "\"do\":\"admit\""),
        ("\"do\":\"coin\"", "\"do\":\"peak\""),
        ("\"do\":\"admit\"", "\"do\":\"coin\""),
        ("\"amount\":1000", "\"amount\":1000.0"),
        ("\"solution\":\"80\"", "\"solution\":\"8080\""),
        ("\"solution\":\"80\"", "\"solution\":\"8101\""),
        ("\"solution\":\"80\"", "\"answer\":\"80\""),
        (
            "\"solution\":\"80\"}]",
            "\"solution\":\"80\"}],\"attested\":[[\"00\",\"00\"]]",
        ),
        (
            "\"solution\":\"80\"}]",
            "\"solution\":\"80\"}],\"attested\":{}",
        ),
        ("[{\"coin\":", "[],\"spends\":[{\"coin\":"),
    ];
    for (old, new) in rows {
        assert!(rt; is_unbuilt_with(alloc, old, new)?, "{new}");
    }
    Ok(())
}

#[test]
fn lines_of_other_kinds_and_orders(rt: HostRuntime) -> Result<(), Fail> {
    let alloc = rt.alloc();
    let payment = payment(alloc)?;
    let coin = coin(alloc, ZERO, PAYMENT_HASH, 1000)?;
    let coin = format!(in alloc; "{{\"coin\":{coin}}}")?;
    let asked = look_up(alloc, ZERO)?;
    let module = "{\"module\":\"m\",\"source\":\"(mod () 1)\"}";
    let singleton = format!(in alloc; "{{\"singleton\":\"{ZERO}\"}}")?;
    let rows = [
        format!(in alloc; "{HEADER}\n{module}\n{coin}\n{payment}\n")?,
        format!(in alloc; "{HEADER}\n{singleton}\n{coin}\n{payment}\n")?,
        format!(in alloc; "{HEADER}\n{coin}\n{coin}\n{payment}\n")?,
        format!(in alloc; "{HEADER}\n{coin}\n")?,
        format!(in alloc; "{HEADER}\n{coin}\n{asked}\n")?,
        format!(in alloc; "{HEADER}\n{coin}\n{payment}\n{payment}\n")?,
        format!(in alloc; "{HEADER}\n{coin}\n{asked}\n{payment}\n")?,
        format!(in alloc; "{HEADER}\n{payment}\n{coin}\n")?,
        format!(in alloc; "{coin}\n{HEADER}\n{payment}\n")?,
    ];
    for input in &rows {
        assert!(rt; is_unbuilt(alloc, input)?, "{input}");
    }
    Ok(())
}

// The input of one spend of the coin of 1,000 with this puzzle.
fn with_puzzle(alloc: Global, puzzle: &str) -> Result<String, AllocError> {
    let coin = coin(alloc, ZERO, PAYMENT_HASH, 1000)?;
    let spend = spend(alloc, &coin, puzzle)?;
    let admit = admit(alloc, &spend)?;
    format!(in alloc; "{HEADER}\n{admit}\n")
}

#[test]
fn puzzles_that_are_no_payments(rt: HostRuntime) -> Result<(), Fail> {
    let alloc = rt.alloc();
    let short = "9dcf97a184f32623d11a73124ceb99a5709b083721e878a16d78f596718ba7";
    let rows = [
        format!(in alloc; "01")?,
        format!(in alloc; "80")?,
        format!(in alloc; "ff02ffff33ffa0{ONE}ff01808080")?,
        format!(in alloc; "ff0101")?,
        // another condition
        format!(in alloc; "ff01ffff34ffa0{ONE}ff018080")?,
        // a hash of 31 bytes
        format!(in alloc; "ff01ffff33ff9f{short}ff018080")?,
        // an amount that isn't the shortest, a negative one, one of 2^64
        format!(in alloc; "ff01ffff33ffa0{ONE}ff8200018080")?,
        format!(in alloc; "ff01ffff33ffa0{ONE}ff81ff8080")?,
        format!(in alloc; "ff01ffff33ffa0{ONE}ff890100000000000000008080")?,
        // two operands too few, one too many, an improper list
        format!(in alloc; "ff01ffff338080")?,
        format!(in alloc; "ff01ffff33ffa0{ONE}ff01ff808080")?,
        format!(in alloc; "ff01ffff33ffa0{ONE}ff018001")?,
        // two coins of one hash and amount
        format!(in alloc; "ff01ffff33ffa0{ONE}ff0580ffff33ffa0{ONE}ff058080")?,
        // more than is spent
        format!(in alloc; "ff01ffff33ffa0{ONE}ff8203e98080")?,
    ];
    for puzzle in &rows {
        let input = with_puzzle(alloc, puzzle)?;
        assert!(rt; writes(alloc, &input, 1, "unbuilt\n")?, "{puzzle}");
    }
    let all = format!(in alloc; "ff01ffff33ffa0{ONE}ff8203e88080")?;
    let input = with_puzzle(alloc, &all)?;
    assert!(rt; writes(alloc, &input, 0, "0 0 0 refused 3 0\nend 1\n")?);
    Ok(())
}

#[test]
fn created_coins_that_are_there(rt: HostRuntime) -> Result<(), Fail> {
    let alloc = rt.alloc();
    let payment = payment(alloc)?;
    let first = "70e0b43d8c460ca5e619e8fa7a871989cb1939b7c4930d4f2d86ab376c2581e6";
    let created = coin(alloc, first, ONE, 900)?;
    let input = format!(in alloc; "{HEADER}\n{{\"coin\":{created}}}\n{payment}\n")?;
    assert!(rt; is_unbuilt(alloc, &input)?);
    // Two spends of one coin make one coin twice.
    let coin = coin(alloc, ZERO, PAYMENT_HASH, 1000)?;
    let spend = spend(alloc, &coin, PAYMENT)?;
    let spends = format!(in alloc; "{spend},{spend}")?;
    let twice = admit(alloc, &spends)?;
    let input = format!(in alloc; "{HEADER}\n{twice}\n")?;
    assert!(rt; is_unbuilt(alloc, &input)?);
    let nothing = admit(alloc, "")?;
    let input = format!(in alloc; "{HEADER}\n{nothing}\n")?;
    assert!(rt; is_unbuilt(alloc, &input)?);
    Ok(())
}

// The first example with a member that makes it this long.
fn of_length(alloc: Global, length: usize) -> Result<String, AllocError> {
    let payment = payment(alloc)?;
    let mut input = format!(in alloc;
        "{HEADER}\n{payment}\n{{\"do\":\"coin\",\"id\":\"{ZERO}\",\"note\":\""
    )?;
    for _ in input.len() + 3..length {
        input.push('x')?;
    }
    input.push_str("\"}\n")?;
    Ok(input)
}

#[test]
fn the_longest_input(rt: HostRuntime) -> Result<(), Fail> {
    let alloc = rt.alloc();
    let longest = of_length(alloc, 65_536)?;
    assert_eq!(rt; longest.len(), 65_536);
    assert!(rt;
        writes(
            alloc,
            &longest,
            0,
            "0 0 0 refused 11 0\n1 0 1 coin none\nend 2\n"
        )?
    );
    let longer = of_length(alloc, 65_537)?;
    assert_eq!(rt; longer.len(), 65_537);
    assert!(rt; writes(alloc, &longer, 1, "unbuilt\n")?);
    Ok(())
}
