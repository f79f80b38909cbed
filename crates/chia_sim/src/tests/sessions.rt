use super::*;

const FOUND: &str =
    "1 0 1 coin 0000000000000000000000000000000000000000000000000000000000000000 8009c552ce67831735d9e30ab7d2a637572438a11365ca9ea008a894176e774f 1000 0 0 -\n";

const ASKED: &str = "70e0b43d8c460ca5e619e8fa7a871989cb1939b7c4930d4f2d86ab376c2581e6";

#[test]
fn the_first_example(rt: HostRuntime) -> Result<(), Fail> {
    let alloc = rt.alloc();
    let asked = look_up(alloc, ASKED)?;
    let input = example(alloc, &asked)?;
    let text = format!(in alloc; "{ADMITTED}{FOUND}end 2\n")?;
    assert!(rt; writes(alloc, &input, 0, &text)?);
    Ok(())
}

#[test]
fn a_coin_that_is_not_there(rt: HostRuntime) -> Result<(), Fail> {
    let alloc = rt.alloc();
    let payment = payment(alloc)?;
    let asked = look_up(alloc, ASKED)?;
    let input = format!(in alloc; "{HEADER}\n{payment}\n{asked}\n")?;
    let text = "0 0 0 refused 11 0\n1 0 1 coin none\nend 2\n";
    assert!(rt; writes(alloc, &input, 0, text)?);
    Ok(())
}

#[test]
fn a_coin_of_another_puzzle(rt: HostRuntime) -> Result<(), Fail> {
    let alloc = rt.alloc();
    let coin = coin(alloc, ZERO, ONE, 1000)?;
    let spend = spend(alloc, &coin, PAYMENT)?;
    let admit = admit(alloc, &spend)?;
    let input = format!(in alloc; "{HEADER}\n{{\"coin\":{coin}}}\n{admit}\n")?;
    assert!(rt; writes(alloc, &input, 0, "0 0 0 refused 3 0\nend 1\n")?);
    Ok(())
}

#[test]
fn a_coin_that_is_spent_twice(rt: HostRuntime) -> Result<(), Fail> {
    let alloc = rt.alloc();
    let coin = coin(alloc, ZERO, NOTHING_HASH, 1000)?;
    let spend = spend(alloc, &coin, NOTHING)?;
    let spends = format!(in alloc; "{spend},{spend}")?;
    let admit = admit(alloc, &spends)?;
    let input = format!(in alloc; "{HEADER}\n{{\"coin\":{coin}}}\n{admit}\n")?;
    assert!(rt; writes(alloc, &input, 0, "0 0 0 refused 2 1\nend 1\n")?);
    Ok(())
}

#[test]
fn a_coin_that_the_bundle_makes(rt: HostRuntime) -> Result<(), Fail> {
    let alloc = rt.alloc();
    let hash = "56acb3c3cd4bd4ad6202cb5c786ccafbd641f7baa0b24e462ec09e49c9fa16a6";
    let puzzle =
        "ff01ffff33ffa0ba4484b961b7a2369d948d06c55b64bdbfaffb326bc13b490ab1215dd33d8d46ff8201908080";
    let first = coin(alloc, ZERO, hash, 1000)?;
    let id = "6cf4b2b0899bfd1457a8982473ccc9d7491fec82a328c6e7750099b63f1aebc7";
    let second = coin(alloc, id, NOTHING_HASH, 400)?;
    let paying = spend(alloc, &first, puzzle)?;
    let paid = spend(alloc, &second, NOTHING)?;
    let spends = format!(in alloc; "{paying},{paid}")?;
    let admit = admit(alloc, &spends)?;
    let input = format!(in alloc; "{HEADER}\n{{\"coin\":{first}}}\n{admit}\n")?;
    let text =
        "0 0 0 admitted 611fdfe6f0f78f1e43a64753c6e8591cc7b9c827d18c88776de6e975a8d26146 1000 3468040\nend 1\n";
    assert!(rt; writes(alloc, &input, 0, text)?);
    Ok(())
}

#[test]
fn many_coins_and_spends(rt: HostRuntime) -> Result<(), Fail> {
    let alloc = rt.alloc();
    let mut lines = String::new(alloc);
    let mut spends = String::new(alloc);
    for amount in 1..141u64 {
        let coin = coin(alloc, ZERO, NOTHING_HASH, amount)?;
        let spend = spend(alloc, &coin, NOTHING)?;
        write!(lines, "{{\"coin\":{coin}}}\n")?;
        if amount > 1 {
            spends.push(',')?;
        }
        spends.push_str(&spend)?;
    }
    let admit = admit(alloc, &spends)?;
    let input = format!(in alloc; "{HEADER}\n{lines}{admit}")?;
    let text =
        "0 0 0 admitted f57dd764b6a738d5f5af66963de970f8841e5a4b6bb8b88861f19ecf3f567b95 9870 74294800\nend 1\n";
    assert!(rt; writes(alloc, &input, 0, text)?);
    Ok(())
}

// The puzzle that pays 1 to 500 to the puzzle 01.
fn five_hundred_coins(alloc: Global) -> Result<String, AllocError> {
    let mut puzzle = String::from_str(alloc, "ff01")?;
    for amount in 1..501u64 {
        if amount < 128 {
            write!(puzzle, "ffff33ffa0{ONE}ff{amount:02x}80")?;
        } else {
            write!(puzzle, "ffff33ffa0{ONE}ff82{amount:04x}80")?;
        }
    }
    puzzle.push_str("80")?;
    Ok(puzzle)
}

#[test]
fn many_created_coins(rt: HostRuntime) -> Result<(), Fail> {
    let alloc = rt.alloc();
    let hash = "f60f261a0e6f509aec96f4631e896a5479dedde90d894f11497150e74775536a";
    let coin = coin(alloc, ZERO, hash, 200_000)?;
    let puzzle = five_hundred_coins(alloc)?;
    let spend = spend(alloc, &coin, &puzzle)?;
    let admit = admit(alloc, &spend)?;
    let input = format!(in alloc; "{HEADER}\n{{\"coin\":{coin}}}\n{admit}\n")?;
    let text =
        "0 0 0 admitted 9e2cbdaf03632e8b83a59c91d688ae50ec02d71c762cee0c52dcc038fbca8e3a 74750 1149576020\nend 1\n";
    assert!(rt; writes(alloc, &input, 0, text)?);
    Ok(())
}
