use super::*;
use std::test::Fail;

fn hash(byte: u8) -> Hash32 {
    Hash32 { bytes: [byte; 32] }
}

fn coin(amount: u64) -> Coin {
    Coin {
        parent: hash(0),
        puzzle_hash: hash(1),
        amount,
    }
}

#[test]
fn start_coins_are_found_by_their_ids(rt: HostRuntime) -> Result<(), Fail> {
    let alloc = rt.alloc();
    let mut store = Store::new(alloc, hash(7), 90);
    store.start_coin(alloc, coin(5))?;
    store.start_coin(alloc, coin(3))?;
    assert_eq!(rt; store.start_coin(alloc, coin(5)), Err(StartFault::Exists));
    assert_eq!(rt; store.start_coins(), [coin(5), coin(3)].as_slice());
    assert_eq!(rt; store.genesis(), hash(7));
    let peak = Peak {
        height: 0,
        hash: hash(7),
        seconds: 90,
    };
    assert_eq!(rt; store.peak(), peak);
    for amount in [3, 5] {
        let record = Record {
            coin: coin(amount),
            height: 0,
            seconds: 90,
            spent: None,
        };
        let found = store.look_up(&coin(amount).id()).copied();
        assert_eq!(rt; found, Some(record), "at {amount}");
    }
    assert_eq!(rt; store.look_up(&coin(4).id()).copied(), None);
    Ok(())
}
