use crate::{ByteList, ShortList};
use std::test::Fail;

/// A public name of one list, as crates give it.
type Numbers = ShortList<u32>;

#[test]
fn elements_stand_in_order(rt: HostRuntime) -> Result<(), Fail> {
    let mut numbers = Numbers::new(rt.alloc());
    numbers.push(rt.alloc(), 7)?;
    numbers.push(rt.alloc(), 5)?;
    assert_eq!(rt; numbers.as_slice(), [7, 5].as_slice());
    Ok(())
}

#[test]
fn copies_of_bytes_are_equal(rt: HostRuntime) -> Result<(), Fail> {
    let bytes = ByteList::from_vec([1, 2, 3].to_vec(rt.alloc())?);
    assert_eq!(rt; bytes.copy(rt.alloc())?, bytes);
    Ok(())
}
