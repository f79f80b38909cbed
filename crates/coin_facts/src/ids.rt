use crate::Hash32;
use small_lists::ShortList;

/// A list of ids, of which there are fewer than 2^32.
pub type Ids = ShortList<Hash32>;

#[cfg(test)]
mod tests {
    use super::*;
    use std::test::Fail;

    #[test]
    fn ids_stand_in_order(rt: HostRuntime) -> Result<(), Fail> {
        let first = Hash32 { bytes: [1; 32] };
        let second = Hash32 { bytes: [2; 32] };
        let mut ids = Ids::new(rt.alloc());
        ids.push(rt.alloc(), first)?;
        ids.push(rt.alloc(), second)?;
        assert_eq!(rt; ids.as_slice(), [first, second].as_slice());
        Ok(())
    }
}
