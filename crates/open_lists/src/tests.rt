use crate::{Fault, OpenLists, Reach, TextForm};
use clvm_spec::ScanKind;
use std::test::Fail;

impl TextForm<u32> for u8 {
    ghost use Rattle.std.specs.Prelude.{None};

    ghost unknown = { λ _. None };

    fn unknown(&self) -> Option<u32> {
        None
    }
}

#[test]
fn a_list_ends_with_its_last_form(rt: HostRuntime) -> Result<(), Fail> {
    let mut lists: OpenLists<u8, u32> = OpenLists::new(rt.alloc());
    lists.open::<u8, u32>(rt.alloc(), 0)?;
    assert!(rt; lists.put::<u8, u32>(5, 1)?.is_none());
    lists.point::<u8, u32>(3)?;
    assert!(rt; lists.put::<u8, u32>(6, 5)?.is_none());
    let list = lists.close::<u8, u32>(6)?;
    assert_eq!(rt; list.forms.as_slice(), [5].as_slice());
    assert!(rt; matches!(list.reach, Reach::Last(3, 6)));
    assert!(rt; lists.is_empty());
    assert!(rt;
        matches!(
            lists.fault::<u8, u32>(ScanKind::Close, 7),
            Fault::At(ScanKind::Close, 7)
        )
    );
    Ok(())
}
