//! Each call of the lists once.

ghost use Rattle.std.specs.Prelude.{◌≡◌, []};

use lists::{List, ShortList};
use std::alloc::AllocError;
use std::test::Fail;

/// Appends 7 and 8, and makes the 8 a 9.
fn push_two(list: &mut List<u8>) -> Result<(), AllocError>
    requires { list.old ≡ [] }
{
    list.push(7)?;
    list.push(8)?;
    *list.get_mut(1) += 1;
    Ok(())
}

#[test]
fn lists_keep_their_values(rt: HostRuntime) -> Result<(), Fail> {
    let mut list = List::new(rt.alloc());
    assert!(rt; list.is_empty());
    push_two(&mut list)?;
    assert_eq!(rt; list.len(), 2);
    assert_eq!(rt;
        List::from_vec(list.into_vec()).as_slice(),
        [7, 9].as_slice()
    );
    Ok(())
}

/// Appends 0, 1 and 2.
fn push_three(list: &mut ShortList<u32, 2>) -> Result<(), AllocError> {
    for n in 0..3 {
        list.push(n)?;
    }
    Ok(())
}

#[test]
fn short_lists_keep_their_values(rt: HostRuntime) -> Result<(), Fail> {
    let mut short = ShortList::<u32, 2>::new(rt.alloc());
    assert!(rt; short.is_empty());
    push_three(&mut short)?;
    let copy = ShortList::<u32, 2>::from_slice(rt.alloc(), short.as_slice())?;
    assert_eq!(rt; copy.len(), 3);
    assert_eq!(rt; copy.as_slice(), [0, 1, 2].as_slice());
    Ok(())
}
