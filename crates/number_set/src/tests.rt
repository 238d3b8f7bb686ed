use crate::NumberSet;
use std::process::Abort;
use std::test::Fail;

#[test]
fn members_come_out_from_the_lowest(rt: HostRuntime) -> Result<(), Fail> {
    let mut set = NumberSet::new(rt.alloc(), 3)?;
    assert_eq!(rt; set.lowest(), None);
    set.insert(2);
    assert_eq!(rt; set.lowest(), Some(2));
    set.insert(0);
    set.insert(1);
    assert_eq!(rt; set.lowest(), Some(0));
    set.remove(0);
    assert_eq!(rt; set.lowest(), Some(1));
    set.remove(2);
    set.remove(1);
    assert_eq!(rt; set.lowest(), None);
    assert_eq!(rt; NumberSet::new(rt.alloc(), 0)?.lowest(), None);
    Ok(())
}
