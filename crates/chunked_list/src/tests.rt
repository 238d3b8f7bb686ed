ghost use Rattle.std.specs.Prelude.{true, false};

use crate::{ChunkedList, Test};
use std::alloc::{AllocError, Global};
use std::test::Fail;

/// Passes everywhere.
struct Anywhere;

impl Test<u32> for Anywhere {
    ghost passed_by = { λ _ _. true };

    fn passes(&self, _item: &u32) -> bool {
        true
    }
}

/// Passes nowhere.
struct Nowhere;

impl Test<u32> for Nowhere {
    ghost passed_by = { λ _ _. false };

    fn passes(&self, _item: &u32) -> bool {
        false
    }
}

fn push(list: &mut ChunkedList<u32>, item: u32) -> Result<(), AllocError> {
    list.replace(&Nowhere, 0, &[item])
}

fn last(list: &ChunkedList<u32>, spare: &mut Vec<u32>) -> Result<Option<u32>, AllocError> {
    list.read(&Nowhere, &Nowhere, spare)
}

fn items(list: &ChunkedList<u32>, alloc: Global) -> Result<Vec<u32>, AllocError> {
    let mut items = Vec::new(alloc);
    list.read(&Anywhere, &Nowhere, &mut items)?;
    Ok(items)
}

#[test]
fn a_list_that_grows_at_its_end(rt: HostRuntime) -> Result<(), Fail> {
    let mut list = ChunkedList::new(rt.alloc());
    let mut spare = Vec::new(rt.alloc());
    let mut want = Vec::new(rt.alloc());
    assert_eq!(rt; last(&list, &mut spare)?, None);
    for item in 0..1000u32 {
        push(&mut list, item)?;
        want.push(item)?;
        assert_eq!(rt; last(&list, &mut spare)?, Some(item));
    }
    assert_eq!(rt; items(&list, rt.alloc())?.as_slice(), want.as_slice());
    assert_eq!(rt; spare.len(), 0);
    Ok(())
}
