//! Recursive references of few structures, and of many on two paths each.

use crate::recursive;
use gds_reach::{Reference, are_within};
use std::alloc::{AllocError, Global};
use std::test::Fail;

/// The first recursive reference that structure 0 reaches.
fn found(alloc: Global, links: &[Vec<Option<u32>>]) -> Result<Option<Reference>, Fail> {
    if links.is_empty() || links.len() > 10_000 {
        return Err("none, or too many".into());
    }
    if !are_within(links) {
        return Err("a reference to what is not there".into());
    }
    Ok(recursive(alloc, links, 0)?)
}

fn at(structure: u32, place: usize) -> Option<Reference> {
    Some(Reference { structure, place })
}

// 1 and 2 refer to each other, and so do 4 and 5; 3 lies between them, on no circle.
#[test]
fn two_circles_with_what_lies_between(rt: HostRuntime) -> Result<(), Fail> {
    let alloc = rt.alloc();
    let mut links = Vec::new(alloc);
    links.push(vec![in alloc; Some(6), Some(3), Some(5)]?)?;
    links.push(vec![in alloc; Some(6), None, Some(3), Some(2), Some(2)]?)?;
    links.push(vec![in alloc; Some(1)]?)?;
    links.push(vec![in alloc; Some(5)]?)?;
    links.push(vec![in alloc; Some(5)]?)?;
    links.push(vec![in alloc; Some(6), Some(4)]?)?;
    links.push(Vec::new(alloc))?;
    assert_eq!(rt; found(alloc, &links)?, at(4, 0));
    links[6].push(Some(1))?;
    assert_eq!(rt; found(alloc, &links)?, at(1, 0));
    links[6].clear();
    links[0].push(Some(2))?;
    assert_eq!(rt; found(alloc, &links)?, at(1, 3));
    Ok(())
}

#[test]
fn a_structure_that_refers_to_itself(rt: HostRuntime) -> Result<(), Fail> {
    let alloc = rt.alloc();
    let mut links = Vec::new(alloc);
    links.push(vec![in alloc; Some(2)]?)?;
    links.push(vec![in alloc; Some(1), Some(0)]?)?;
    links.push(Vec::new(alloc))?;
    assert_eq!(rt; found(alloc, &links)?, None);
    links[0].push(Some(1))?;
    assert_eq!(rt; found(alloc, &links)?, at(0, 1));
    links[1].pop();
    assert_eq!(rt; found(alloc, &links)?, at(1, 0));
    Ok(())
}

/// Forty structures, each with two references to the one behind it, and the last.
fn chain(alloc: Global, last: Vec<Option<u32>>) -> Result<Vec<Vec<Option<u32>>>, AllocError> {
    let mut links = Vec::new(alloc);
    for structure in 0..40u32 {
        links.push(vec![in alloc; Some(structure + 1), Some(structure + 1)]?)?;
    }
    links.push(last)?;
    Ok(links)
}

#[test]
fn forty_structures_with_two_references_each(rt: HostRuntime) -> Result<(), Fail> {
    let alloc = rt.alloc();
    let links = chain(alloc, Vec::new(alloc))?;
    assert_eq!(rt; found(alloc, &links)?, None);
    let links = chain(alloc, vec![in alloc; Some(20)]?)?;
    assert_eq!(rt; found(alloc, &links)?, at(20, 0));
    Ok(())
}
