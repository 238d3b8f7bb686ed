//! References between few structures, and along long chains.

use crate::{Reference, are_within, live, missing, reached, too_deep};
use std::alloc::Global;
use std::test::Fail;

/// What structure 0 reaches, the first reference that names none, and the first that is too deep.
#[derive(Debug, Drop)]
struct Judged {
    reached: Vec<bool>,
    missing: Option<Reference>,
    too_deep: Option<Reference>,
}

fn judge(alloc: Global, links: &[Vec<Option<u32>>]) -> Result<Judged, Fail> {
    if links.is_empty() || links.len() > 10_000 {
        return Err("none, or too many".into());
    }
    if !are_within(links) {
        return Err("a reference to what is not there".into());
    }
    let reached = reached(alloc, links, 0)?;
    let missing = missing(links, &reached);
    let too_deep = too_deep(alloc, links, 0)?;
    Ok(Judged {
        reached,
        missing,
        too_deep,
    })
}

fn at(structure: u32, place: usize) -> Option<Reference> {
    Some(Reference { structure, place })
}

#[test]
fn what_is_reached_on_circles_too(rt: HostRuntime) -> Result<(), Fail> {
    let alloc = rt.alloc();
    let mut links = Vec::new(alloc);
    links.push(vec![in alloc; Some(1), Some(1)]?)?;
    links.push(vec![in alloc; Some(2)]?)?;
    links.push(vec![in alloc; Some(1), None]?)?;
    links.push(vec![in alloc; None, Some(0)]?)?;
    let found = judge(alloc, &links)?;
    assert_eq!(rt;
        found.reached.as_slice(),
        [true, true, true, false].as_slice()
    );
    assert_eq!(rt; found.missing, at(2, 1));
    assert_eq!(rt; found.too_deep, at(2, 0));
    Ok(())
}

#[test]
fn chains_of_sixty_four_and_sixty_five(rt: HostRuntime) -> Result<(), Fail> {
    let alloc = rt.alloc();
    for length in [64u32, 65] {
        let mut links = Vec::new(alloc);
        for structure in 0..length {
            links.push(vec![in alloc; Some(structure + 1)]?)?;
        }
        links.push(Vec::new(alloc))?;
        let found = judge(alloc, &links)?;
        let expected = if length == 65 { at(64, 0) } else { None };
        assert_eq!(rt; found.too_deep, expected);
    }
    Ok(())
}

fn living(alloc: Global, links: &[Vec<Option<u32>>], drawn: &[bool]) -> Result<Vec<bool>, Fail> {
    if links.len() > 10_000 || drawn.len() != links.len() {
        return Err("too many, or flags of others".into());
    }
    if !are_within(links) {
        return Err("a reference to what is not there".into());
    }
    Ok(live(alloc, links, drawn)?)
}

#[test]
fn forty_structures_with_two_references_each(rt: HostRuntime) -> Result<(), Fail> {
    let alloc = rt.alloc();
    let mut links = Vec::new(alloc);
    for structure in 0..40u32 {
        links.push(vec![in alloc; Some(structure + 1), Some(structure + 1)]?)?;
    }
    links.push(Vec::new(alloc))?;
    let mut drawn = vec![in alloc; false; 41]?;
    let none = living(alloc, &links, &drawn)?;
    assert!(rt; none.iter().all(|flag| !*flag));
    drawn[40] = true;
    let all = living(alloc, &links, &drawn)?;
    assert!(rt; all.iter().all(|flag| *flag));
    Ok(())
}
