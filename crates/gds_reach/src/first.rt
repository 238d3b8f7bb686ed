//! The first references of some kind.

ghost use Rattle.std.specs.Prelude.{◌≡◌, ◌<◌, ◌≤◌, ◌^◌, ℕ, MatchOption, None, Some, length, slice_get};
ghost use Rattle.gds_reach.specs.References.{Reaches, Tell};
ghost use Rattle.gds_reach.specs.Facts.{Finds, IsFirstPlace, IsMissing};

use crate::Reference;

/// The first reference in a structure that the primary reaches which names none of the structures.
pub fn missing(links: &[Vec<Option<u32>>], reached: &[bool]) -> Option<Reference>
    requires few { length links.now ≤ 2 ^ 32 }
    requires all { length reached.now ≡ length links.now }
    ensures { (primary : ℕ) → Tell links.now (Reaches links.now primary) reached.now
        → Finds (IsMissing links.now primary) result }
{
    for structure in 0..links.len() {
        if reached[structure] {
            if let Some(place) = nameless_in(&links[structure]) {
                return Some(Reference {
                    structure: structure as u32,
                    place,
                });
            }
        }
    }
    None
}

/// The first place at which no structure is named.
fn nameless_in(named: &[Option<u32>]) -> Option<usize>
    ensures { IsFirstPlace (λ place. slice_get named.now place ≡ Some None) result }
{
    for (place, name) in named.iter().enumerate() {
        if name.is_none() {
            return Some(place);
        }
    }
    None
}
