//! Whether references name structures that are there.

ghost use Rattle.std.specs.Prelude.{◌↔◌, ◌<◌, ℕ, IsTrue};
ghost use Rattle.gds_reach.specs.References.{AreWithin, IsNamed};

/// Whether each reference names one of the structures, or none.
pub fn are_within(links: &[Vec<Option<u32>>]) -> bool
    ensures { IsTrue result ↔ AreWithin links.now }
{
    for named in links {
        if !all_below(named, links.len()) {
            return false;
        }
    }
    true
}

/// Whether all structures that are named are below a bound.
fn all_below(named: &[Option<u32>], bound: usize) -> bool
    ensures { IsTrue result ↔ ((j : ℕ) → IsNamed named.now j → j < bound) }
{
    for name in named {
        if let Some(structure) = name {
            if *structure as usize >= bound {
                return false;
            }
        }
    }
    true
}
