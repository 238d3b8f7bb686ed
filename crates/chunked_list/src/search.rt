//! Where the first item that passes a test lies.

ghost use Rattle.std.specs.Prelude.{◌≡◌, ◌+◌, ◌-◌, ◌/◌, ◌<◌, ◌≤◌, [], length};
ghost use Rattle.std.specs.List.{before_first, position_or_len};
ghost use Rattle.chunked_list.specs.Chunks.{joined, AreFull};
ghost use Rattle.chunked_list.specs.Stretches.{from_first, IsMonotone};
ghost use Rattle.chunked_list.specs.Working.Places.{IsAround, before_place, begins_passed, behind_place, items_of, lead};

use crate::test::Test;

/// A chunk by its number, and a place in it.
#[derive(Clone, Copy)]
pub(crate) struct Place {
    pub(crate) chunk: usize,
    pub(crate) item: usize,
}

/// The place of the first item that passes, or that behind the last item.
pub(crate) fn find<T: Copy, P: Test<T>>(chunks: &[Vec<T>], test: &P) -> Place
    requires some { 0 < length chunks.now }
    requires full { AreFull chunks.now }
    requires order { IsMonotone (P.passed_by test.now) (joined chunks.now) }
    ensures chunk { result.chunk < length chunks.now }
    ensures item { result.item ≤ length (items_of chunks.now result.chunk) }
    ensures before { before_place chunks.now result.chunk result.item
        ≡ before_first (P.passed_by test.now) (joined chunks.now) }
    ensures behind { behind_place chunks.now result.chunk result.item
        ≡ from_first (P.passed_by test.now) (joined chunks.now) }
    ensures first { result.item ≡ 0 → lead chunks.now result.chunk ≡ [] }
{
    let chunk = chunk_of(chunks, test);
    let item = place_in(chunks, chunk, test);
    Place { chunk, item }
}

#[tactic(auto, using(crate::proofs::Places::items_at))]
fn place_in<T: Copy, P: Test<T>>(chunks: &[Vec<T>], number: usize, test: &P) -> usize
    requires { number < length chunks.now }
    ensures { result ≡ position_or_len (P.passed_by test.now) (items_of chunks.now number) }
{
    place_of(&chunks[number], test)
}

// The number of the chunk that has the first item which passes, or behind whose last it stands.
fn chunk_of<T: Copy, P: Test<T>>(chunks: &[Vec<T>], test: &P) -> usize
    requires { 0 < length chunks.now }
    ensures { IsAround (P.passed_by test.now) chunks.now result }
{
    let mut low = 0;
    let mut high = chunks.len();
    while high - low > 1 {
        let middle = low + (high - low) / 2;
        if passes_at(chunks, middle, test) {
            high = middle;
        } else {
            low = middle;
        }
    }
    low
}

/// How many items stand before the first that passes.
pub(crate) fn place_of<T: Copy, P: Test<T>>(items: &[T], test: &P) -> usize
    ensures { result ≡ position_or_len (P.passed_by test.now) items.now }
{
    items
        .iter()
        .position(|item| test.passes(item))
        .unwrap_or(items.len())
}

// Whether a chunk begins with an item that passes.
#[tactic(auto, using(crate::proofs::Places::items_at))]
fn passes_at<T: Copy, P: Test<T>>(chunks: &[Vec<T>], number: usize, test: &P) -> bool
    requires { number < length chunks.now }
    ensures { result ≡ begins_passed (P.passed_by test.now) (items_of chunks.now number) }
{
    begins_passed(&chunks[number], test)
}

fn begins_passed<T: Copy, P: Test<T>>(items: &[T], test: &P) -> bool
    ensures { result ≡ begins_passed (P.passed_by test.now) items.now }
{
    match items {
        [] => false,
        [first, ..] => test.passes(first),
    }
}
