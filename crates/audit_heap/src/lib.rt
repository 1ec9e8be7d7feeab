// The audit's tests of pages, and the headers of objects: they are ticked once, in an array with a byte for each word of the heap.
#![tactic(auto)]

ghost use Rattle.std.specs.Prelude.{◌≡◌, ◌≤◌};
ghost use Rattle.lists.specs.Ticks.{ticked, tick_at};
ghost use Rattle.audit_heap.specs.Heap.{headers_in, filled_to, page_fits, pages_fit, headers_held, all_headers};

use kinds::KindsIn;
use pages::PagesIn;
use regions::RegionsIn;

// How many words the objects met on page j take, as far as n words of it; no word past those is read.
fn filled_to(kinds: &KindsIn, heap: &[u32], j: u32, n: u32) -> usize
    requires { n ≤ 64 }
    ensures { result ≡ filled_to kinds.now.declared kinds.now.sizes.now heap.now j n }
{
    let start = 64 * (j as usize);
    let end = start + (n as usize);
    let mut at = start;
    // A walk and no `for`: where the next object begins is known by the size of this one, and one that does not fit ends it.
    while at < end {
        let object = objects::part_at(heap, at);
        let s = objects::fits(kinds, object, end - at);
        if s == 0 {
            return at - start;
        }
        at = at + 1 + (s as usize);
    }
    at - start
}

// Whether page j is free; or its owner is in use, and its objects take just the words taken.
#[tactic(auto, unfolding(crate::specs::Heap::page_fits))]
fn page_fits(kinds: &KindsIn, heap: &[u32], regions: &RegionsIn, pages: &PagesIn, j: u32) -> bool
    ensures { result ≡ page_fits kinds.now.declared kinds.now.sizes.now heap.now regions.now.names.now pages.now.owners.now pages.now.taken.now j }
{
    let t = pages.owner_at(j);
    if t == 0 {
        return true;
    }
    regions.name_of(t) != 0
        && filled_to(kinds, heap, j, pages.taken_at(j))
            == (cells::get(pages.taken, j as usize) as usize)
}

// Whether each page is free, or owned by an entry in use and filled from its start without gaps.
pub fn pages_fit(kinds: &KindsIn, heap: &[u32], regions: &RegionsIn, pages: &PagesIn) -> bool
    ensures { result ≡ pages_fit kinds.now.declared kinds.now.sizes.now heap.now regions.now.names.now pages.now.made pages.now.owners.now pages.now.taken.now }
{
    let n = pages.page_count();
    (0..n).all(|j| page_fits(kinds, heap, regions, pages, j))
}

// The headers met on page j, as far as n words of it, are ticked.
fn tick_page(kinds: &KindsIn, heap: &[u32], j: u32, n: u32, heads: &mut [u8])
    requires { n ≤ 64 }
    ensures { heads.new ≡ ticked heads.old (headers_in kinds.now.declared kinds.now.sizes.now heap.now j n) }
{
    let mut at = 64 * (j as usize);
    let end = at + (n as usize);
    // A walk and no `for`, as in filled_to.
    while at < end {
        let object = objects::part_at(heap, at);
        let s = objects::fits(kinds, object, end - at);
        if s == 0 {
            break;
        }
        cells::put(heads, at, 1);
        at = at + 1 + (s as usize);
    }
}

// Those on page j, unless it is free.
#[tactic(auto, unfolding(crate::specs::Heap::headers_held, lists::specs::Ticks::ticked))]
fn tick_held(kinds: &KindsIn, heap: &[u32], pages: &PagesIn, j: u32, heads: &mut [u8])
    ensures { heads.new ≡ ticked heads.old (headers_held kinds.now.declared kinds.now.sizes.now heap.now pages.now.owners.now pages.now.taken.now j) }
{
    if 0 < pages.owner_at(j) {
        tick_page(kinds, heap, j, pages.taken_at(j), heads);
    }
}

// Those on all pages that are not free.
#[tactic(auto, using(crate::proofs::Ticks::ticked_next), unfolding(crate::specs::Heap::all_headers, lists::specs::Ticks::ticked))]
pub fn tick_headers(kinds: &KindsIn, heap: &[u32], pages: &PagesIn, heads: &mut [u8])
    ensures { heads.new ≡ ticked heads.old (all_headers kinds.now.declared kinds.now.sizes.now heap.now pages.now.made pages.now.owners.now pages.now.taken.now) }
{
    for i in 0..pages.page_count() {
        tick_held(kinds, heap, pages, i, heads);
    }
}

// Whether a header stands at place q.
#[tactic(auto, unfolding(lists::specs::Ticks::tick_at))]
pub fn stands_at(heads: &[u8], q: u32) -> bool
    ensures { result ≡ tick_at heads.now q }
{
    cells::get(heads, q as usize) == 1
}
