// The audit's tests of pointer words. Pointers are looked up among the headers that audit_heap ticked.
#![tactic(auto)]

ghost use Rattle.std.specs.Prelude.{◌≡◌, ◌≤◌};
ghost use Rattle.lists.specs.Ticks.{tick_at};
ghost use Rattle.objects.specs.Parts.{word_in};
ghost use Rattle.audit_words.specs.Words.{word_holds, words_hold, objects_hold, page_holds, pages_hold};

use kinds::KindsIn;
use pages::PagesIn;
use regions::RegionsIn;

// Whether word w of an object, with mark m, is data, null, or leads to an object that the mark allows. Data is not read.
#[tactic(auto, unfolding(crate::specs::Words::word_holds))]
fn word_holds(
    heads: &[u8],
    regions: &RegionsIn,
    pages: &PagesIn,
    own: u32,
    m: u32,
    object: &[u32],
    w: u32,
) -> bool
    ensures { result ≡ word_holds (tick_at heads.now) regions.now.names.now regions.now.parents.now regions.now.levels.now pages.now.owners.now own m (word_in object.now w) }
{
    if m == 0 {
        return true;
    }
    let x = objects::word_at(object, w);
    x == 0
        || (audit_heap::stands_at(heads, x - 1)
            && climbs::allows(regions, m, own, pages.owner_of(x)))
}

// The same of an object's first n words.
fn words_hold(
    kinds: &KindsIn,
    object: &[u32],
    n: u32,
    heads: &[u8],
    regions: &RegionsIn,
    pages: &PagesIn,
    own: u32,
) -> bool
    ensures { result ≡ words_hold (tick_at heads.now) regions.now.names.now regions.now.parents.now regions.now.levels.now pages.now.owners.now kinds.now.marks.now object.now n own }
{
    (0..n).all(|w| {
        let m = objects::marked(kinds, object, w);
        word_holds(heads, regions, pages, own, m, object, w)
    })
}

// The same of the objects on page j, of which n words are taken.
fn objects_hold(
    kinds: &KindsIn,
    heap: &[u32],
    heads: &[u8],
    regions: &RegionsIn,
    pages: &PagesIn,
    own: u32,
    j: u32,
    n: u32,
) -> bool
    requires { n ≤ 64 }
    ensures { result ≡ objects_hold (tick_at heads.now) regions.now.names.now regions.now.parents.now regions.now.levels.now pages.now.owners.now kinds.now.declared kinds.now.sizes.now kinds.now.marks.now heap.now own j n }
{
    let mut at = 64 * (j as usize);
    let end = at + (n as usize);
    // A walk and no `for`, as in audit_heap's filled_to.
    while at < end {
        let object = objects::part_at(heap, at);
        let s = objects::fits(kinds, object, end - at);
        if s == 0 {
            return true;
        }
        if !words_hold(kinds, object, s, heads, regions, pages, own) {
            return false;
        }
        at = at + 1 + (s as usize);
    }
    true
}

// Whether page j is free, or the same holds of its objects.
#[tactic(auto, unfolding(crate::specs::Words::page_holds))]
fn page_holds(
    kinds: &KindsIn,
    heap: &[u32],
    heads: &[u8],
    regions: &RegionsIn,
    pages: &PagesIn,
    j: u32,
) -> bool
    ensures { result ≡ page_holds (tick_at heads.now) regions.now.names.now regions.now.parents.now regions.now.levels.now pages.now.owners.now kinds.now.declared kinds.now.sizes.now kinds.now.marks.now heap.now pages.now.taken.now j }
{
    let t = pages.owner_at(j);
    t == 0 || objects_hold(kinds, heap, heads, regions, pages, t, j, pages.taken_at(j))
}

// Whether every pointer word is null, or leads to an object that its mark allows.
pub fn pages_hold(
    kinds: &KindsIn,
    heap: &[u32],
    heads: &[u8],
    regions: &RegionsIn,
    pages: &PagesIn,
) -> bool
    ensures { result ≡ pages_hold (tick_at heads.now) regions.now.names.now regions.now.parents.now regions.now.levels.now pages.now.owners.now kinds.now.declared kinds.now.sizes.now kinds.now.marks.now heap.now pages.now.made pages.now.taken.now }
{
    let n = pages.page_count();
    (0..n).all(|j| page_holds(kinds, heap, heads, regions, pages, j))
}
