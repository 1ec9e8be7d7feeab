// Regions taken apart, ticked by tag: scanned for their references to others, then given back (source document 000, chapter 4.5; the scan is its Figure 4.5, in chapter 4.3.1). Delete goes
// by `scan_held` and `give_back_one`, the joint delete by `scan` and `give_back`. The figure goes through a region's blocks; no list of a region's pages is kept here, so all pages are gone through, and each is asked whose it is.
#![tactic(auto)]

ghost use Rattle.std.specs.Prelude.{◌≡◌, ◌<◌, eqb, get_or};
ghost use Rattle.lists.specs.Lists.{count_of, up_to};
ghost use Rattle.kinds.specs.Kinds.{kinds_with};
ghost use Rattle.pages.specs.Pages.{pages_with, page_count_in, pages_in};
ghost use Rattle.outcomes.specs.Apart.{Scans, GivesBack};
ghost use Rattle.lists.specs.Ticks.{tick_at};

use kinds::KindsIn;
use members::Members;
use pages::PagesIn;

// The region scan: the references to other regions, in words marked 1 on the members' pages, leave the shares of that filler, which is 0 to 3. The shares are given back, and all else is only read.
pub fn scan(
    kinds: &KindsIn,
    heap: &[u32],
    pages: &PagesIn,
    members: &Members,
    shares: [u32; 256],
    filler: u32,
) -> [u32; 256]
    ensures { filler < 4 → Scans filler (kinds_with kinds.now.declared kinds.now.sizes.now kinds.now.marks.now) heap.now (pages_with pages.now.made pages.now.owners.now pages.now.taken.now) (tick_at members.now.ticks) shares result }
{
    let end = pages.page_count();
    let mut c = shares;
    for j in 0..end {
        let t = pages.owner_at(j);
        if members.is_member(t) {
            let m = pages.taken_at(j);
            objects::leave_objects(kinds, heap, pages.owners, j, m, &mut c, filler, t);
        }
    }
    c
}

// The same on shares lent, where the members' pages were counted: with none of them, nothing is done.
pub fn scan_held(
    held: u32,
    kinds: &KindsIn,
    heap: &[u32],
    pages: &PagesIn,
    members: &Members,
    shares: &mut [u32; 256],
    filler: u32,
)
    ensures { filler < 4 → held ≡ count_of (λ j. tick_at members.now.ticks (get_or pages.now.owners.now j 0)) (up_to (page_count_in pages.now.made)) → Scans filler (kinds_with kinds.now.declared kinds.now.sizes.now kinds.now.marks.now) heap.now (pages_with pages.now.made pages.now.owners.now pages.now.taken.now) (tick_at members.now.ticks) shares.old shares.new }
{
    if held == 0 {
        return;
    }
    *shares = scan(kinds, heap, pages, members, *shares, filler);
}

// The members' pages are given back: they are free. Gives how many there were. No share is lent.
pub fn give_back(made: u32, owners: &mut [u8; 256], members: &Members) -> u32
    ensures { GivesBack made owners.old (tick_at members.now.ticks) owners.new result }
{
    let n = pages::page_count(made);
    let mut number: u32 = 0;
    for j in 0..n {
        if members.is_member(pages::owner_at(owners, j)) {
            cells::put(owners, j as usize, 0);
            number += 1;
        }
    }
    number
}

// The pages of one region are given back. Every page is written, those of others as they were, so that the compiler takes many at a time.
pub fn give_back_one(made: u32, owners: &mut [u8; 256], tag: u8)
    ensures { GivesBack made owners.old (λ t. eqb t tag) owners.new (pages_in made owners.old tag) }
{
    let n = pages::page_count(made) as usize;
    for o in owners[..n].iter_mut() {
        *o = if *o == tag { 0 } else { *o };
    }
}
