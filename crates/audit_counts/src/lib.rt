// The audit's test of the stored counts. Pointers leave a copy of the shares, all of them filler 0's: what is looked at then are the totals, and these are the same by whichever filler they leave.
#![tactic(auto)]

ghost use Rattle.std.specs.Prelude.{◌≡◌};
ghost use Rattle.lists.specs.Lists.{joined, up_to};
ghost use Rattle.kinds.specs.Kinds.{kinds_with};
ghost use Rattle.regions.specs.Laws.Steps.{leavings};
ghost use Rattle.pages.specs.Pages.{page_count_in};
ghost use Rattle.outcomes.specs.Store.{targets_in};
ghost use Rattle.audit_counts.specs.Counts.{word_tags, is_zero, all_zero, counts_fit};

use frames::FramesIn;
use kinds::KindsIn;
use pages::PagesIn;
use regions::{RegionsIn, Way};

// The shares without the slots of the lowest n frames.
#[tactic(auto, using(crate::proofs::Leavings::leavings_next), unfolding(regions::specs::Laws::Steps::steps))]
fn leave_frames(frames: &FramesIn, pages: &PagesIn, shares: &mut [u32], n: u32)
    ensures { shares.new ≡ leavings 0 shares.old (joined (targets_in frames.now.widths.now frames.now.slots.now pages.now.owners.now) (up_to n)) }
{
    for i in 0..n {
        checks::step_slots(frames, pages.owners, shares, Way::Out, 0, i);
    }
}

// The shares without the words marked 1 of page j.
fn leave_one(kinds: &KindsIn, heap: &[u32], pages: &PagesIn, shares: &mut [u32], j: u32)
    ensures { shares.new ≡ leavings 0 shares.old (word_tags (kinds_with kinds.now.declared kinds.now.sizes.now kinds.now.marks.now) heap.now pages.now.owners.now pages.now.taken.now j) }
{
    let t = pages.owner_at(j);
    if t == 0 {
        return;
    }
    let n = pages.taken_at(j);
    objects::leave_objects(kinds, heap, pages.owners, j, n, shares, 0, t);
}

// The shares without those of all pages.
#[tactic(auto, using(crate::proofs::Leavings::leavings_next), unfolding(regions::specs::Laws::Steps::steps))]
fn leave_pages(kinds: &KindsIn, heap: &[u32], pages: &PagesIn, shares: &mut [u32])
    ensures { shares.new ≡ leavings 0 shares.old (joined (word_tags (kinds_with kinds.now.declared kinds.now.sizes.now kinds.now.marks.now) heap.now pages.now.owners.now pages.now.taken.now) (up_to (page_count_in pages.now.made))) }
{
    for j in 0..pages.page_count() {
        leave_one(kinds, heap, pages, shares, j);
    }
}

// Whether entry i is not in use or has the count 0.
#[tactic(auto, unfolding(crate::specs::Counts::is_zero))]
fn is_zero(regions: &RegionsIn, shares: &[u32], i: u32) -> bool
    ensures { result ≡ is_zero regions.now.names.now shares.now i }
{
    regions.name_at(i) == 0 || regions::count_at(shares, i) == 0
}

fn all_zero(regions: &RegionsIn, shares: &[u32]) -> bool
    ensures { result ≡ all_zero regions.now.names.now shares.now }
{
    (0..64).all(|i| is_zero(regions, shares, i))
}

// Whether nothing stays in the counts once all that has to be there has left them.
pub fn counts_fit(
    kinds: &KindsIn,
    heap: &[u32],
    pages: &PagesIn,
    frames: &FramesIn,
    counted: u32,
    regions: &RegionsIn,
    shares: &mut [u32],
) -> bool
    ensures { result ≡ counts_fit regions.now.names.now shares.old (kinds_with kinds.now.declared kinds.now.sizes.now kinds.now.marks.now) heap.now pages.now.made pages.now.owners.now pages.now.taken.now counted frames.now.widths.now frames.now.slots.now }
{
    leave_pages(kinds, heap, pages, shares);
    leave_frames(frames, pages, shares, counted);
    all_zero(regions, shares)
}
