// The call audit.
// Its parameters are the numbers and arrays of the state one by one, and no struct of them: README gives it so, and a host lends them so.
#![tactic(auto)]

ghost use Rattle.std.specs.Prelude.{◌≡◌, length};
ghost use Rattle.model.specs.Model.{audit};
ghost use Rattle.lent.specs.Lent.{InPlace, with_made, with_standing, with_counted, with_declared, with_given, with_widths, with_slots, with_sizes, with_marks, with_names, with_parents, with_levels, with_shares, with_newest, with_oldest, with_owners, with_taken};
ghost use Rattle.calls_audit.specs.Passes.{heap_fits, passes_in};

use frames::FramesIn;
use kinds::KindsIn;
use pages::PagesIn;
use regions::RegionsIn;
use state::Reply;

// The tests of the heap. Headers are ticked in `heads`.
#[tactic(auto, unfolding(crate::specs::Passes::heap_fits))]
fn heap_fits(
    kinds: &KindsIn,
    heap: &[u32],
    regions: &RegionsIn,
    newest: &[u16],
    oldest: &[u32],
    pages: &PagesIn,
    frames: &FramesIn,
    heads: &mut [u8],
) -> bool
    ensures { result ≡ heap_fits heads.old kinds.now.declared kinds.now.sizes.now kinds.now.marks.now heap.now regions.now.names.now regions.now.parents.now regions.now.levels.now newest.now oldest.now pages.now.made pages.now.owners.now pages.now.taken.now frames.now.standing frames.now.widths.now frames.now.slots.now }
{
    if !audit_heap::pages_fit(kinds, heap, regions, pages) {
        return false;
    }
    audit_heap::tick_headers(kinds, heap, pages, heads);
    audit_slots::entries_own(heads, regions, newest, oldest, pages)
        && audit_slots::frames_lead(heads, frames)
        && audit_words::pages_hold(kinds, heap, heads, regions, pages)
}

// All tests, each after those that it relies on.
#[tactic(auto, unfolding(crate::specs::Passes::passes_in))]
fn passes(
    heads: &mut [u8],
    shares: &mut [u32],
    heap: &[u32],
    kinds: &KindsIn,
    frames: &FramesIn,
    counted: u32,
    given: u32,
    regions: &RegionsIn,
    newest: &[u16],
    oldest: &[u32],
    pages: &PagesIn,
) -> bool
    ensures { result ≡ passes_in heads.old shares.old heap.now kinds.now.declared kinds.now.sizes.now kinds.now.marks.now frames.now.standing counted frames.now.widths.now frames.now.slots.now given regions.now.names.now regions.now.parents.now regions.now.levels.now newest.now oldest.now pages.now.made pages.now.owners.now pages.now.taken.now }
{
    audit_state::state_fits(
        pages.made,
        heap.len(),
        kinds,
        frames,
        counted,
        given,
        regions,
    ) && heap_fits(kinds, heap, regions, newest, oldest, pages, frames, heads)
        && audit_counts::counts_fit(kinds, heap, pages, frames, counted, regions, shares)
}

// What the types say of the names. It does nothing: its contract is what it is for.
fn names_shaped(names: [u32; 64])
    ensures { length names ≡ 64 }
{}

// Document 01's call 22: 1 for memory that keeps the rules, else 0. Pointers leave a copy of the shares, which the types keep below 2^32, so that leaving one by one they leave what they leave together.
pub fn audit_in<'a>(
    made: u32,
    standing: u32,
    counted: u32,
    declared: u32,
    given: u32,
    widths: &'a [u8; 32],
    slots: &'a [u32; 256],
    sizes: &'a [u8; 16],
    marks: &'a [u8; 256],
    names: &'a [u32; 64],
    parents: &'a [u8; 64],
    levels: &'a [u8; 64],
    shares: &'a [u32; 256],
    newest: &'a [u16; 64],
    oldest: &'a [u32; 64],
    owners: &'a [u8; 256],
    taken: &'a [u8; 256],
    heap: &[u32],
) -> Reply
    ensures { InPlace audit (λ s. with_made made (with_standing standing (with_counted counted (with_declared declared (with_given given (with_widths widths.now (with_slots slots.now (with_sizes sizes.now (with_marks marks.now (with_names names.now (with_parents parents.now (with_levels levels.now (with_shares shares.now (with_newest newest.now (with_oldest oldest.now (with_owners owners.now (with_taken taken.now s))))))))))))))))) heap.now result (λ s. s) heap.now }
{
    let n = *names;
    names_shaped(n);
    let mut c = *shares;
    regions::shares_shaped(c);
    let mut heads = [0; 16384];
    let frames = FramesIn {
        standing,
        widths,
        slots,
    };
    let kinds = KindsIn {
        declared,
        sizes,
        marks,
    };
    let regions = RegionsIn {
        names,
        parents,
        levels,
    };
    let pages = PagesIn {
        made,
        owners,
        taken,
    };
    let sound = passes(
        &mut heads, &mut c, heap, &kinds, &frames, counted, given, &regions, newest, oldest, &pages,
    );
    checks::gives(u32::from(sound), 0, 0, 0)
}
