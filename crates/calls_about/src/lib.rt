// Calls that only answer: same, about and totals (document 01's calls 18, 19 and 21), and locate (document 02, card 4). Each stands in place, on what it reads of the state.
// The parameters of each are the numbers and arrays of the state one by one, and no struct of them: README gives them so, and a host lends them so.
#![tactic(auto)]

ghost use Rattle.std.specs.Prelude.{List, ℕ};
ghost use Rattle.model.specs.Model.{same, about, totals, locate, ask};
ghost use Rattle.lent.specs.Lent.{InPlace, with_made, with_standing, with_counted, with_widths, with_slots, with_names, with_owners};

use frames::FramesIn;
use state::Reply;

// Document 01's call 18: 1 if two slots hold one pointer, or both null; else 0.
pub fn same_in(
    made: u32,
    standing: u32,
    widths: &[u8; 32],
    slots: &[u32; 256],
    heap: &[u32],
    a: u32,
    b: u32,
) -> Reply
    ensures { InPlace (same a b) (λ s. with_made made (with_standing standing (with_widths widths.now (with_slots slots.now s)))) heap.now result (λ s. s) heap.now }
{
    let frames = FramesIn {
        standing,
        widths,
        slots,
    };
    if let Err(r) = checks::check_top(made, heap.len(), &frames, a, b) {
        return checks::refuses(r);
    }
    let x = checks::slot_of_top(&frames, a);
    let y = checks::slot_of_top(&frames, b);
    checks::gives(u32::from(x == y), 0, 0, 0)
}

// Document 01's call 19: region and kind of the object in the slot, zeros for null.
pub fn about_in(
    made: u32,
    standing: u32,
    widths: &[u8; 32],
    slots: &[u32; 256],
    names: &[u32; 64],
    owners: &[u8; 256],
    heap: &[u32],
    slot: u32,
) -> Reply
    ensures { InPlace (about slot) (λ s. with_made made (with_standing standing (with_widths widths.now (with_slots slots.now (with_names names.now (with_owners owners.now s)))))) heap.now result (λ s. s) heap.now }
{
    let frames = FramesIn {
        standing,
        widths,
        slots,
    };
    if let Err(r) = checks::check_top(made, heap.len(), &frames, slot, slot) {
        return checks::refuses(r);
    }
    let v = checks::slot_of_top(&frames, slot);
    let n = regions::name_of(names, pages::owner_of(owners, v));
    checks::gives(n, objects::kind_of(objects::object_of(heap, v)), 0, 0)
}

// Call 25 (document 02, card 4): the page of the object in the slot and its header's word there, both from 0; 256 and 0 for null.
pub fn locate_in(
    made: u32,
    standing: u32,
    widths: &[u8; 32],
    slots: &[u32; 256],
    heap: &[u32],
    slot: u32,
) -> Reply
    ensures { InPlace (ask (locate slot)) (λ s. with_made made (with_standing standing (with_widths widths.now (with_slots slots.now s)))) heap.now result (λ s. s) heap.now }
{
    let frames = FramesIn {
        standing,
        widths,
        slots,
    };
    if let Err(r) = checks::check_top(made, heap.len(), &frames, slot, slot) {
        return checks::refuses(r);
    }
    let v = checks::slot_of_top(&frames, slot);
    checks::gives(pages::page_of(v), pages::word_of(v), 0, 0)
}

// Document 01's call 21: no heap is read, so it says the same whatever the heap.
pub fn totals_in(
    made: u32,
    standing: u32,
    counted: u32,
    names: &[u32; 64],
    owners: &[u8; 256],
) -> Reply
    ensures { (heap : List ℕ) → InPlace totals (λ s. with_made made (with_standing standing (with_counted counted (with_names names.now (with_owners owners.now s))))) heap result (λ s. s) heap }
{
    checks::gives(
        pages::pages_of(made, owners, 0),
        regions::live_count(names),
        standing,
        counted,
    )
}
