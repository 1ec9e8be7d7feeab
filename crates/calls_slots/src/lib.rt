// The calls that fill or clear slots of the top frame: first, copy, fetch and clear (document 01's calls 9 to 12). Each stands in place, on what is lent of the state.
// The parameters of each are the numbers and arrays of the state one by one, and no struct of them: README gives them so, and a host lends them so.
#![tactic(auto)]

ghost use Rattle.model.specs.Model.{first, copy, fetch, clear};
ghost use Rattle.lent.specs.Lent.{InPlace, with_made, with_standing, with_widths, with_slots, with_names, with_oldest};

use frames::FramesIn;
use refusals::Refusal;
use state::Reply;

// Document 01's call 9: puts the oldest object of the region in the slot.
pub fn first_in(
    made: u32,
    standing: u32,
    widths: &[u8; 32],
    slots: &mut [u32; 256],
    names: &[u32; 64],
    oldest: &[u32; 64],
    heap: &[u32],
    slot: u32,
    region: u32,
) -> Reply
    ensures { InPlace (first slot region) (λ s. with_made made (with_standing standing (with_widths widths.now (with_slots slots.old (with_names names.now (with_oldest oldest.now s)))))) heap.now result (with_slots slots.new) heap.now }
{
    let frames = FramesIn {
        standing,
        widths,
        slots,
    };
    if let Err(r) = checks::check_top(made, heap.len(), &frames, slot, slot) {
        return checks::refuses(r);
    }
    let i = regions::entry_of(names, region);
    if 64 <= i {
        return checks::refuses(Refusal::NoRegion);
    }
    let v = regions::oldest_at(oldest, i);
    frames::put_slot(slots, frames::top(standing), slot, v);
    checks::gives(0, 0, 0, 0)
}

// Document 01's call 10: slot `to` gets what slot `from` holds.
pub fn copy_in(
    made: u32,
    standing: u32,
    widths: &[u8; 32],
    slots: &mut [u32; 256],
    heap: &[u32],
    from: u32,
    to: u32,
) -> Reply
    ensures { InPlace (copy from to) (λ s. with_made made (with_standing standing (with_widths widths.now (with_slots slots.old s)))) heap.now result (with_slots slots.new) heap.now }
{
    let frames = FramesIn {
        standing,
        widths,
        slots,
    };
    if let Err(r) = checks::check_top(made, heap.len(), &frames, from, to) {
        return checks::refuses(r);
    }
    let v = checks::slot_of_top(&frames, from);
    frames::put_slot(slots, frames::top(standing), to, v);
    checks::gives(0, 0, 0, 0)
}

// Document 01's call 11: slot `to` gets what slot `from` of the frame beneath holds.
pub fn fetch_in(
    made: u32,
    standing: u32,
    widths: &[u8; 32],
    slots: &mut [u32; 256],
    heap: &[u32],
    from: u32,
    to: u32,
) -> Reply
    ensures { InPlace (fetch from to) (λ s. with_made made (with_standing standing (with_widths widths.now (with_slots slots.old s)))) heap.now result (with_slots slots.new) heap.now }
{
    let frames = FramesIn {
        standing,
        widths,
        slots,
    };
    if let Err(r) = checks::check_beneath(made, heap.len(), &frames, to, from) {
        return checks::refuses(r);
    }
    let v = checks::slot_beneath(&frames, from);
    frames::put_slot(slots, frames::top(standing), to, v);
    checks::gives(0, 0, 0, 0)
}

// Document 01's call 12: the slot becomes null.
pub fn clear_in(
    made: u32,
    standing: u32,
    widths: &[u8; 32],
    slots: &mut [u32; 256],
    heap: &[u32],
    slot: u32,
) -> Reply
    ensures { InPlace (clear slot) (λ s. with_made made (with_standing standing (with_widths widths.now (with_slots slots.old s)))) heap.now result (with_slots slots.new) heap.now }
{
    let frames = FramesIn {
        standing,
        widths,
        slots,
    };
    if let Err(r) = checks::check_top(made, heap.len(), &frames, slot, slot) {
        return checks::refuses(r);
    }
    frames::put_slot(slots, frames::top(standing), slot, 0);
    checks::gives(0, 0, 0, 0)
}
