// The calls on an object's pointers: load and set pointer.
// The parameters of each are the numbers and arrays of the state one by one, and no struct of them: README gives them so, and a host lends them so.
#![tactic(auto)]

ghost use Rattle.std.specs.Prelude.{◌≡◌};
ghost use Rattle.refusals.specs.Refusals.{refused};
ghost use Rattle.model.specs.Model.{load, set_pointer};
ghost use Rattle.regions.specs.Laws.Steps.{entering, leaving};
ghost use Rattle.outcomes.specs.Store.{breaks_in};
ghost use Rattle.lent.specs.Lent.{InPlace, with_made, with_standing, with_widths, with_slots, with_declared, with_sizes, with_marks, with_names, with_parents, with_levels, with_shares, with_owners};
ghost use Rattle.model.specs.Calls.{reason};
ghost use Rattle.checks.specs.Checks.{first_refusal, filler_tests, top_tests};
ghost use Rattle.calls_pointers.specs.Pointers.{pointer_refusal, counted_tag};

use frames::FramesIn;
use kinds::KindsIn;
use refusals::Refusal;
use regions::{RegionsIn, Way};
use state::Reply;

// 14 and 15 for word w of the object that v leads to, and 16 unless the word is a pointer.
fn pointer_refusal(kinds: &KindsIn, object: &[u32], v: u32, w: u32) -> Result<(), Refusal>
    ensures { refused result ≡ pointer_refusal kinds.now.declared kinds.now.sizes.now kinds.now.marks.now object.now v w }
{
    checks::check_word(kinds, object, v, w)?;
    if objects::marked(kinds, object, w) == 0 {
        return Err(Refusal::WrongWord);
    }
    Ok(())
}

// Document 01's call 13: slot `to` gets the pointer in a word.
pub fn load_in<'a>(
    made: u32,
    standing: u32,
    declared: u32,
    widths: &[u8; 32],
    slots: &mut [u32; 256],
    sizes: &'a [u8; 16],
    marks: &'a [u8; 256],
    heap: &[u32],
    slot: u32,
    w: u32,
    to: u32,
) -> Reply
    ensures { InPlace (load slot w to) (λ s. with_made made (with_standing standing (with_widths widths.now (with_slots slots.old (with_declared declared (with_sizes sizes.now (with_marks marks.now s))))))) heap.now result (with_slots slots.new) heap.now }
{
    let frames = FramesIn {
        standing,
        widths,
        slots,
    };
    let kinds = KindsIn {
        declared,
        sizes,
        marks,
    };
    if let Err(r) = checks::check_top(made, heap.len(), &frames, slot, to) {
        return checks::refuses(r);
    }
    let v = checks::slot_of_top(&frames, slot);
    let object = objects::object_of(heap, v);
    if let Err(r) = pointer_refusal(&kinds, object, v, w) {
        return checks::refuses(r);
    }
    let x = objects::word_at(object, w);
    frames::put_slot(slots, frames::top(standing), to, x);
    checks::gives(0, 0, 0, 0)
}

// Whether a word marked m of an object of the region with tag h may not get x, which leads into the region with tag `to`.
#[tactic(auto, unfolding(outcomes::specs::Store::breaks_in))]
fn breaks(regions: &RegionsIn, m: u32, h: u32, x: u32, to: u32) -> bool
    ensures { result ≡ breaks_in regions.now.names.now regions.now.parents.now regions.now.levels.now m h x to }
{
    !(x == 0 || climbs::allows(regions, m, h, to))
}

// The region whose count has a pointer into the region with tag t, held by a word marked k of an object of the region with tag h: 0 for none, the tag of no region, by which no share moves.
#[tactic(auto, unfolding(crate::specs::Pointers::counted_tag))]
fn counted_tag(k: u32, h: u32, t: u32) -> u32
    ensures { result ≡ counted_tag k h t }
{
    if k == 1 && t != h { t } else { 0 }
}

// The shares of a set pointer: both the old pointer and the new one move that filler's.
fn move_shares(shares: &mut [u32; 256], filler: u32, leave: u32, enter: u32)
    ensures { shares.new ≡ entering filler (leaving filler shares.old leave) enter }
{
    regions::step(shares, Way::Out, filler, leave);
    regions::step(shares, Way::In, filler, enter);
}

// 21 and 23, then 6 and 9.
fn slots_refusal(
    made: u32,
    n: usize,
    filler: u32,
    frames: &FramesIn,
    slot: u32,
    value: u32,
) -> Result<(), Refusal>
    ensures { refused result ≡ first_refusal (reason (filler_tests made n filler)) (reason (top_tests made n frames.now.standing frames.now.widths.now slot value)) }
{
    checks::check_filler(made, n, filler)?;
    checks::check_top(made, n, frames, slot, value)
}

// Document 01's call 14, for a filler (document 02, card 5): a pointer word gets what slot `value` holds, and the filler's shares follow.
pub fn set_pointer_in<'a>(
    made: u32,
    standing: u32,
    declared: u32,
    widths: &[u8; 32],
    slots: &[u32; 256],
    sizes: &'a [u8; 16],
    marks: &'a [u8; 256],
    names: &'a [u32; 64],
    parents: &'a [u8; 64],
    levels: &'a [u8; 64],
    shares: &mut [u32; 256],
    owners: &'a [u8; 256],
    heap: &mut [u32],
    slot: u32,
    w: u32,
    value: u32,
    filler: u32,
) -> Reply
    ensures { InPlace (set_pointer slot w value filler) (λ s. with_made made (with_standing standing (with_widths widths.now (with_slots slots.now (with_declared declared (with_sizes sizes.now (with_marks marks.now (with_names names.now (with_parents parents.now (with_levels levels.now (with_shares shares.old (with_owners owners.now s)))))))))))) heap.old result (with_shares shares.new) heap.new }
{
    let frames = FramesIn {
        standing,
        widths,
        slots,
    };
    let kinds = KindsIn {
        declared,
        sizes,
        marks,
    };
    if let Err(r) = slots_refusal(made, heap.len(), filler, &frames, slot, value) {
        return checks::refuses(r);
    }
    let v = checks::slot_of_top(&frames, slot);
    let x = checks::slot_of_top(&frames, value);
    let object = objects::object_of(heap, v);
    if let Err(r) = pointer_refusal(&kinds, object, v, w) {
        return checks::refuses(r);
    }
    let m = objects::marked(&kinds, object, w);
    let own = pages::owner_of(owners, v);
    let new = pages::owner_of(owners, x);
    let regions = RegionsIn {
        names,
        parents,
        levels,
    };
    if breaks(&regions, m, own, x, new) {
        return checks::refuses(Refusal::BreaksMark);
    }
    let old = pages::owner_of(owners, objects::word_at(object, w));
    let left = counted_tag(m, own, old);
    let entered = counted_tag(m, own, new);
    move_shares(shares, filler, left, entered);
    objects::write(heap, v, w, x);
    checks::gives(0, 0, 0, 0)
}
