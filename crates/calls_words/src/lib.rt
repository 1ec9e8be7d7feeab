// The calls on an object's data: put, get, view.
// The parameters of each are the numbers and arrays of the state one by one, and no struct of them: README gives them so, and a host lends them so.
#![tactic(auto)]

ghost use Rattle.std.specs.Prelude.{◌≡◌, eqb};
ghost use Rattle.lists.specs.Lists.{pick};
ghost use Rattle.refusals.specs.Refusals.{refused};
ghost use Rattle.model.specs.Model.{put, get};
ghost use Rattle.lent.specs.Lent.{InPlace, with_made, with_standing, with_widths, with_slots, with_declared, with_sizes, with_marks};
ghost use Rattle.calls_words.specs.Words.{data_refusal, view_refusal};
ghost use Rattle.calls_words.specs.Views.{ViewedIn};

use frames::FramesIn;
use kinds::KindsIn;
use lent::View;
use refusals::Refusal;
use state::Reply;

// 14 and 15 for word w of the object that v leads to, and 16 unless the word is data.
fn data_refusal(kinds: &KindsIn, object: &[u32], v: u32, w: u32) -> Result<(), Refusal>
    ensures { refused result ≡ data_refusal kinds.now.declared kinds.now.sizes.now kinds.now.marks.now object.now v w }
{
    checks::check_word(kinds, object, v, w)?;
    if objects::marked(kinds, object, w) != 0 {
        return Err(Refusal::WrongWord);
    }
    Ok(())
}

// Document 01's call 15: a data word gets the value. The state stays as it is.
pub fn put_in<'a>(
    made: u32,
    standing: u32,
    declared: u32,
    widths: &[u8; 32],
    slots: &[u32; 256],
    sizes: &'a [u8; 16],
    marks: &'a [u8; 256],
    heap: &mut [u32],
    slot: u32,
    w: u32,
    value: u32,
) -> Reply
    ensures { InPlace (put slot w value) (λ s. with_made made (with_standing standing (with_widths widths.now (with_slots slots.now (with_declared declared (with_sizes sizes.now (with_marks marks.now s))))))) heap.old result (λ s. s) heap.new }
{
    let frames = FramesIn {
        standing,
        widths,
        slots,
    };
    let kinds = KindsIn {
        declared,
        sizes,
        marks,
    };
    if let Err(r) = checks::check_top(made, heap.len(), &frames, slot, slot) {
        return checks::refuses(r);
    }
    let v = checks::slot_of_top(&frames, slot);
    let object = objects::object_of(heap, v);
    if let Err(r) = data_refusal(&kinds, object, v, w) {
        return checks::refuses(r);
    }
    objects::write(heap, v, w, value);
    checks::gives(0, 0, 0, 0)
}

// Document 01's call 16: what a data word holds.
pub fn get_in<'a>(
    made: u32,
    standing: u32,
    declared: u32,
    widths: &[u8; 32],
    slots: &[u32; 256],
    sizes: &'a [u8; 16],
    marks: &'a [u8; 256],
    heap: &[u32],
    slot: u32,
    w: u32,
) -> Reply
    ensures { InPlace (get slot w) (λ s. with_made made (with_standing standing (with_widths widths.now (with_slots slots.now (with_declared declared (with_sizes sizes.now (with_marks marks.now s))))))) heap.now result (λ s. s) heap.now }
{
    let frames = FramesIn {
        standing,
        widths,
        slots,
    };
    let kinds = KindsIn {
        declared,
        sizes,
        marks,
    };
    if let Err(r) = checks::check_top(made, heap.len(), &frames, slot, slot) {
        return checks::refuses(r);
    }
    let v = checks::slot_of_top(&frames, slot);
    let object = objects::object_of(heap, v);
    if let Err(r) = data_refusal(&kinds, object, v, w) {
        return checks::refuses(r);
    }
    checks::gives(objects::word_at(object, w), 0, 0, 0)
}

// View's tests, for a heap of n words, and in a slot of the top frame the pointer v to an object of that kind, which has `size` words.
fn unseen(
    made: u32,
    n: usize,
    frames: &FramesIn,
    kinds: &KindsIn,
    kind: u32,
    size: u32,
    v: u32,
    slot: u32,
) -> Result<(), Refusal>
    ensures { refused result ≡ view_refusal made n frames.now.standing frames.now.widths.now kinds.now.marks.now kind size v slot }
{
    checks::check_top(made, n, frames, slot, slot)?;
    if v == 0 {
        return Err(Refusal::NullSlot);
    }
    if kinds.all_data(kind, size) {
        return Ok(());
    }
    Err(Refusal::WrongWord)
}

// Where a part of so many words begins, of the object that v leads to; view gives 0 for the place of none (README).
fn place_of(v: u32, count: u32) -> u32
    ensures { result ≡ pick (eqb count 0) 0 v }
{
    if count == 0 { 0 } else { v }
}

// Document 01's call 17: its check, and where the object's part of the heap lies, which begins at the object's word 0.
pub fn view_in(
    made: u32,
    standing: u32,
    declared: u32,
    widths: &[u8; 32],
    slots: &[u32; 256],
    sizes: &[u8; 16],
    marks: &[u8; 256],
    heap: &[u32],
    slot: u32,
) -> View
    ensures { ViewedIn slot (λ s. with_made made (with_standing standing (with_widths widths.now (with_slots slots.now (with_declared declared (with_sizes sizes.now (with_marks marks.now s))))))) heap.now result }
{
    let frames = FramesIn {
        standing,
        widths,
        slots,
    };
    let kinds = KindsIn {
        declared,
        sizes,
        marks,
    };
    let at = checks::slot_of_top(&frames, slot);
    let kind = objects::kind_of(objects::object_of(heap, at));
    let size = kinds.size_of(kind);
    let n = heap.len();
    if let Err(r) = unseen(made, n, &frames, &kinds, kind, size, at, slot) {
        return View {
            refusal: r.number(),
            place: 0,
            count: 0,
        };
    }
    let count = cells::part_len(at as usize, size as usize, n) as u32;
    View {
        refusal: 0,
        place: place_of(at, count),
        count,
    }
}
