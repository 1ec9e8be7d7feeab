// The calls on the stack of frames: push, drop, hand_back.
// The parameters of each are the numbers and arrays of the state one by one, and no struct of them: README gives them so, and a host lends them so.
#![tactic(auto)]

ghost use Rattle.std.specs.Prelude.{◌≡◌, [], ◌-◌};
ghost use Rattle.lists.specs.Lists.{pick};
ghost use Rattle.refusals.specs.Refusals.{refused};
ghost use Rattle.model.specs.Model.{push, drop_frame, hand_back};
ghost use Rattle.model.specs.Calls.{reason};
ghost use Rattle.frames.specs.Frames.{top_in, uncounts_in};
ghost use Rattle.regions.specs.Laws.Steps.{leavings};
ghost use Rattle.outcomes.specs.Store.{targets_in};
ghost use Rattle.checks.specs.Checks.{first_refusal, filler_tests, beneath_tests};
ghost use Rattle.lent.specs.Lent.{InPlace, with_made, with_standing, with_counted, with_widths, with_slots, with_shares, with_owners};
ghost use Rattle.calls_stack.specs.Stack.{push_tests, drop_tests};

use frames::FramesIn;
use refusals::Refusal;
use regions::Way;
use state::Reply;

// 21, 8 and 7, for a heap of n words.
#[tactic(auto, unfolding(crate::specs::Stack::push_tests))]
fn push_refusal(made: u32, n: usize, standing: u32, slots: u32) -> Result<(), Refusal>
    ensures { refused result ≡ reason (push_tests made n standing slots) }
{
    if pages::wrong_length(made, n) {
        return Err(Refusal::OtherHeap);
    }
    if slots == 0 || 8 < slots {
        return Err(Refusal::FrameSize);
    }
    if 32 <= standing {
        return Err(Refusal::FramesFull);
    }
    Ok(())
}

// Document 01's call 5: a frame of null slots on top.
#[tactic(auto, using(crate::proofs::Laws::push_small))]
pub fn push_in(
    made: u32,
    standing: &mut u32,
    widths: &mut [u8; 32],
    slots: &mut [u32; 256],
    heap: &[u32],
    size: u32,
) -> Reply
    ensures { InPlace (push size) (λ s. with_made made (with_standing standing.old (with_widths widths.old (with_slots slots.old s)))) heap.now result (λ s. with_standing standing.new (with_widths widths.new (with_slots slots.new s))) heap.now }
{
    let n = *standing;
    if let Err(r) = push_refusal(made, heap.len(), n, size) {
        return checks::refuses(r);
    }
    cells::put(widths, n as usize, (size % 256) as u8);
    frames::null_frame(slots, n);
    let more = n + 1;
    *standing = more;
    checks::gives(more, 0, 0, 0)
}

// The shares once the top frame goes: if the frame then on top was counted, its pointers leave them, by that filler.
#[tactic(auto, unfolding(regions::specs::Laws::Steps::steps))]
fn uncount_top(frames: &FramesIn, counted: u32, owners: &[u8], shares: &mut [u32; 256], filler: u32)
    ensures { shares.new ≡ leavings filler shares.old (pick (uncounts_in frames.now.standing counted) (targets_in frames.now.widths.now frames.now.slots.now owners.now (top_in frames.now.standing - 1)) []) }
{
    if frames::uncounts(frames.standing, counted) {
        let next = frames.top().saturating_sub(1);
        checks::step_slots(frames, owners, shares, Way::Out, filler, next);
    }
}

// 21 and 23, then 6, for a heap of that length.
#[tactic(auto, unfolding(crate::specs::Stack::drop_tests))]
fn drop_refusal(made: u32, len: usize, filler: u32, standing: u32) -> Result<(), Refusal>
    ensures { refused result ≡ first_refusal (reason (filler_tests made len filler)) (reason (drop_tests standing)) }
{
    checks::check_filler(made, len, filler)?;
    if standing == 0 {
        return Err(Refusal::NoFrame);
    }
    Ok(())
}

// Document 01's call 6, for a filler (document 02, card 5): the top frame goes.
pub fn drop_in<'a>(
    made: u32,
    standing: &mut u32,
    counted: &mut u32,
    widths: &'a [u8; 32],
    slots: &'a [u32; 256],
    shares: &mut [u32; 256],
    owners: &'a [u8; 256],
    heap: &[u32],
    filler: u32,
) -> Reply
    ensures { InPlace (drop_frame filler) (λ s. with_made made (with_standing standing.old (with_counted counted.old (with_widths widths.now (with_slots slots.now (with_shares shares.old (with_owners owners.now s))))))) heap.now result (λ s. with_standing standing.new (with_counted counted.new (with_shares shares.new s))) heap.now }
{
    let n = *standing;
    let m = *counted;
    if let Err(r) = drop_refusal(made, heap.len(), filler, n) {
        return checks::refuses(r);
    }
    let frames = FramesIn {
        standing: n,
        widths,
        slots,
    };
    uncount_top(&frames, m, owners, shares, filler);
    *counted = frames::counted_after(n, m);
    let below = frames::top(n);
    *standing = below;
    checks::gives(below, 0, 0, 0)
}

// 21 and 23, then 6 and 9.
fn hand_refusal(
    made: u32,
    n: usize,
    filler: u32,
    frames: &FramesIn,
    slot: u32,
    beneath: u32,
) -> Result<(), Refusal>
    ensures { refused result ≡ first_refusal (reason (filler_tests made n filler)) (reason (beneath_tests made n frames.now.standing frames.now.widths.now slot beneath)) }
{
    checks::check_filler(made, n, filler)?;
    checks::check_beneath(made, n, frames, slot, beneath)
}

// Document 01's call 7, for a filler (document 02, card 5): the value goes into a slot of the frame beneath, after the top frame has gone.
pub fn hand_back_in<'a>(
    made: u32,
    standing: &mut u32,
    counted: &mut u32,
    widths: &'a [u8; 32],
    slots: &mut [u32; 256],
    shares: &mut [u32; 256],
    owners: &'a [u8; 256],
    heap: &[u32],
    slot: u32,
    beneath: u32,
    filler: u32,
) -> Reply
    ensures { InPlace (hand_back slot beneath filler) (λ s. with_made made (with_standing standing.old (with_counted counted.old (with_widths widths.now (with_slots slots.old (with_shares shares.old (with_owners owners.now s))))))) heap.now result (λ s. with_standing standing.new (with_counted counted.new (with_slots slots.new (with_shares shares.new s)))) heap.now }
{
    let n = *standing;
    let m = *counted;
    let frames = FramesIn {
        standing: n,
        widths,
        slots,
    };
    if let Err(r) = hand_refusal(made, heap.len(), filler, &frames, slot, beneath) {
        return checks::refuses(r);
    }
    let v = checks::slot_of_top(&frames, slot);
    uncount_top(&frames, m, owners, shares, filler);
    *counted = frames::counted_after(n, m);
    let below = frames::top(n);
    *standing = below;
    frames::put_slot(slots, frames::top(below), beneath, v);
    checks::gives(below, 0, 0, 0)
}
