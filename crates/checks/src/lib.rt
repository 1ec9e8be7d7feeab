// Replies, the tests that several calls share, and the shares that the pointers of a frame enter or leave.
#![tactic(auto)]

ghost use Rattle.std.specs.Prelude.{◌≡◌, [], ◌∷◌, ◌-◌};
ghost use Rattle.frames.specs.Frames.{top_in, slot_in};
ghost use Rattle.regions.specs.Laws.Steps.{steps};
ghost use Rattle.regions.specs.Ways.{by};
ghost use Rattle.model.specs.Model.{gives, refused_by};
ghost use Rattle.model.specs.Calls.{reason};
ghost use Rattle.outcomes.specs.Store.{targets_in};
ghost use Rattle.outcomes.specs.Outcome.{answer_of};
ghost use Rattle.refusals.specs.Refusals.{number, refused as refusal_of};
ghost use Rattle.checks.specs.Checks.{filler_tests, top_tests, beneath_tests, word_tests, region_tests};

use frames::FramesIn;
use kinds::KindsIn;
use refusals::Refusal;
use regions::Way;
use state::Reply;

// By its number, as view gives it.
pub fn refused(n: u32) -> Reply
    ensures { answer_of result [] ≡ refused_by n }
{
    Reply {
        refusal: n,
        a: 0,
        b: 0,
        c: 0,
        d: 0,
    }
}

pub fn gives(a: u32, b: u32, c: u32, d: u32) -> Reply
    ensures { answer_of result [] ≡ gives (a ∷ b ∷ c ∷ d ∷ []) }
{
    Reply {
        refusal: 0,
        a,
        b,
        c,
        d,
    }
}

pub fn refuses(r: Refusal) -> Reply
    ensures { answer_of result [] ≡ refused_by (number r) }
{
    refused(u32::from(r))
}

// 21, and 23 for a filler above 3.
#[tactic(auto, unfolding(crate::specs::Checks::filler_tests))]
pub fn check_filler(made: u32, n: usize, filler: u32) -> Result<(), Refusal>
    ensures { refusal_of result ≡ reason (filler_tests made n filler) }
{
    if pages::wrong_length(made, n) {
        return Err(Refusal::OtherHeap);
    }
    if 3 < filler {
        return Err(Refusal::NoFiller);
    }
    Ok(())
}

// 21, 6 and 9 for two slots of the top frame; a call that names one slot gives it twice.
#[tactic(auto, unfolding(crate::specs::Checks::top_tests))]
pub fn check_top(made: u32, n: usize, frames: &FramesIn, s: u32, t: u32) -> Result<(), Refusal>
    ensures { refusal_of result ≡ reason (top_tests made n frames.now.standing frames.now.widths.now s t) }
{
    if pages::wrong_length(made, n) {
        return Err(Refusal::OtherHeap);
    }
    let standing = frames.standing;
    if standing == 0 {
        return Err(Refusal::NoFrame);
    }
    let w = frames.width_at(frames.top());
    if w <= s {
        return Err(Refusal::NoSlot);
    }
    if w <= t {
        return Err(Refusal::NoSlot);
    }
    Ok(())
}

// 21, 6 and 9 for a slot of the top frame and one of the frame beneath it.
#[tactic(auto, unfolding(crate::specs::Checks::beneath_tests))]
pub fn check_beneath(made: u32, n: usize, frames: &FramesIn, s: u32, b: u32) -> Result<(), Refusal>
    ensures { refusal_of result ≡ reason (beneath_tests made n frames.now.standing frames.now.widths.now s b) }
{
    if pages::wrong_length(made, n) {
        return Err(Refusal::OtherHeap);
    }
    let standing = frames.standing;
    if standing < 2 {
        return Err(Refusal::NoFrame);
    }
    let t = frames.top();
    if frames.width_at(t) <= s {
        return Err(Refusal::NoSlot);
    }
    if frames.width_at(t.saturating_sub(1)) <= b {
        return Err(Refusal::NoSlot);
    }
    Ok(())
}

// What a slot of the top frame holds, and one of the frame beneath it.
pub fn slot_of_top(frames: &FramesIn, s: u32) -> u32
    ensures { result ≡ slot_in frames.now.slots.now (top_in frames.now.standing) s }
{
    frames.slot_at(frames.top(), s)
}

pub fn slot_beneath(frames: &FramesIn, s: u32) -> u32
    ensures { result ≡ slot_in frames.now.slots.now (top_in frames.now.standing - 1) s }
{
    frames.slot_at(frames.top().saturating_sub(1), s)
}

// 14 and 15 for word w of the object that v leads to.
#[tactic(auto, unfolding(crate::specs::Checks::word_tests))]
pub fn check_word(kinds: &KindsIn, object: &[u32], v: u32, w: u32) -> Result<(), Refusal>
    ensures { refusal_of result ≡ reason (word_tests kinds.now.declared kinds.now.sizes.now object.now v w) }
{
    if v == 0 {
        return Err(Refusal::NullSlot);
    }
    if objects::words_of(kinds, object) <= w {
        return Err(Refusal::NoWord);
    }
    Ok(())
}

// 21, and 2 unless e is an entry, as it is for the name of a live region.
#[tactic(auto, unfolding(crate::specs::Checks::region_tests))]
pub fn check_region(made: u32, n: usize, e: u32) -> Result<(), Refusal>
    ensures { refusal_of result ≡ reason (region_tests made n e) }
{
    if pages::wrong_length(made, n) {
        return Err(Refusal::OtherHeap);
    }
    if e < 64 {
        Ok(())
    } else {
        Err(Refusal::NoRegion)
    }
}

// The shares with the pointers of frame i, or without them, by that filler.
pub fn step_slots(
    frames: &FramesIn,
    owners: &[u8],
    shares: &mut [u32],
    way: Way,
    filler: u32,
    i: u32,
)
    ensures { shares.new ≡ steps (by way) filler shares.old (targets_in frames.now.widths.now frames.now.slots.now owners.now i) }
{
    let n = frames.width_at(i);
    for s in 0..n {
        let t = pages::owner_of(owners, frames.slot_at(i, s));
        regions::step(shares, way, filler, t);
    }
}
