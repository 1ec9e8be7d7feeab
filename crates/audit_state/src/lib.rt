// The audit's tests that read no heap word: limits, m, kinds and frames; and regions, by audit_regions.
#![tactic(auto)]

ghost use Rattle.std.specs.Prelude.{◌≡◌, ◌<◌};
ghost use Rattle.audit_state.specs.Fits.{numbers_fit, marks_fit, kind_fits, kinds_fit, widths_fit, state_fits_in};

use frames::FramesIn;
use kinds::KindsIn;
use regions::RegionsIn;

// The limits on single numbers, m, and the length n of the heap.
#[tactic(auto, unfolding(crate::specs::Fits::numbers_fit))]
fn numbers_fit(
    made: u32,
    n: usize,
    kinds: &KindsIn,
    frames: &FramesIn,
    counted: u32,
    given: u32,
) -> bool
    ensures { result ≡ numbers_fit made n kinds.now.declared frames.now.standing counted given }
{
    (1..=256).contains(&made)
        && n == 64 * (made as usize)
        && kinds.declared <= 16
        && frames.standing <= 32
        && counted <= frames.top()
        && given <= 1000000
}

// Whether no mark of kind n is above 4.
fn marks_fit(kinds: &KindsIn, n: u32) -> bool
    ensures { result ≡ marks_fit kinds.now.declared kinds.now.sizes.now kinds.now.marks.now n }
{
    let size = kinds.size_of(n);
    (0..size).all(|w| kinds.mark_at(n, w) <= 4)
}

// Whether the kind at place i has 1 to 16 words, and no mark above 4.
#[tactic(auto, unfolding(crate::specs::Fits::kind_fits))]
fn kind_fits(kinds: &KindsIn, i: u32) -> bool
    ensures { i < 16 → result ≡ kind_fits kinds.now.declared kinds.now.sizes.now kinds.now.marks.now i }
{
    (1..=16).contains(&cells::get(kinds.sizes, i as usize)) && marks_fit(kinds, i.wrapping_add(1))
}

fn kinds_fit(kinds: &KindsIn) -> bool
    ensures { result ≡ kinds_fit kinds.now.declared kinds.now.sizes.now kinds.now.marks.now }
{
    let n = kinds.kind_count();
    (0..n).all(|i| kind_fits(kinds, i))
}

// Whether every frame has 1 to 8 slots.
fn widths_fit(frames: &FramesIn) -> bool
    ensures { result ≡ widths_fit frames.now.standing frames.now.widths.now }
{
    let n = frames.frame_count();
    (0..n).all(|i| (1..=8).contains(&frames.width_at(i)))
}

// All of these, of a heap of n words.
#[tactic(auto, unfolding(crate::specs::Fits::state_fits_in))]
pub fn state_fits(
    made: u32,
    n: usize,
    kinds: &KindsIn,
    frames: &FramesIn,
    counted: u32,
    given: u32,
    regions: &RegionsIn,
) -> bool
    ensures { result ≡ state_fits_in made n kinds.now.declared kinds.now.sizes.now kinds.now.marks.now frames.now.standing counted frames.now.widths.now given regions.now.names.now regions.now.parents.now regions.now.levels.now }
{
    numbers_fit(made, n, kinds, frames, counted, given)
        && kinds_fit(kinds)
        && widths_fit(frames)
        && audit_regions::regions_fit(given, regions)
}
