// What delete asks before a region goes; the look over the uncounted frames and the frames that are counted from then on, for a joint delete too.
#![tactic(auto)]

ghost use Rattle.std.specs.Prelude.{◌≡◌};
ghost use Rattle.model.specs.Calls.{reason};
ghost use Rattle.regions.specs.Regions.{subregions_in, count_in};
ghost use Rattle.regions.specs.Laws.Steps.{enterings};
ghost use Rattle.refusals.specs.Refusals.{refused};
ghost use Rattle.outcomes.specs.Store.{led_among_in};
ghost use Rattle.outcomes.specs.Outcome.{newly_in};
ghost use Rattle.checks.specs.Checks.{first_refusal, filler_tests};
ghost use Rattle.lists.specs.Ticks.{tick_at};
ghost use Rattle.delete_parts.specs.Delete.{delete_tests};

use frames::FramesIn;
use pages::PagesIn;
use refusals::Refusal;
use regions::Way;

// Whether some slot of an uncounted frame leads into a member: nested loops, left by a label at the first that does (document 01, Forms to use in the code).
pub fn look(frames: &FramesIn, counted: u32, owners: &[u8], ticks: &[u8]) -> bool
    ensures { result ≡ led_among_in frames.now.standing counted frames.now.widths.now frames.now.slots.now owners.now (tick_at ticks.now) }
{
    let n = frames.frame_count();
    let mut found = false;
    'look: for i in counted..n {
        let w = frames.width_at(i);
        for k in 0..w {
            let t = pages::owner_of(owners, frames.slot_at(i, k));
            if members::is_member(ticks, t) {
                found = true;
                break 'look;
            }
        }
    }
    found
}

// Why the region of that name, with entry e and that tag, which is ticked, is not deleted. Names and parents are no RegionsIn: a delete is lent no levels.
#[tactic(auto, unfolding(crate::specs::Delete::delete_tests))]
pub fn delete_refusal<'a>(
    pages: &PagesIn,
    words: usize,
    filler: u32,
    region: u32,
    e: u32,
    tag: u32,
    names: &'a [u32],
    parents: &'a [u8],
    shares: &'a [u32],
    frames: &FramesIn,
    counted: u32,
    ticks: &[u8],
) -> Result<(), Refusal>
    ensures { refused result ≡ first_refusal (reason (filler_tests pages.now.made words filler)) (reason (delete_tests region e (subregions_in names.now parents.now tag) (count_in shares.now e) (led_among_in frames.now.standing counted frames.now.widths.now frames.now.slots.now pages.now.owners.now (tick_at ticks.now)))) }
{
    checks::check_filler(pages.made, words, filler)?;
    if 64 <= e {
        return Err(Refusal::NoRegion);
    }
    if region == 1 {
        return Err(Refusal::Permanent);
    }
    let below = regions::subregions_of(names, parents, tag);
    let stored = regions::count_at(shares, e);
    if below != 0 {
        return Err(Refusal::Subregion);
    }
    if stored != 0 || look(frames, counted, pages.owners, ticks) {
        return Err(Refusal::Counted);
    }
    Ok(())
}

// The shares with the pointers of the frames that are counted once m is raised, by that filler.
pub fn enter_frames(frames: &FramesIn, counted: u32, owners: &[u8], shares: &mut [u32], filler: u32)
    ensures { shares.new ≡ enterings filler shares.old (newly_in frames.now.standing counted frames.now.widths.now frames.now.slots.now owners.now) }
{
    let n = frames.frame_count().saturating_sub(1);
    for i in counted..n {
        checks::step_slots(frames, owners, shares, Way::In, filler, i);
    }
}
