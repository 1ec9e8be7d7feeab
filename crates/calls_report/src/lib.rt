// The call report, in place. It reads no heap word: the stored count has the outside pointers in words and counted frames, and the uncounted frames are looked through.
// Its parameters are the numbers and arrays of the state one by one, and no struct of them: README gives it so, and a host lends them so.
#![tactic(auto)]

ghost use Rattle.std.specs.Prelude.{◌≡◌, ◌==◌, ◌+◌, ◌%◌, ◌<◌, count_by};
ghost use Rattle.lists.specs.Lists.{times};
ghost use Rattle.model.specs.Model.{report};
ghost use Rattle.pages.specs.Pages.{owner_in};
ghost use Rattle.outcomes.specs.Store.{targets_in, slots_beyond_in};
ghost use Rattle.lent.specs.Lent.{InPlace, with_made, with_standing, with_counted, with_widths, with_slots, with_names, with_parents, with_shares, with_owners};

use frames::FramesIn;
use state::Reply;

// How many of these pointers lead into the region with that tag.
fn led(frame: &[u32], owners: &[u8], tag: u32) -> usize
    ensures { result ≡ count_by (λ v. owner_in owners.now v == tag) frame.now }
{
    frame
        .iter()
        .filter(|v| pages::owner_of(owners, **v) == tag)
        .count()
}

// How many slots of frame i lead into the region with that tag. Slots past the end of the array are null, and lead into none.
fn slots_of(frames: &FramesIn, owners: &[u8], tag: u32, i: u32) -> u32
    requires { 0 < tag }
    ensures { result ≡ times tag (targets_in frames.now.widths.now frames.now.slots.now owners.now i) }
{
    let n = frames.width_at(i);
    let frame = cells::part(frames.slots, 8 * (i as usize), n as usize);
    led(frame, owners, tag) as u32
}

// The outside pointers of a region: its stored count, and the slots of uncounted frames that lead into it.
fn outside(stored: u32, frames: &FramesIn, counted: u32, owners: &[u8], tag: u32) -> u32
    requires { 0 < tag }
    ensures { result ≡ (stored + slots_beyond_in frames.now.standing counted frames.now.widths.now frames.now.slots.now owners.now tag) % 4294967296 }
{
    let n = frames.frame_count();
    let mut sum = stored;
    for i in counted..n {
        sum = sum.wrapping_add(slots_of(frames, owners, tag, i));
    }
    sum
}

// Document 01's call 20: stored count, outside pointers, pages held and live subregions of a region.
pub fn report_in<'a>(
    made: u32,
    standing: u32,
    counted: u32,
    widths: &'a [u8; 32],
    slots: &'a [u32; 256],
    names: &'a [u32; 64],
    parents: &'a [u8; 64],
    shares: &[u32; 256],
    owners: &'a [u8; 256],
    heap: &[u32],
    region: u32,
) -> Reply
    ensures { InPlace (report region) (λ s. with_made made (with_standing standing (with_counted counted (with_widths widths.now (with_slots slots.now (with_names names.now (with_parents parents.now (with_shares shares.now (with_owners owners.now s))))))))) heap.now result (λ s. s) heap.now }
{
    let e = regions::entry_of(names, region);
    if let Err(r) = checks::check_region(made, heap.len(), e) {
        return checks::refuses(r);
    }
    // The entry is below 64 here. `min` keeps the compiler from working the tag out again at every slot.
    let t = e.min(63) + 1;
    let stored = regions::count_at(shares, e);
    let frames = FramesIn {
        standing,
        widths,
        slots,
    };
    let all = outside(stored, &frames, counted, owners, t);
    let held = pages::pages_of(made, owners, t);
    let below = regions::subregions_of(names, parents, t);
    checks::gives(stored, all, held, below)
}
