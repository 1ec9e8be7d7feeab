// The audit's tests of newest pages and oldest objects, and of slots. Pointers are looked up among the headers that audit_heap ticked.
#![tactic(auto)]

ghost use Rattle.std.specs.Prelude.{◌≡◌};
ghost use Rattle.lists.specs.Ticks.{tick_at};
ghost use Rattle.audit_slots.specs.Leads.{newest_fits, oldest_fits, entry_owns, entries_own, known, frame_leads, frames_lead};

use frames::FramesIn;
use pages::PagesIn;
use regions::RegionsIn;

// Whether entry i has no newest page, or one that was made and is its own.
#[tactic(auto, unfolding(crate::specs::Leads::newest_fits))]
fn newest_fits(newest: &[u16], pages: &PagesIn, i: u32) -> bool
    ensures { result ≡ newest_fits newest.now pages.now.made pages.now.owners.now i }
{
    let n = regions::newest_at(newest, i);
    n == 0 || (n - 1 < pages.page_count() && (pages.owner_at(n - 1) as usize) == (i as usize) + 1)
}

// Whether it has no oldest object, or one of its own.
#[tactic(auto, unfolding(crate::specs::Leads::oldest_fits))]
fn oldest_fits(heads: &[u8], oldest: &[u32], pages: &PagesIn, i: u32) -> bool
    ensures { result ≡ oldest_fits (tick_at heads.now) oldest.now pages.now.owners.now i }
{
    let v = regions::oldest_at(oldest, i);
    v == 0
        || (audit_heap::stands_at(heads, v - 1) && (pages.owner_of(v) as usize) == (i as usize) + 1)
}

// Whether entry i is not in use, or both are its own.
#[tactic(auto, unfolding(crate::specs::Leads::entry_owns))]
fn entry_owns(
    heads: &[u8],
    regions: &RegionsIn,
    newest: &[u16],
    oldest: &[u32],
    pages: &PagesIn,
    i: u32,
) -> bool
    ensures { result ≡ entry_owns (tick_at heads.now) regions.now.names.now newest.now oldest.now pages.now.made pages.now.owners.now i }
{
    regions.name_at(i) == 0
        || (newest_fits(newest, pages, i) && oldest_fits(heads, oldest, pages, i))
}

// Whether the newest page and the oldest object of each entry in use, if it has them, are its own.
pub fn entries_own(
    heads: &[u8],
    regions: &RegionsIn,
    newest: &[u16],
    oldest: &[u32],
    pages: &PagesIn,
) -> bool
    ensures { result ≡ entries_own (tick_at heads.now) regions.now.names.now newest.now oldest.now pages.now.made pages.now.owners.now }
{
    (0..64).all(|i| entry_owns(heads, regions, newest, oldest, pages, i))
}

// Whether a pointer is null or leads to an object.
#[tactic(auto, unfolding(crate::specs::Leads::known))]
fn known(heads: &[u8], v: u32) -> bool
    ensures { result ≡ known (tick_at heads.now) v }
{
    v == 0 || audit_heap::stands_at(heads, v - 1)
}

fn frame_leads(heads: &[u8], frames: &FramesIn, i: u32) -> bool
    ensures { result ≡ frame_leads (tick_at heads.now) frames.now.widths.now frames.now.slots.now i }
{
    let n = frames.width_at(i);
    (0..n).all(|s| known(heads, frames.slot_at(i, s)))
}

// Whether every slot is null or leads to an object.
pub fn frames_lead(heads: &[u8], frames: &FramesIn) -> bool
    ensures { result ≡ frames_lead (tick_at heads.now) frames.now.standing frames.now.widths.now frames.now.slots.now }
{
    let n = frames.frame_count();
    (0..n).all(|i| frame_leads(heads, frames, i))
}
