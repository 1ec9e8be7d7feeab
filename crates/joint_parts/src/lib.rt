// Several regions at once, ticked by tag: what keeps them from being deleted together, and the entries that go with them.
#![tactic(auto)]

ghost use Rattle.std.specs.Prelude.{◌≡◌, not, ◌||◌, ◌<◌};
ghost use Rattle.regions.specs.Regions.{follows_in, closed_in};
ghost use Rattle.outcomes.specs.Store.{led_among_in};
ghost use Rattle.lists.specs.Ticks.{tick_at};
ghost use Rattle.joint_parts.specs.Joint.{still_counted, names_left};

use frames::FramesIn;
use members::Members;

// Whether entry e has no live region, or one that is right below no member, or a member.
#[tactic(auto, unfolding(regions::specs::Regions::follows_in))]
fn follows<'a>(names: &'a [u32], parents: &'a [u8], members: &'a Members, e: u32) -> bool
    requires { e < 64 }
    ensures { result ≡ follows_in names.now parents.now (tick_at members.now.ticks) e }
{
    regions::name_at(names, e) == 0
        || !members.is_member(regions::parent_at(parents, e))
        || members.is_member(e + 1)
}

// Whether every live region right below a member is a member.
pub fn closed<'a>(names: &'a [u32], parents: &'a [u8], members: &'a Members) -> bool
    ensures { result ≡ closed_in names.now parents.now (tick_at members.now.ticks) }
{
    (0..64).all(|e| follows(names, parents, members, e))
}

// Whether some member's count is not 0.
fn still_counted<'a>(shares: &'a [u32], ticks: &'a [u8]) -> bool
    ensures { result ≡ still_counted shares.now (tick_at ticks.now) }
{
    (0..64).any(|i| members::is_member(ticks, i + 1) && regions::count_at(shares, i) != 0)
}

// 19, asked once the scan has removed the members' references from the counts: whether a member is counted still, or a slot of an uncounted frame leads into one.
pub fn pointed_at(
    frames: &FramesIn,
    counted: u32,
    owners: &[u8],
    shares: &[u32],
    ticks: &[u8],
) -> bool
    ensures { result ≡ (still_counted shares.now (tick_at ticks.now) || led_among_in frames.now.standing counted frames.now.widths.now frames.now.slots.now owners.now (tick_at ticks.now)) }
{
    still_counted(shares, ticks) || delete_parts::look(frames, counted, owners, ticks)
}

// The members' entries are given up.
pub fn give_up(names: &mut [u32; 64], members: &Members)
    ensures { names.new ≡ names_left names.old (tick_at members.now.ticks) 64 }
{
    for i in 0..64 {
        if members.is_member(i + 1) {
            cells::put(names, i as usize, 0);
        }
    }
}
