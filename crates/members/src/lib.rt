// The regions that a list names, known together: ticks by tag, 1 for a member. What is wrong with the list itself, and with its names one by one.
#![tactic(auto)]

ghost use Rattle.std.specs.Prelude.{◌≡◌, map, set, replicate};
ghost use Rattle.model.specs.Calls.{reason, wrong_names, name_tests};
ghost use Rattle.lists.specs.Ticks.{tick_at, ticked};
ghost use Rattle.refusals.specs.Refusals.{refused};
ghost use Rattle.members.specs.Members.{tag_by, dead_by, name_refusal};

use refusals::Refusal;

// A byte for each number that a page's owner can be, so that no test of an owner is needed before it is looked up.
#[derive(Clone, Copy)]
pub struct Members {
    pub ticks: [u8; 256],
}

// Whether the region with that tag is a member, by ticks lent.
#[tactic(auto, unfolding(lists::specs::Ticks::tick_at))]
pub fn is_member(ticks: &[u8], t: u32) -> bool
    ensures { result ≡ tick_at ticks.now t }
{
    cells::get(ticks, t as usize) == 1
}

impl Members {
    pub fn none() -> Members
        ensures { result.ticks ≡ replicate 256 0 }
    {
        Members { ticks: [0; 256] }
    }

    // Whether the region with that tag is a member.
    pub fn is_member(&self, t: u32) -> bool
        ensures { result ≡ tick_at self.now.ticks t }
    {
        is_member(&self.ticks, t)
    }

    pub fn tick(&mut self, t: u32)
        ensures { self.new.ticks ≡ set self.old.ticks t 1 }
    {
        cells::put(&mut self.ticks, t as usize, 1);
    }

    // Ticks the regions that the list names; a dead name has tag 65, which is no region's. Gives the first refusal that a name has, and ticks on after it.
    pub fn tick_named<'a>(&mut self, names: &'a [u32], list: &'a [u32]) -> Result<(), Refusal>
        ensures { (refused result ≡ reason (name_tests (dead_by names.now) list.now)) × (self.new.ticks ≡ ticked self.old.ticks (map (tag_by names.now) list.now)) }
    {
        let mut first = Ok(());
        for n in list {
            let name = *n;
            let e = regions::entry_of(names, name);
            first = first.and(name_refusal(e, name));
            self.tick(e + 1);
        }
        first
    }
}

// Whether the list is empty, longer than 16 or has a name twice.
#[tactic(auto, unfolding(model::specs::Calls::wrong_names))]
pub fn wrong_names(list: &[u32]) -> bool
    ensures { result ≡ wrong_names list.now }
{
    if list.is_empty() || 16 < list.len() {
        return true;
    }
    for (i, n) in list.iter().enumerate() {
        if list[i + 1..].contains(n) {
            return true;
        }
    }
    false
}

// Why a region with that entry and that name may not go; the entry is 64 where no live region has the name.
#[tactic(auto, unfolding(crate::specs::Members::name_refusal))]
fn name_refusal(e: u32, n: u32) -> Result<(), Refusal>
    ensures { refused result ≡ name_refusal e n }
{
    if 64 <= e {
        return Err(Refusal::NoRegion);
    }
    if n == 1 {
        return Err(Refusal::Permanent);
    }
    Ok(())
}
