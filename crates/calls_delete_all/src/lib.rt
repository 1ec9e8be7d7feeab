// The call delete_all: regions that go together. 19 comes after the scan (source document 000, chapter 4.3.1, on an array of regions): a reference from member to member keeps none of them; what is left
// of a count, or a slot, does.
// Its parameters are the numbers and arrays of the state one by one, and no struct of them: README gives it so, and a host lends them so.
#![tactic(auto)]

ghost use Rattle.std.specs.Prelude.{◌≡◌, map, IfOk};
ghost use Rattle.model.specs.Model.{delete_all};
ghost use Rattle.model.specs.Calls.{reason};
ghost use Rattle.lent.specs.Lent.{InPlace, with_made, with_standing, with_counted, with_declared, with_widths, with_slots, with_sizes, with_marks, with_names, with_parents, with_shares, with_owners, with_taken};
ghost use Rattle.lists.specs.Ticks.{tick_at, ticked};
ghost use Rattle.refusals.specs.Refusals.{refused};
ghost use Rattle.members.specs.Members.{tag_by};
ghost use Rattle.calls_delete_all.specs.DeleteAll.{list_tests};

use frames::FramesIn;
use kinds::KindsIn;
use members::Members;
use pages::PagesIn;
use refusals::Refusal;
use state::Reply;

// 21, 23, 22, then 2 and 3 for each name, then 18. The regions named are ticked, where it accepts.
#[tactic(auto, using(crate::proofs::Order::in_order))]
fn list_refusal<'a>(
    made: u32,
    words: usize,
    filler: u32,
    list: &'a [u32],
    names: &'a [u32],
    parents: &'a [u8],
    members: &mut Members,
) -> Result<(), Refusal>
    ensures { (refused result ≡ reason (list_tests made words filler list.now names.now parents.now (tick_at (ticked members.old.ticks (map (tag_by names.now) list.now))))) × IfOk result (λ _. members.new.ticks ≡ ticked members.old.ticks (map (tag_by names.now) list.now)) }
{
    checks::check_filler(made, words, filler)?;
    if members::wrong_names(list) {
        return Err(Refusal::WrongNames);
    }
    members.tick_named(names, list)?;
    if joint_parts::closed(names, parents, members) {
        Ok(())
    } else {
        Err(Refusal::Subregion)
    }
}

// Call 24 (document 02, card 2), for a filler (card 5): the regions named go together, with their objects and pages, or none of them does. The scan works on a copy of the shares, so that a refusal has
// nothing to undo, and no page is given back before the call is accepted.
pub fn delete_all_in<'a>(
    made: u32,
    standing: u32,
    counted: &mut u32,
    declared: u32,
    widths: &'a [u8; 32],
    slots: &'a [u32; 256],
    sizes: &'a [u8; 16],
    marks: &'a [u8; 256],
    names: &mut [u32; 64],
    parents: &'a [u8; 64],
    shares: &mut [u32; 256],
    owners: &mut [u8; 256],
    taken: &'a [u8; 256],
    heap: &[u32],
    list: &'a [u32],
    filler: u32,
) -> Reply
    ensures { InPlace (delete_all list.now filler) (λ s. with_made made (with_standing standing (with_counted counted.old (with_declared declared (with_widths widths.now (with_slots slots.now (with_sizes sizes.now (with_marks marks.now (with_names names.old (with_parents parents.now (with_shares shares.old (with_owners owners.old (with_taken taken.now s))))))))))))) heap.now result (λ s. with_counted counted.new (with_names names.new (with_shares shares.new (with_owners owners.new s)))) heap.now }
{
    let m = *counted;
    let frames = FramesIn {
        standing,
        widths,
        slots,
    };
    let kinds = KindsIn {
        declared,
        sizes,
        marks,
    };
    let pages = PagesIn {
        made,
        owners,
        taken,
    };
    let mut members = Members::none();
    if let Err(r) = list_refusal(made, heap.len(), filler, list, names, parents, &mut members) {
        return checks::refuses(r);
    }
    // scanned, on a copy of the shares
    let mut c = apart::scan(&kinds, heap, &pages, &members, *shares, filler);
    // the rest of the check
    if joint_parts::pointed_at(&frames, m, pages.owners, &c, &members.ticks) {
        return checks::refuses(Refusal::Counted);
    }
    // the frames that m is raised over enter the shares, by the owners before any page is given back
    delete_parts::enter_frames(&frames, m, pages.owners, &mut c, filler);
    *shares = c;
    // given back
    let number = apart::give_back(made, owners, &members);
    joint_parts::give_up(names, &members);
    let raised = frames.top();
    *counted = raised;
    checks::gives(number, 0, 0, 0)
}
