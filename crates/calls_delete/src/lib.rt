// The call delete, in the order of source document 000, chapter 4.5: the tests, the scan; then the pages are given back, which is the region library's part there.
// Its parameters are the numbers and arrays of the state one by one, and no struct of them: README gives it so, and a host lends them so.
#![tactic(auto)]

ghost use Rattle.model.specs.Model.{delete};
ghost use Rattle.lent.specs.Lent.{InPlace, with_made, with_standing, with_counted, with_declared, with_widths, with_slots, with_sizes, with_marks, with_names, with_parents, with_shares, with_owners, with_taken};

use frames::FramesIn;
use kinds::KindsIn;
use members::Members;
use pages::PagesIn;
use state::Reply;

// Document 01's call 23, for a filler (document 02, card 5): the region goes, with its objects and pages.
pub fn delete_in<'a>(
    made: u32,
    standing: u32,
    counted: &mut u32,
    declared: u32,
    widths: &'a [u8; 32],
    slots: &'a [u32; 256],
    sizes: &'a [u8; 16],
    marks: &'a [u8; 256],
    names: &mut [u32; 64],
    parents: &'a [u8; 64],
    shares: &mut [u32; 256],
    owners: &mut [u8; 256],
    taken: &'a [u8; 256],
    heap: &[u32],
    region: u32,
    filler: u32,
) -> Reply
    ensures { InPlace (delete region filler) (λ s. with_made made (with_standing standing (with_counted counted.old (with_declared declared (with_widths widths.now (with_slots slots.now (with_sizes sizes.now (with_marks marks.now (with_names names.old (with_parents parents.now (with_shares shares.old (with_owners owners.old (with_taken taken.now s))))))))))))) heap.now result (λ s. with_counted counted.new (with_names names.new (with_shares shares.new (with_owners owners.new s)))) heap.now }
{
    let e = regions::entry_of(names, region);
    let tag = e + 1;
    let m = *counted;
    let frames = FramesIn {
        standing,
        widths,
        slots,
    };
    let kinds = KindsIn {
        declared,
        sizes,
        marks,
    };
    let pages = PagesIn {
        made,
        owners,
        taken,
    };
    let mut members = Members::none();
    members.tick(tag);
    // checked
    if let Err(r) = delete_parts::delete_refusal(
        &pages,
        heap.len(),
        filler,
        region,
        e,
        tag,
        names,
        parents,
        shares,
        &frames,
        m,
        &members.ticks,
    ) {
        return checks::refuses(r);
    }
    // scanned
    let number = pages::pages_of(made, pages.owners, tag);
    apart::scan_held(number, &kinds, heap, &pages, &members, shares, filler);
    // the frames that m is raised over enter the shares, by the owners before any page is given back
    delete_parts::enter_frames(&frames, m, pages.owners, shares, filler);
    // given back
    apart::give_back_one(made, owners, tag as u8);
    cells::put(names, e as usize, 0);
    let raised = frames.top();
    *counted = raised;
    checks::gives(number, 0, 0, 0)
}
