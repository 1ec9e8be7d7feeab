// Any call by its number, in place.
#![tactic(auto)]

ghost use Rattle.outcomes.specs.Outcome.{store};
ghost use Rattle.lent.specs.Lent.{state_of};
ghost use Rattle.dispatch.specs.Dispatch.{Dispatched};

use refusals::Refusal;
use state::Reply;

// The call numbered `number`, on the state lent, as document 01 numbers its calls, 24 for delete_all and 25 for locate, with its arguments from the left; what it does not take is ignored.
// The list is declare's marks or delete_all's names. The filler of drop, hand_back, set_pointer, delete and delete_all is the argument after document 01's: a, c, d, b, and a beside
// delete_all's list. A number that is no call's is answered 24. View's part is had from `view_in`.
// No enum of calls: the number is what who calls this gives (README).
pub fn call_in(
    standing: &mut u32,
    counted: &mut u32,
    declared: &mut u32,
    given: &mut u32,
    made: &mut u32,
    widths: &mut [u8; 32],
    slots: &mut [u32; 256],
    sizes: &mut [u8; 16],
    marks: &mut [u8; 256],
    names: &mut [u32; 64],
    parents: &mut [u8; 64],
    levels: &mut [u8; 64],
    shares: &mut [u32; 256],
    newest: &mut [u16; 64],
    oldest: &mut [u32; 64],
    owners: &mut [u8; 256],
    taken: &mut [u8; 256],
    heap: &mut [u32],
    number: u32,
    a: u32,
    b: u32,
    c: u32,
    d: u32,
    list: &[u32],
) -> Reply
    ensures { Dispatched number a b c d list.now (store (state_of standing.old counted.old declared.old given.old made.old widths.old slots.old sizes.old marks.old names.old parents.old levels.old shares.old newest.old oldest.old owners.old taken.old) heap.old) result (store (state_of standing.new counted.new declared.new given.new made.new widths.new slots.new sizes.new marks.new names.new parents.new levels.new shares.new newest.new oldest.new owners.new taken.new) heap.new) }
{
    match number {
        2 => calls_make::declare_in(*made, declared, sizes, marks, heap, list),
        3 => calls_regions::new_region_in(
            *made, given, names, parents, levels, shares, newest, oldest, heap,
        ),
        4 => calls_regions::subregion_in(
            *made, given, names, parents, levels, shares, newest, oldest, heap, a,
        ),
        5 => calls_stack::push_in(*made, standing, widths, slots, heap, a),
        6 => calls_stack::drop_in(
            *made, standing, counted, widths, slots, shares, owners, heap, a,
        ),
        7 => calls_stack::hand_back_in(
            *made, standing, counted, widths, slots, shares, owners, heap, a, b, c,
        ),
        8 => calls_allocate::allocate_in(
            *made, *standing, *declared, widths, slots, sizes, names, newest, oldest, owners,
            taken, heap, a, b, c,
        ),
        9 => calls_slots::first_in(*made, *standing, widths, slots, names, oldest, heap, a, b),
        10 => calls_slots::copy_in(*made, *standing, widths, slots, heap, a, b),
        11 => calls_slots::fetch_in(*made, *standing, widths, slots, heap, a, b),
        12 => calls_slots::clear_in(*made, *standing, widths, slots, heap, a),
        13 => calls_pointers::load_in(
            *made, *standing, *declared, widths, slots, sizes, marks, heap, a, b, c,
        ),
        14 => calls_pointers::set_pointer_in(
            *made, *standing, *declared, widths, slots, sizes, marks, names, parents, levels,
            shares, owners, heap, a, b, c, d,
        ),
        15 => calls_words::put_in(
            *made, *standing, *declared, widths, slots, sizes, marks, heap, a, b, c,
        ),
        16 => calls_words::get_in(
            *made, *standing, *declared, widths, slots, sizes, marks, heap, a, b,
        ),
        17 => {
            let v = calls_words::view_in(
                *made, *standing, *declared, widths, slots, sizes, marks, heap, a,
            );
            checks::refused(v.refusal)
        }
        18 => calls_about::same_in(*made, *standing, widths, slots, heap, a, b),
        19 => calls_about::about_in(*made, *standing, widths, slots, names, owners, heap, a),
        20 => calls_report::report_in(
            *made, *standing, *counted, widths, slots, names, parents, shares, owners, heap, a,
        ),
        21 => calls_about::totals_in(*made, *standing, *counted, names, owners),
        22 => calls_audit::audit_in(
            *made, *standing, *counted, *declared, *given, widths, slots, sizes, marks, names,
            parents, levels, shares, newest, oldest, owners, taken, heap,
        ),
        23 => calls_delete::delete_in(
            *made, *standing, counted, *declared, widths, slots, sizes, marks, names, parents,
            shares, owners, taken, heap, a, b,
        ),
        24 => calls_delete_all::delete_all_in(
            *made, *standing, counted, *declared, widths, slots, sizes, marks, names, parents,
            shares, owners, taken, heap, list, a,
        ),
        25 => calls_about::locate_in(*made, *standing, widths, slots, heap, a),
        _ => checks::refuses(Refusal::NoCall),
    }
}
