// The region store: what a user imports. Every call of document 01, and of document 02's cards, under its name, and `call`, which takes the call's number: by value, and in place with `_in` after the name.
#![tactic(auto)]

ghost use Rattle.outcomes.specs.Outcome.{store};
ghost use Rattle.dispatch.specs.Dispatch.{Dispatched};

pub use by_value::{
    about, allocate, audit, clear, copy, declare, delete, delete_all, drop, fetch, first, get,
    hand_back, load, locate, make, new_region, push, put, report, same, set_pointer, subregion,
    totals, view, view_refusal,
};
pub use calls_about::{about_in, locate_in, same_in, totals_in};
pub use calls_allocate::allocate_in;
pub use calls_audit::audit_in;
pub use calls_delete::delete_in;
pub use calls_delete_all::delete_all_in;
pub use calls_make::{declare_in, make_in};
pub use calls_pointers::{load_in, set_pointer_in};
pub use calls_regions::{new_region_in, subregion_in};
pub use calls_report::report_in;
pub use calls_slots::{clear_in, copy_in, fetch_in, first_in};
pub use calls_stack::{drop_in, hand_back_in, push_in};
pub use calls_words::{get_in, put_in, view_in};
pub use dispatch::call_in;
pub use lent::View;
pub use state::{Done, Reply, State};

// Any call but make by its number, as `call_in` takes it, by value.
pub fn call(
    s: State,
    heap: &mut [u32],
    number: u32,
    a: u32,
    b: u32,
    c: u32,
    d: u32,
    list: &[u32],
) -> Done
    ensures { Dispatched number a b c d list.now (store s heap.old) result.reply (store result.state heap.new) }
{
    let mut state = s;
    let reply = call_in(
        &mut state.frames.standing,
        &mut state.frames.counted,
        &mut state.kinds.declared,
        &mut state.regions.given,
        &mut state.pages.made,
        &mut state.frames.widths,
        &mut state.frames.slots,
        &mut state.kinds.sizes,
        &mut state.kinds.marks,
        &mut state.regions.names,
        &mut state.regions.parents,
        &mut state.regions.levels,
        &mut state.regions.shares,
        &mut state.regions.newest,
        &mut state.regions.oldest,
        &mut state.pages.owners,
        &mut state.pages.taken,
        heap,
        number,
        a,
        b,
        c,
        d,
        list,
    );
    Done { state, reply }
}
