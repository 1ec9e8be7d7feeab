// The calls by value, as document 01 has them: each lends its call in place the parts of the state that this reads and changes. No rule stands here.
// Where a part that is only read comes before the first that changes, all are lent through one loan of the whole state. Those that leave the state as it is and read little of it lend copies of those parts: lending out of `s` itself would copy all of it.
#![tactic(auto)]

ghost use Rattle.std.specs.Prelude.{◌≡◌, List, [], ℕ};
ghost use Rattle.model.specs.Model.{declare, new_region, subregion, push, drop_frame, hand_back, allocate, first, copy, fetch, clear, load, set_pointer, put, get, view, same, about, report, totals, audit, delete, delete_all, locate, ask};
ghost use Rattle.outcomes.specs.Shape.{Bits32, Sized, Shaped};
ghost use Rattle.outcomes.specs.Outcome.{Outcome, MakeOutcome, answer_of, view_answer, store, refusal};

use frames::Frames;
use kinds::Kinds;
use pages::Pages;
use regions::Regions;
use state::{Done, Reply, State};

pub fn make(heap: &mut [u32]) -> Done
    ensures { MakeOutcome heap.old (answer_of result.reply []) (store result.state heap.new) }
{
    let mut state = State {
        frames: Frames {
            standing: 0,
            counted: 0,
            widths: [0; 32],
            slots: [0; 256],
        },
        kinds: Kinds {
            declared: 0,
            sizes: [0; 16],
            marks: [0; 256],
        },
        regions: Regions {
            given: 0,
            names: [0; 64],
            parents: [0; 64],
            levels: [0; 64],
            shares: [0; 256],
            newest: [0; 64],
            oldest: [0; 64],
        },
        pages: Pages {
            made: 0,
            owners: [0; 256],
            taken: [0; 256],
        },
    };
    let reply = calls_make::make_in(
        &mut state.frames.standing,
        &mut state.frames.counted,
        &mut state.kinds.declared,
        &mut state.regions.given,
        &mut state.pages.made,
        &mut state.frames.widths,
        &mut state.frames.slots,
        &mut state.kinds.sizes,
        &mut state.kinds.marks,
        &mut state.regions.names,
        &mut state.regions.parents,
        &mut state.regions.levels,
        &mut state.regions.shares,
        &mut state.regions.newest,
        &mut state.regions.oldest,
        &mut state.pages.owners,
        &mut state.pages.taken,
        heap,
    );
    Done { state, reply }
}

pub fn declare(s: State, heap: &[u32], marks: &[u32]) -> Done
    ensures { Outcome (declare marks.now) (store s heap.now) (answer_of result.reply []) (store result.state heap.now) }
{
    let mut state = s;
    let reply = calls_make::declare_in(
        state.pages.made,
        &mut state.kinds.declared,
        &mut state.kinds.sizes,
        &mut state.kinds.marks,
        heap,
        marks,
    );
    Done { state, reply }
}

pub fn new_region(s: State, heap: &[u32]) -> Done
    ensures { Outcome new_region (store s heap.now) (answer_of result.reply []) (store result.state heap.now) }
{
    let mut state = s;
    let reply = calls_regions::new_region_in(
        state.pages.made,
        &mut state.regions.given,
        &mut state.regions.names,
        &mut state.regions.parents,
        &mut state.regions.levels,
        &mut state.regions.shares,
        &mut state.regions.newest,
        &mut state.regions.oldest,
        heap,
    );
    Done { state, reply }
}

pub fn subregion(s: State, heap: &[u32], above: u32) -> Done
    ensures { Outcome (subregion above) (store s heap.now) (answer_of result.reply []) (store result.state heap.now) }
{
    let mut state = s;
    let reply = calls_regions::subregion_in(
        state.pages.made,
        &mut state.regions.given,
        &mut state.regions.names,
        &mut state.regions.parents,
        &mut state.regions.levels,
        &mut state.regions.shares,
        &mut state.regions.newest,
        &mut state.regions.oldest,
        heap,
        above,
    );
    Done { state, reply }
}

pub fn push(s: State, heap: &[u32], slots: u32) -> Done
    ensures { Outcome (push slots) (store s heap.now) (answer_of result.reply []) (store result.state heap.now) }
{
    let mut state = s;
    let reply = calls_stack::push_in(
        state.pages.made,
        &mut state.frames.standing,
        &mut state.frames.widths,
        &mut state.frames.slots,
        heap,
        slots,
    );
    Done { state, reply }
}

pub fn drop(s: State, heap: &[u32], filler: u32) -> Done
    ensures { Outcome (drop_frame filler) (store s heap.now) (answer_of result.reply []) (store result.state heap.now) }
{
    let mut state = s;
    let reply = calls_stack::drop_in(
        state.pages.made,
        &mut state.frames.standing,
        &mut state.frames.counted,
        &state.frames.widths,
        &state.frames.slots,
        &mut state.regions.shares,
        &state.pages.owners,
        heap,
        filler,
    );
    Done { state, reply }
}

pub fn hand_back(s: State, heap: &[u32], slot: u32, beneath: u32, filler: u32) -> Done
    ensures { Outcome (hand_back slot beneath filler) (store s heap.now) (answer_of result.reply []) (store result.state heap.now) }
{
    let mut state = s;
    let reply = calls_stack::hand_back_in(
        state.pages.made,
        &mut state.frames.standing,
        &mut state.frames.counted,
        &state.frames.widths,
        &mut state.frames.slots,
        &mut state.regions.shares,
        &state.pages.owners,
        heap,
        slot,
        beneath,
        filler,
    );
    Done { state, reply }
}

pub fn allocate(s: State, heap: &mut [u32], slot: u32, region: u32, kind: u32) -> Done
    ensures { Outcome (allocate slot region kind) (store s heap.old) (answer_of result.reply []) (store result.state heap.new) }
{
    let mut state = s;
    let lent = &mut state;
    let reply = calls_allocate::allocate_in(
        lent.pages.made,
        lent.frames.standing,
        lent.kinds.declared,
        &lent.frames.widths,
        &mut lent.frames.slots,
        &lent.kinds.sizes,
        &lent.regions.names,
        &mut lent.regions.newest,
        &mut lent.regions.oldest,
        &mut lent.pages.owners,
        &mut lent.pages.taken,
        heap,
        slot,
        region,
        kind,
    );
    Done { state, reply }
}

pub fn first(s: State, heap: &[u32], slot: u32, region: u32) -> Done
    ensures { Outcome (first slot region) (store s heap.now) (answer_of result.reply []) (store result.state heap.now) }
{
    let mut state = s;
    let lent = &mut state;
    let reply = calls_slots::first_in(
        lent.pages.made,
        lent.frames.standing,
        &lent.frames.widths,
        &mut lent.frames.slots,
        &lent.regions.names,
        &lent.regions.oldest,
        heap,
        slot,
        region,
    );
    Done { state, reply }
}

pub fn copy(s: State, heap: &[u32], from: u32, to: u32) -> Done
    ensures { Outcome (copy from to) (store s heap.now) (answer_of result.reply []) (store result.state heap.now) }
{
    let mut state = s;
    let lent = &mut state;
    let reply = calls_slots::copy_in(
        lent.pages.made,
        lent.frames.standing,
        &lent.frames.widths,
        &mut lent.frames.slots,
        heap,
        from,
        to,
    );
    Done { state, reply }
}

pub fn fetch(s: State, heap: &[u32], from: u32, to: u32) -> Done
    ensures { Outcome (fetch from to) (store s heap.now) (answer_of result.reply []) (store result.state heap.now) }
{
    let mut state = s;
    let lent = &mut state;
    let reply = calls_slots::fetch_in(
        lent.pages.made,
        lent.frames.standing,
        &lent.frames.widths,
        &mut lent.frames.slots,
        heap,
        from,
        to,
    );
    Done { state, reply }
}

pub fn clear(s: State, heap: &[u32], slot: u32) -> Done
    ensures { Outcome (clear slot) (store s heap.now) (answer_of result.reply []) (store result.state heap.now) }
{
    let mut state = s;
    let lent = &mut state;
    let reply = calls_slots::clear_in(
        lent.pages.made,
        lent.frames.standing,
        &lent.frames.widths,
        &mut lent.frames.slots,
        heap,
        slot,
    );
    Done { state, reply }
}

pub fn load(s: State, heap: &[u32], slot: u32, w: u32, to: u32) -> Done
    ensures { Outcome (load slot w to) (store s heap.now) (answer_of result.reply []) (store result.state heap.now) }
{
    let mut state = s;
    let lent = &mut state;
    let reply = calls_pointers::load_in(
        lent.pages.made,
        lent.frames.standing,
        lent.kinds.declared,
        &lent.frames.widths,
        &mut lent.frames.slots,
        &lent.kinds.sizes,
        &lent.kinds.marks,
        heap,
        slot,
        w,
        to,
    );
    Done { state, reply }
}

pub fn set_pointer(s: State, heap: &mut [u32], slot: u32, w: u32, value: u32, filler: u32) -> Done
    ensures { Outcome (set_pointer slot w value filler) (store s heap.old) (answer_of result.reply []) (store result.state heap.new) }
{
    let mut state = s;
    let lent = &mut state;
    let reply = calls_pointers::set_pointer_in(
        lent.pages.made,
        lent.frames.standing,
        lent.kinds.declared,
        &lent.frames.widths,
        &lent.frames.slots,
        &lent.kinds.sizes,
        &lent.kinds.marks,
        &lent.regions.names,
        &lent.regions.parents,
        &lent.regions.levels,
        &mut lent.regions.shares,
        &lent.pages.owners,
        heap,
        slot,
        w,
        value,
        filler,
    );
    Done { state, reply }
}

pub fn put(s: State, heap: &mut [u32], slot: u32, w: u32, value: u32) -> Reply
    ensures { Outcome (put slot w value) (store s heap.old) (answer_of result []) (store s heap.new) }
{
    let f = s.frames;
    let k = s.kinds;
    calls_words::put_in(
        s.pages.made,
        f.standing,
        k.declared,
        &f.widths,
        &f.slots,
        &k.sizes,
        &k.marks,
        heap,
        slot,
        w,
        value,
    )
}

pub fn get(s: State, heap: &[u32], slot: u32, w: u32) -> Reply
    ensures { Outcome (get slot w) (store s heap.now) (answer_of result []) (store s heap.now) }
{
    let f = s.frames;
    let k = s.kinds;
    calls_words::get_in(
        s.pages.made,
        f.standing,
        k.declared,
        &f.widths,
        &f.slots,
        &k.sizes,
        &k.marks,
        heap,
        slot,
        w,
    )
}

pub fn same(s: State, heap: &[u32], a: u32, b: u32) -> Reply
    ensures { Outcome (same a b) (store s heap.now) (answer_of result []) (store s heap.now) }
{
    let f = s.frames;
    calls_about::same_in(s.pages.made, f.standing, &f.widths, &f.slots, heap, a, b)
}

pub fn about(s: State, heap: &[u32], slot: u32) -> Reply
    ensures { Outcome (about slot) (store s heap.now) (answer_of result []) (store s heap.now) }
{
    let f = s.frames;
    let names = s.regions.names;
    let p = s.pages;
    calls_about::about_in(
        p.made, f.standing, &f.widths, &f.slots, &names, &p.owners, heap, slot,
    )
}

pub fn totals(s: State) -> Reply
    ensures { (heap : List ℕ) → Outcome totals (store s heap) (answer_of result []) (store s heap) }
{
    let names = s.regions.names;
    let p = s.pages;
    calls_about::totals_in(
        p.made,
        s.frames.standing,
        s.frames.counted,
        &names,
        &p.owners,
    )
}

pub fn report(s: State, heap: &[u32], region: u32) -> Reply
    ensures { Outcome (report region) (store s heap.now) (answer_of result []) (store s heap.now) }
{
    calls_report::report_in(
        s.pages.made,
        s.frames.standing,
        s.frames.counted,
        &s.frames.widths,
        &s.frames.slots,
        &s.regions.names,
        &s.regions.parents,
        &s.regions.shares,
        &s.pages.owners,
        heap,
        region,
    )
}

// The contract says too what demand 3 asks of audited memory beside the answer, the lengths of the state's arrays; and that the memory is of the language's types where the heap's words are.
// `arrays_shaped` does nothing: the types give that.
pub fn audit(s: State, heap: &[u32]) -> Reply
    ensures { Outcome audit (store s heap.now) (answer_of result []) (store s heap.now) × Sized (store s heap.now) × (Bits32 heap.now → Shaped (store s heap.now)) }
{
    shapes::arrays_shaped(s);
    calls_audit::audit_in(
        s.pages.made,
        s.frames.standing,
        s.frames.counted,
        s.kinds.declared,
        s.regions.given,
        &s.frames.widths,
        &s.frames.slots,
        &s.kinds.sizes,
        &s.kinds.marks,
        &s.regions.names,
        &s.regions.parents,
        &s.regions.levels,
        &s.regions.shares,
        &s.regions.newest,
        &s.regions.oldest,
        &s.pages.owners,
        &s.pages.taken,
        heap,
    )
}

// View's check, beside view itself: the number of the refusal, as README gives it.
pub fn view_refusal(s: State, heap: &[u32], slot: u32) -> u32
    ensures { result ≡ refusal (store s heap.now) (view slot) }
{
    let f = s.frames;
    let k = s.kinds;
    let v = calls_words::view_in(
        s.pages.made,
        f.standing,
        k.declared,
        &f.widths,
        &f.slots,
        &k.sizes,
        &k.marks,
        heap,
        slot,
    );
    v.refusal
}

// The object's part of the heap itself, which begins at its word 0; empty where view_refusal refuses.
pub fn view<'a>(s: State, heap: &'a [u32], slot: u32) -> &'a [u32]
    ensures { Outcome (view slot) (store s heap.now) (view_answer (store s heap.now) slot result.now) (store s heap.now) }
{
    let f = s.frames;
    let k = s.kinds;
    let v = calls_words::view_in(
        s.pages.made,
        f.standing,
        k.declared,
        &f.widths,
        &f.slots,
        &k.sizes,
        &k.marks,
        heap,
        slot,
    );
    let a = v.place as usize;
    let n = v.count as usize;
    let b = a + n;
    &heap[a..b]
}

pub fn delete(s: State, heap: &[u32], region: u32, filler: u32) -> Done
    ensures { Outcome (delete region filler) (store s heap.now) (answer_of result.reply []) (store result.state heap.now) }
{
    let mut state = s;
    let reply = calls_delete::delete_in(
        state.pages.made,
        state.frames.standing,
        &mut state.frames.counted,
        state.kinds.declared,
        &state.frames.widths,
        &state.frames.slots,
        &state.kinds.sizes,
        &state.kinds.marks,
        &mut state.regions.names,
        &state.regions.parents,
        &mut state.regions.shares,
        &mut state.pages.owners,
        &state.pages.taken,
        heap,
        region,
        filler,
    );
    Done { state, reply }
}

pub fn delete_all(s: State, heap: &[u32], list: &[u32], filler: u32) -> Done
    ensures { Outcome (delete_all list.now filler) (store s heap.now) (answer_of result.reply []) (store result.state heap.now) }
{
    let mut state = s;
    let reply = calls_delete_all::delete_all_in(
        state.pages.made,
        state.frames.standing,
        &mut state.frames.counted,
        state.kinds.declared,
        &state.frames.widths,
        &state.frames.slots,
        &state.kinds.sizes,
        &state.kinds.marks,
        &mut state.regions.names,
        &state.regions.parents,
        &mut state.regions.shares,
        &mut state.pages.owners,
        &state.pages.taken,
        heap,
        list,
        filler,
    );
    Done { state, reply }
}

pub fn locate(s: State, heap: &[u32], slot: u32) -> Reply
    ensures { Outcome (ask (locate slot)) (store s heap.now) (answer_of result []) (store s heap.now) }
{
    let f = s.frames;
    calls_about::locate_in(s.pages.made, f.standing, &f.widths, &f.slots, heap, slot)
}
