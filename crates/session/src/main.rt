// Document 01's session: a store of 2 pages, 16 calls, a line for each.
#![tactic(auto)]

use lines::line;
use state::State;
use std::io::Print;

// Lines 1 to 6.
fn opening(rt: &impl Print, heap: &mut [u32]) -> State {
    let a = store::make(heap);
    line(rt, 1, a.reply);
    let marks = [1u32, 0];
    let b = store::declare(a.state, heap, &marks);
    line(rt, 2, b.reply);
    let c = store::push(b.state, heap, 2);
    line(rt, 3, c.reply);
    let d = store::new_region(c.state, heap);
    line(rt, 4, d.reply);
    let e = store::allocate(d.state, heap, 0, 1, 1);
    line(rt, 5, e.reply);
    let f = store::allocate(e.state, heap, 1, 2, 1);
    line(rt, 6, f.reply);
    f.state
}

// Lines 7 to 11: a pointer holds region 2 back.
fn middle(rt: &impl Print, s: State, heap: &mut [u32]) -> State {
    let a = store::set_pointer(s, heap, 0, 0, 1, 0);
    line(rt, 7, a.reply);
    line(rt, 8, store::report(a.state, heap, 2));
    let b = store::clear(a.state, heap, 1);
    line(rt, 9, b.reply);
    let c = store::delete(b.state, heap, 2, 0);
    line(rt, 10, c.reply);
    let d = store::set_pointer(c.state, heap, 0, 0, 1, 0);
    line(rt, 11, d.reply);
    d.state
}

// Lines 12 to 16: region 2 goes, and its name with it.
fn ending(rt: &impl Print, s: State, heap: &mut [u32]) {
    let a = store::delete(s, heap, 2, 0);
    line(rt, 12, a.reply);
    let b = store::new_region(a.state, heap);
    line(rt, 13, b.reply);
    line(rt, 14, store::report(b.state, heap, 2));
    let c = store::allocate(b.state, heap, 1, 3, 1);
    line(rt, 15, c.reply);
    let d = store::drop(c.state, heap, 0);
    line(rt, 16, d.reply);
}

fn main(rt: HostRuntime) {
    let mut heap = [0u32; 128];
    let s = opening(&rt, &mut heap);
    let t = middle(&rt, s, &mut heap);
    ending(&rt, t, &mut heap);
}
