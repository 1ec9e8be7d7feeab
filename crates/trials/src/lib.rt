// Calls on the store, one after the other, with a line for those that a program is about.
#![tactic(auto)]

use state::{Done, State};
use std::io::Print;

// The numbers of the calls that programs make, in document 01, and in document 02's cards. They are numbers and no enum, since README's table has them, and `store::call` takes one.
pub const MAKE: u32 = 1;

pub const DECLARE: u32 = 2;

pub const NEW_REGION: u32 = 3;

pub const SUBREGION: u32 = 4;

pub const PUSH: u32 = 5;

pub const DROP: u32 = 6;

pub const HAND_BACK: u32 = 7;

pub const ALLOCATE: u32 = 8;

pub const CLEAR: u32 = 12;

pub const SET_POINTER: u32 = 14;

pub const PUT: u32 = 15;

pub const REPORT: u32 = 20;

pub const TOTALS: u32 = 21;

pub const AUDIT: u32 = 22;

pub const DELETE: u32 = 23;

pub const DELETE_ALL: u32 = 24;

// The call of that number with four numbers, as the call by its number has them: a filler is the one after document 01's arguments. Of delete_all the first is the filler and the others are the names, up to the first that is 0: no region has the name 0. Declare has its own function (`with_kind`).
pub fn called(s: State, heap: &mut [u32], call: [u32; 5]) -> Done {
    let [number, a, b, c, d] = call;
    let names = [b, c, d];
    let n = names.iter().position(|x| *x == 0).unwrap_or(3);
    store::call(s, heap, number, a, b, c, d, &names[..n])
}

// A call made n times, and once for 0, each time on what the one before left; the last one's reply.
fn times(s: State, heap: &mut [u32], n: u32, call: [u32; 5]) -> Done {
    let mut d = called(s, heap, call);
    for _ in 1..n {
        d = called(d.state, heap, call);
    }
    d
}

// A call with no line.
pub fn does(s: State, heap: &mut [u32], call: [u32; 5]) -> State {
    let d = called(s, heap, call);
    d.state
}

// A call made n times, with a line for the last, which begins with the call's number.
pub fn shows(rt: &impl Print, s: State, heap: &mut [u32], n: u32, call: [u32; 5]) -> State {
    let d = times(s, heap, n, call);
    lines::line(rt, call[0], d.reply);
    d.state
}

// Make, with its line.
pub fn made(rt: &impl Print, heap: &mut [u32]) -> State {
    let d = store::make(heap);
    lines::line(rt, MAKE, d.reply);
    d.state
}

// Make, with its line, and a kind.
pub fn with_kind(rt: &impl Print, heap: &mut [u32], marks: &[u32]) -> State {
    let s = made(rt, heap);
    let d = store::declare(s, heap, marks);
    d.state
}

// These calls, with no line.
pub fn plays(s: State, heap: &mut [u32], calls: &[[u32; 5]]) -> State {
    let mut t = s;
    for call in calls {
        t = does(t, heap, *call);
    }
    t
}
