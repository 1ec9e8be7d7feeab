// Document 01's cases on the store: for each, make and then calls, with a line for those that the case is about.
// A line begins with the call's number.
#![tactic(auto)]

use std::io::Print;
use trials::{
    ALLOCATE, AUDIT, CLEAR, DECLARE, DELETE, DROP, NEW_REGION, PUSH, REPORT, SET_POINTER,
    SUBREGION, TOTALS, does, made, shows, with_kind,
};

// Make with the first n words of a heap.
fn makes(rt: &impl Print, heap: &mut [u32], n: usize) {
    if n <= heap.len() {
        made(rt, &mut heap[0..n]);
    }
}

// Make, and a kind with these marks, with its line.
fn declares(rt: &impl Print, marks: &[u32]) {
    let mut heap = [0u32; 64];
    let s = made(rt, &mut heap);
    let d = store::declare(s, &heap, marks);
    lines::line(rt, DECLARE, d.reply);
}

// So many objects of a kind fit a page, and the next takes another (totals shows the free pages).
fn packing(rt: &impl Print, marks: &[u32], fit: u32) {
    let mut heap = [0u32; 192];
    let s = with_kind(rt, &mut heap, marks);
    let s = does(s, &mut heap, [PUSH, 1, 0, 0, 0]);
    let s = shows(rt, s, &mut heap, fit, [ALLOCATE, 0, 1, 1, 0]);
    let s = shows(rt, s, &mut heap, 1, [TOTALS, 0, 0, 0, 0]);
    let s = shows(rt, s, &mut heap, 1, [ALLOCATE, 0, 1, 1, 0]);
    shows(rt, s, &mut heap, 1, [TOTALS, 0, 0, 0, 0]);
}

// Three objects of 16 words, and one of the kind with these marks (totals shows whether it took another page).
fn remaining(rt: &impl Print, marks: &[u32]) {
    let mut heap = [0u32; 192];
    let s = with_kind(rt, &mut heap, &[0u32; 16]);
    let d = store::declare(s, &heap, marks);
    let s = does(d.state, &mut heap, [PUSH, 1, 0, 0, 0]);
    let s = shows(rt, s, &mut heap, 3, [ALLOCATE, 0, 1, 1, 0]);
    let s = shows(rt, s, &mut heap, 1, [ALLOCATE, 0, 1, 2, 0]);
    shows(rt, s, &mut heap, 1, [TOTALS, 0, 0, 0, 0]);
}

// A page that is full gives 13; once the region that held it is deleted, it is there again.
fn full(rt: &impl Print) {
    let mut heap = [0u32; 64];
    let s = with_kind(rt, &mut heap, &[0u32; 15]);
    let s = does(s, &mut heap, [PUSH, 1, 0, 0, 0]);
    let s = does(s, &mut heap, [NEW_REGION, 0, 0, 0, 0]);
    let s = shows(rt, s, &mut heap, 4, [ALLOCATE, 0, 2, 1, 0]);
    let s = shows(rt, s, &mut heap, 1, [ALLOCATE, 0, 2, 1, 0]);
    let s = does(s, &mut heap, [CLEAR, 0, 0, 0, 0]);
    let s = shows(rt, s, &mut heap, 1, [DELETE, 2, 0, 0, 0]);
    let s = does(s, &mut heap, [NEW_REGION, 0, 0, 0, 0]);
    shows(rt, s, &mut heap, 1, [ALLOCATE, 0, 3, 1, 0]);
}

// An object's free word that leads to the object: the count stays.
fn itself(rt: &impl Print) {
    let mut heap = [0u32; 64];
    let s = with_kind(rt, &mut heap, &[1u32]);
    let s = does(s, &mut heap, [PUSH, 1, 0, 0, 0]);
    let s = does(s, &mut heap, [NEW_REGION, 0, 0, 0, 0]);
    let s = does(s, &mut heap, [ALLOCATE, 0, 2, 1, 0]);
    let s = shows(rt, s, &mut heap, 1, [REPORT, 2, 0, 0, 0]);
    let s = shows(rt, s, &mut heap, 1, [SET_POINTER, 0, 0, 0, 0]);
    shows(rt, s, &mut heap, 1, [REPORT, 2, 0, 0, 0]);
}

// A word marked 3 that leads into the region above: the count there stays.
fn above(rt: &impl Print) {
    let mut heap = [0u32; 128];
    let s = with_kind(rt, &mut heap, &[3u32]);
    let s = does(s, &mut heap, [PUSH, 2, 0, 0, 0]);
    let s = shows(rt, s, &mut heap, 1, [SUBREGION, 1, 0, 0, 0]);
    let s = does(s, &mut heap, [ALLOCATE, 0, 1, 1, 0]);
    let s = does(s, &mut heap, [ALLOCATE, 1, 2, 1, 0]);
    let s = shows(rt, s, &mut heap, 1, [REPORT, 1, 0, 0, 0]);
    let s = shows(rt, s, &mut heap, 1, [SET_POINTER, 1, 0, 0, 0]);
    shows(rt, s, &mut heap, 1, [REPORT, 1, 0, 0, 0]);
}

// A frame of 9 slots gives 8, one above 32 frames 7; a 64th live region is made, a 65th gives 4.
fn limits(rt: &impl Print) {
    let mut heap = [0u32; 64];
    let s = made(rt, &mut heap);
    let s = shows(rt, s, &mut heap, 1, [PUSH, 9, 0, 0, 0]);
    let s = shows(rt, s, &mut heap, 32, [PUSH, 1, 0, 0, 0]);
    let s = shows(rt, s, &mut heap, 1, [PUSH, 1, 0, 0, 0]);
    let s = shows(rt, s, &mut heap, 63, [NEW_REGION, 0, 0, 0, 0]);
    shows(rt, s, &mut heap, 1, [NEW_REGION, 0, 0, 0, 0]);
}

// A subregion and an outside pointer at once: delete gives 18.
fn both(rt: &impl Print) {
    let mut heap = [0u32; 64];
    let s = with_kind(rt, &mut heap, &[0u32]);
    let s = does(s, &mut heap, [PUSH, 1, 0, 0, 0]);
    let s = does(s, &mut heap, [NEW_REGION, 0, 0, 0, 0]);
    let s = shows(rt, s, &mut heap, 1, [SUBREGION, 2, 0, 0, 0]);
    let s = shows(rt, s, &mut heap, 1, [ALLOCATE, 0, 2, 1, 0]);
    shows(rt, s, &mut heap, 1, [DELETE, 2, 0, 0, 0]);
}

// Delete with three frames makes m 2, and a drop then makes it 1 (the last value of totals). Audit, asked last, gives 1.
fn mark(rt: &impl Print) {
    let mut heap = [0u32; 64];
    let s = made(rt, &mut heap);
    let s = shows(rt, s, &mut heap, 3, [PUSH, 1, 0, 0, 0]);
    let s = does(s, &mut heap, [NEW_REGION, 0, 0, 0, 0]);
    let s = shows(rt, s, &mut heap, 1, [DELETE, 2, 0, 0, 0]);
    let s = shows(rt, s, &mut heap, 1, [TOTALS, 0, 0, 0, 0]);
    let s = shows(rt, s, &mut heap, 1, [DROP, 0, 0, 0, 0]);
    let s = shows(rt, s, &mut heap, 1, [TOTALS, 0, 0, 0, 0]);
    shows(rt, s, &mut heap, 1, [AUDIT, 0, 0, 0, 0]);
}

fn main(rt: HostRuntime) {
    // Make of 1 and of 256 pages is accepted; of no word and of 257 pages it is refused by 1.
    let mut heap = [0u32; 16448];
    makes(&rt, &mut heap, 0);
    makes(&rt, &mut heap, 64);
    makes(&rt, &mut heap, 16384);
    makes(&rt, &mut heap, 16448);
    // A kind of 17 marks is refused by 11, one of 16 is not.
    declares(&rt, &[0u32; 17]);
    declares(&rt, &[0u32; 16]);
    // Kinds of 15 and of 16 words: four and three to a page.
    packing(&rt, &[0u32; 15], 4);
    packing(&rt, &[0u32; 16], 3);
    // Three of 16 leave 13 words: header and words of a kind of 12 fit, those of a kind of 13 do not.
    remaining(&rt, &[0u32; 12]);
    remaining(&rt, &[0u32; 13]);
    full(&rt);
    itself(&rt);
    above(&rt);
    limits(&rt);
    both(&rt);
    mark(&rt);
}
