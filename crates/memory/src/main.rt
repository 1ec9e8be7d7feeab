// What lies in memory, which no script shows. First two stores of one size, made of heaps that held different things, and one session on both: from make on their heaps are the same, word by word
// (document 02, card 4). They are compared five times, with a line for each: its place, 0, the words of a heap, and how many of them from the start on are the same in both: none before make, and 1 the
// last time, when another number was put in each. Then four fillers and their shares of the counts (document 02, card 5): a session, in which each call that has a line has two more, for the shares of two
// regions: the region's name, 0, and the shares of fillers 0 to 3, zeros where no region has that name.
#![tactic(auto)]

ghost use Rattle.std.specs.Prelude.{◌≡◌, not, ◌==◌, slice_index};
ghost use Rattle.lists.specs.Lists.{find_or, up_to};

use state::{Reply, State};
use std::io::Print;
use trials::{
    ALLOCATE, AUDIT, CLEAR, DELETE, DELETE_ALL, DROP, HAND_BACK, NEW_REGION, PUSH, PUT, REPORT,
    SET_POINTER, SUBREGION, called, plays, with_kind,
};

// ---- two heaps compared

// The words of each of the two heaps: 6 pages.
const WORDS: u32 = 384;

// How many of the first n words, from the start on, are the same in both heaps.
fn alike(a: &[u32], b: &[u32], n: u32) -> u32
    ensures { result ≡ find_or (λ i. not (slice_index a.now i == slice_index b.now i)) n (up_to n) }
{
    for i in 0..n {
        if cells::get(a, i as usize) != cells::get(b, i as usize) {
            return i;
        }
    }
    n
}

// A line for a comparison.
fn compared(rt: &impl Print, place: u32, a: &[u32], b: &[u32]) {
    lines::line(
        rt,
        place,
        Reply {
            refusal: 0,
            a: WORDS,
            b: alike(a, b, WORDS),
            c: 0,
            d: 0,
        },
    );
}

// A store with two kinds: one of 15 words, and one of a free pointer and a number.
fn opened(heap: &mut [u32]) -> State {
    let a = store::make(heap);
    let b = store::declare(a.state, heap, &[0u32; 15]);
    let marks = [1u32, 0];
    let c = store::declare(b.state, heap, &marks);
    c.state
}

// Four regions on pages 0 to 4, with words written and pointers set.
fn filled(s: State, heap: &mut [u32]) -> State {
    plays(
        s,
        heap,
        &[
            [PUSH, 8, 0, 0, 0],
            [NEW_REGION, 0, 0, 0, 0],
            [SUBREGION, 2, 0, 0, 0],
            [NEW_REGION, 0, 0, 0, 0],
            [ALLOCATE, 0, 2, 1, 0],
            [ALLOCATE, 1, 3, 2, 0],
            [ALLOCATE, 2, 4, 2, 0],
            [ALLOCATE, 3, 1, 2, 0],
            [ALLOCATE, 4, 2, 1, 0],
            [ALLOCATE, 4, 2, 1, 0],
            [ALLOCATE, 4, 2, 1, 0],
            [ALLOCATE, 5, 2, 2, 0],
            [PUT, 0, 14, 4294967295, 0],
            [PUT, 1, 1, 31, 0],
            [PUT, 4, 0, 32, 0],
            [SET_POINTER, 1, 0, 2, 0],
            [SET_POINTER, 2, 0, 1, 0],
            [SET_POINTER, 3, 0, 1, 0],
            [SET_POINTER, 5, 0, 3, 0],
        ],
    )
}

// Some calls are refused, regions 4 and 3 go together and region 2 by itself, and other regions take the pages that were theirs.
fn refilled(s: State, heap: &mut [u32]) -> State {
    plays(
        s,
        heap,
        &[
            [DELETE, 3, 0, 0, 0],
            [SET_POINTER, 3, 0, 7, 0],
            [CLEAR, 1, 0, 0, 0],
            [CLEAR, 2, 0, 0, 0],
            [DELETE_ALL, 0, 4, 3, 0],
            [NEW_REGION, 0, 0, 0, 0],
            [ALLOCATE, 1, 5, 2, 0],
            [PUT, 1, 0, 33, 0],
            [PUT, 1, 1, 34, 0],
            [ALLOCATE, 2, 9, 1, 0],
            [ALLOCATE, 2, 2, 1, 0],
            [ALLOCATE, 2, 2, 1, 0],
            [ALLOCATE, 2, 2, 1, 0],
            [ALLOCATE, 2, 2, 1, 0],
            [ALLOCATE, 2, 2, 1, 0],
            [PUT, 2, 3, 35, 0],
            [DROP, 0, 0, 0, 0],
            [DELETE, 2, 0, 0, 0],
            [PUSH, 2, 0, 0, 0],
            [ALLOCATE, 0, 5, 1, 0],
            [ALLOCATE, 0, 5, 1, 0],
            [ALLOCATE, 0, 5, 1, 0],
            [ALLOCATE, 1, 5, 1, 0],
            [PUT, 1, 14, 36, 0],
        ],
    )
}

// The two stores.
fn twins(rt: &impl Print) {
    let mut a = [7u32; 384];
    let mut b = [4294967295u32; 384];
    compared(rt, 1, &a, &b);
    let s = opened(&mut a);
    let t = opened(&mut b);
    compared(rt, 2, &a, &b);
    let s = filled(s, &mut a);
    let t = filled(t, &mut b);
    compared(rt, 3, &a, &b);
    let s = refilled(s, &mut a);
    let t = refilled(t, &mut b);
    compared(rt, 4, &a, &b);
    // what differs is found: another number in word 0 of the object in slot 1, which stands at the start of page 0
    plays(s, &mut a, &[[PUT, 1, 0, 1, 0]]);
    plays(t, &mut b, &[[PUT, 1, 0, 2, 0]]);
    compared(rt, 5, &a, &b);
}

// ---- shares of the counts

// A line for the shares of the region of that name.
fn shares_of<'a>(rt: &impl Print, names: &'a [u32], shares: &'a [u32], region: u32) {
    let e = regions::entry_of(names, region);
    lines::line(
        rt,
        region,
        Reply {
            refusal: 0,
            a: regions::share_at(shares, 0, e),
            b: regions::share_at(shares, 1, e),
            c: regions::share_at(shares, 2, e),
            d: regions::share_at(shares, 3, e),
        },
    );
}

// A call with its line, and the shares of two regions after it.
fn shown(
    rt: &impl Print,
    s: State,
    heap: &mut [u32],
    place: u32,
    one: u32,
    other: u32,
    call: [u32; 5],
) -> State {
    let d = called(s, heap, call);
    lines::line(rt, place, d.reply);
    let g = d.state.regions;
    shares_of(rt, &g.names, &g.shares, one);
    shares_of(rt, &g.names, &g.shares, other);
    d.state
}

// Calls from that place on, each shown so.
fn shows(
    rt: &impl Print,
    s: State,
    heap: &mut [u32],
    first: u32,
    one: u32,
    other: u32,
    calls: &[[u32; 5]],
) -> State {
    let mut t = s;
    let mut place = first;
    for call in calls {
        t = shown(rt, t, heap, place, one, other, *call);
        place = place.wrapping_add(1);
    }
    t
}

// An object of region 1, and of regions 2 and 3 one each.
fn triple(rt: &impl Print, heap: &mut [u32]) -> State {
    let s = with_kind(rt, heap, &[1u32]);
    plays(
        s,
        heap,
        &[
            [PUSH, 3, 0, 0, 0],
            [NEW_REGION, 0, 0, 0, 0],
            [NEW_REGION, 0, 0, 0, 0],
            [ALLOCATE, 0, 1, 1, 0],
            [ALLOCATE, 1, 2, 1, 0],
            [ALLOCATE, 2, 3, 1, 0],
        ],
    )
}

// Which shares of regions 2 and 3 move. Filler 1 has region 1's object lead into region 2, and filler 3 into region 3, where filler 0 has region 2's lead too. Filler 2 deletes region 4, which counts the
// lower frame, and filler 1 drops the upper one. So region 2 has the shares 0, 0, 1 and 2^32 - 1, and filler 3 can delete it: its pointer into region 3 leaves that filler's share.
fn singly(rt: &impl Print, heap: &mut [u32]) -> State {
    let s = triple(rt, heap);
    shows(
        rt,
        s,
        heap,
        9,
        2,
        3,
        &[
            [SET_POINTER, 0, 0, 1, 1],
            [SET_POINTER, 0, 0, 2, 3],
            [SET_POINTER, 1, 0, 2, 0],
            [PUSH, 1, 0, 0, 0],
            [NEW_REGION, 0, 0, 0, 0],
            [DELETE, 4, 2, 0, 0],
            [DROP, 1, 0, 0, 0],
            [CLEAR, 1, 0, 0, 0],
            [DELETE, 2, 3, 0, 0],
        ],
    )
}

// That, and then hand back and a joint delete, with the shares of regions 3 and 5. Filler 0 clears region 1's pointer into region 3. It deletes region 6, by a list, which counts the lower frame with its
// pointer into region 3, and filler 3 hands null back, to another slot of that frame, which is on top then and counted no more: the pointer leaves that filler's share. Filler 1 has region 3's object lead into region 5, and filler 2 deletes region 3, by a list: the pointer
// leaves the share of filler 2.
fn each_share(rt: &impl Print) {
    let mut heap = [0u32; 192];
    let s = singly(rt, &mut heap);
    shows(
        rt,
        s,
        &mut heap,
        18,
        3,
        5,
        &[
            [NEW_REGION, 0, 0, 0, 0],
            [SET_POINTER, 0, 0, 1, 0],
            [PUSH, 1, 0, 0, 0],
            [NEW_REGION, 0, 0, 0, 0],
            [DELETE_ALL, 0, 6, 0, 0],
            [HAND_BACK, 0, 1, 3, 0],
            [ALLOCATE, 1, 5, 1, 0],
            [SET_POINTER, 2, 0, 1, 1],
            [CLEAR, 2, 0, 0, 0],
            [DELETE_ALL, 2, 3, 0, 0],
            [REPORT, 5, 0, 0, 0],
            [AUDIT, 0, 0, 0, 0],
        ],
    );
}

fn main(rt: HostRuntime) {
    twins(&rt);
    each_share(&rt);
}
