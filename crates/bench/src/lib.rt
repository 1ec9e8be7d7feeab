// What the calls cost: `bench`, which C calls, makes a store in the heap that it is lent, then makes n calls on it.
// A call costs the difference of two runs that differ by so many calls: making the store cancels out.
#![tactic(auto)]

use state::{Reply, State};

// As an argument a or b of a row: the name that was given last.
const LAST: u32 = u32::MAX;

// More calls than any run makes.
const MOST: usize = 1000000000;

// An argument of a row.
fn meant(x: u32, given: u32) -> u32 {
    if x == LAST { given } else { x }
}

// What replies add up to: the grounds of refusal, and the values.
#[derive(Clone, Copy, Default)]
struct Sum {
    refused: u32,
    values: u32,
}

impl Sum {
    fn and(self, r: Reply) -> Sum {
        let values = r.a.wrapping_add(r.b).wrapping_add(r.c).wrapping_add(r.d);
        Sum {
            refused: self.refused.wrapping_add(r.refusal),
            values: self.values.wrapping_add(values),
        }
    }
}

// The length of a part, as a reply.
fn viewed(part: &[u32]) -> Reply {
    let n = (part.len() % 4294967296) as u32;
    Reply {
        refusal: 0,
        a: n,
        b: 0,
        c: 0,
        d: 0,
    }
}

// The calls of these rows, n in all, round and round, each on what the one before left: in place, by `store::call_in`. A row is the call's number and four arguments.
fn in_place(s: &mut State, heap: &mut [u32], rows: &[[u32; 5]], list: &[u32], n: usize) -> Sum {
    let mut sum = Sum::default();
    for r in rows.iter().cycle().take(n) {
        let a = meant(r[1], s.regions.given);
        let b = meant(r[2], s.regions.given);
        let reply = store::call_in(
            &mut s.frames.standing,
            &mut s.frames.counted,
            &mut s.kinds.declared,
            &mut s.regions.given,
            &mut s.pages.made,
            &mut s.frames.widths,
            &mut s.frames.slots,
            &mut s.kinds.sizes,
            &mut s.kinds.marks,
            &mut s.regions.names,
            &mut s.regions.parents,
            &mut s.regions.levels,
            &mut s.regions.shares,
            &mut s.regions.newest,
            &mut s.regions.oldest,
            &mut s.pages.owners,
            &mut s.pages.taken,
            heap,
            r[0],
            a,
            b,
            r[3],
            r[4],
            list,
        );
        sum = sum.and(reply);
    }
    sum
}

// The same by value, by the calls' names: those that change the state. 100 more than a number: that call by `store::call`.
fn changing(s: State, heap: &mut [u32], rows: &[[u32; 5]], list: &[u32], n: usize) -> Sum {
    // The compiler puts no function with large locals into one that can call itself: what is measured is a call as it stands.
    if MOST < n {
        return changing(s, heap, rows, list, MOST);
    }
    let mut t = s;
    let mut sum = Sum::default();
    for r in rows.iter().cycle().take(n) {
        let a = meant(r[1], t.regions.given);
        let b = meant(r[2], t.regions.given);
        let c = r[3];
        let d = match r[0] {
            3 => store::new_region(t, heap),
            4 => store::subregion(t, heap, a),
            5 => store::push(t, heap, a),
            6 => store::drop(t, heap, a),
            7 => store::hand_back(t, heap, a, b, c),
            8 => store::allocate(t, heap, a, b, c),
            9 => store::first(t, heap, a, b),
            10 => store::copy(t, heap, a, b),
            11 => store::fetch(t, heap, a, b),
            12 => store::clear(t, heap, a),
            13 => store::load(t, heap, a, b, c),
            14 => store::set_pointer(t, heap, a, b, c, r[4]),
            23 => store::delete(t, heap, a, b),
            24 => store::delete_all(t, heap, list, a),
            _ => store::call(t, heap, r[0] % 100, a, b, c, r[4], list),
        };
        t = d.state;
        sum = sum.and(d.reply);
    }
    sum
}

// The same by value, by the calls' names: those that only answer, and put.
fn answering(s: State, heap: &mut [u32], rows: &[[u32; 5]], n: usize) -> Sum {
    // As in `changing`.
    if MOST < n {
        return answering(s, heap, rows, MOST);
    }
    let mut sum = Sum::default();
    for r in rows.iter().cycle().take(n) {
        let a = r[1];
        let reply = match r[0] {
            15 => store::put(s, heap, a, r[2], r[3]),
            16 => store::get(s, heap, a, r[2]),
            17 => viewed(store::view(s, heap, a)),
            18 => store::same(s, heap, a, r[2]),
            19 => store::about(s, heap, a),
            20 => store::report(s, heap, a),
            21 => store::totals(s),
            22 => store::audit(s, heap),
            _ => store::locate(s, heap, a),
        };
        sum = sum.and(reply);
    }
    sum
}

// The five kinds of every store here: a free pointer and a number; one free pointer; three numbers; three free pointers; one pointer marked 3. And a frame of 8 slots.
fn begun(s: State, heap: &[u32]) -> State {
    let s = store::declare(s, heap, &[1, 0]).state;
    let s = store::declare(s, heap, &[1]).state;
    let s = store::declare(s, heap, &[0, 0, 0]).state;
    let s = store::declare(s, heap, &[1, 1, 1]).state;
    let s = store::declare(s, heap, &[3]).state;
    store::push(s, heap, 8).state
}

// A store after the calls `once`, each once, and then so many calls of `again`, round and round; and the sum of the grounds of refusal.
fn prepared(
    heap: &mut [u32],
    once: &[[u32; 5]],
    again: &[[u32; 5]],
    many: usize,
    list: &[u32],
) -> (State, u32) {
    let made = store::make(heap);
    let mut s = begun(made.state, heap);
    let first = in_place(&mut s, heap, once, list, once.len());
    let then = in_place(&mut s, heap, again, list, many);
    (s, first.refused.wrapping_add(then.refused))
}

// Makes a store (`prepared`), then n calls of `rows`: way 0 in place, 1 by value, those that change the state, 2 by value, the others.
// Gives what the replies add up to, the sum of the grounds of refusal times 2^32, and the sum of the values of the n calls: C can see that all calls were accepted, and the compiler leaves none out.
#[unsafe(no_mangle)]
pub extern "C" fn bench(
    heap: &mut [u32],
    once: &[[u32; 5]],
    again: &[[u32; 5]],
    many: usize,
    rows: &[[u32; 5]],
    list: &[u32],
    way: u32,
    n: usize,
) -> u64 {
    let (mut s, before) = prepared(heap, once, again, many, list);
    let sum = match way {
        0 => in_place(&mut s, heap, rows, list, n),
        1 => changing(s, heap, rows, list, n),
        _ => answering(s, heap, rows, n),
    };
    let refused = before.wrapping_add(sum.refused);
    refused as u64 * 4294967296 + sum.values as u64
}
