// What a scanned line of a script does to the store that the script drives: a call, `pages`, or nothing. No function here reads input or writes output.
#![tactic(auto)]

ghost use Rattle.std.specs.Prelude.{◌≡◌, true, ◌≤◌, length, get_or, take};
ghost use Rattle.model.specs.Model.{view};
ghost use Rattle.outcomes.specs.Outcome.{store};
ghost use Rattle.numbers.specs.Numbers.{words_after};
ghost use Rattle.actions.specs.Acts.{Replied, Called, Acts};

use script::{Line, PAGES};
use state::{Reply, State};

// The call whose reply gets the length of a part, by its number in README's table.
const VIEW: u32 = 17;

// View, with the length of its part as first value.
fn viewed(state: &State, heap: &[u32], slot: u32) -> Reply
    ensures { let S = store state.now heap.now in Replied 17 (view slot) S result S }
{
    let v = store::view_in(
        state.pages.made,
        state.frames.standing,
        state.kinds.declared,
        &state.frames.widths,
        &state.frames.slots,
        &state.kinds.sizes,
        &state.kinds.marks,
        heap,
        slot,
    );
    Reply {
        refusal: v.refusal,
        a: v.count,
        b: 0,
        c: 0,
        d: 0,
    }
}

// The call that a scanned line is, on the state lent and the heap as they are; nothing where it is none. View's reply has the length of its part.
fn called(state: &mut State, heap: &mut [u32], l: Line) -> Reply
    ensures { Called l (store state.old heap.old) result (store state.new heap.new) }
{
    let a = l.args;
    let f = l.filler;
    if l.call == VIEW {
        return viewed(state, heap, a[0]);
    }
    let p = numbers::filler_place(l.call, l.count);
    store::call_in(
        &mut state.frames.standing,
        &mut state.frames.counted,
        &mut state.kinds.declared,
        &mut state.regions.given,
        &mut state.pages.made,
        &mut state.frames.widths,
        &mut state.frames.slots,
        &mut state.kinds.sizes,
        &mut state.kinds.marks,
        &mut state.regions.names,
        &mut state.regions.parents,
        &mut state.regions.levels,
        &mut state.regions.shares,
        &mut state.regions.newest,
        &mut state.regions.oldest,
        &mut state.pages.owners,
        &mut state.pages.taken,
        heap,
        l.call,
        numbers::number_at(a[0], p, f, 0),
        numbers::number_at(a[1], p, f, 1),
        numbers::number_at(a[2], p, f, 2),
        numbers::number_at(a[3], p, f, 3),
        cells::part(&a, 0, l.count as usize),
    )
}

// What a line does, where the first `words` words of the memory are the heap: `pages` makes a store of more or fewer of them. The memory has 257 pages, so that every `pages` line finds its words.
pub fn acted(state: &mut State, memory: &mut [u32], words: usize, l: Line) -> Reply
    ensures { length memory.old ≡ 16448 → (l.call ≡ 1 → get_or l.args 0 0 ≤ 257) → Acts l (store state.old (take words memory.old)) result (store state.new (take (words_after l.call (get_or l.args 0 0) result.refusal words) memory.new)) }
{
    if l.call == PAGES {
        let a = l.args;
        let w = numbers::words_of(a[0]).min(memory.len());
        return store::make_in(
            &mut state.frames.standing,
            &mut state.frames.counted,
            &mut state.kinds.declared,
            &mut state.regions.given,
            &mut state.pages.made,
            &mut state.frames.widths,
            &mut state.frames.slots,
            &mut state.kinds.sizes,
            &mut state.kinds.marks,
            &mut state.regions.names,
            &mut state.regions.parents,
            &mut state.regions.levels,
            &mut state.regions.shares,
            &mut state.regions.newest,
            &mut state.regions.oldest,
            &mut state.pages.owners,
            &mut state.pages.taken,
            &mut memory[0..w],
        );
    }
    let w = words.min(memory.len());
    called(state, &mut memory[0..w], l)
}
