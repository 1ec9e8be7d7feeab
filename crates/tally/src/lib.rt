// What a session that a script drives has counted, what is kept of a line, and what is printed for one. No function here has a store, reads input or writes output.
#![tactic(auto)]

ghost use Rattle.std.specs.Prelude.{◌≡◌, ◌+◌, ◌≤◌, not, ◌&&◌, ◌++◌, length, take, ◌==◌, nat_le};
ghost use Rattle.lists.specs.Lists.{pick};
ghost use Rattle.lines.specs.Lines.{Appends};
ghost use Rattle.tally.specs.Answers.{kept, more, is_called, tallied, answer};

use lines::Buffer;
use script::{HELP, LAST_CALL, NO_CALL, NOTHING, PAGES, SUMMARY, WHY};
use state::Reply;

// How many bytes of a line are kept.
const KEPT: usize = 4100;

// Room for any answer.
const LONGEST: usize = 1024;

// What a session has counted: whether no line has ended yet, its stage (0 before `pages`, 1 where make refused the last one, 2 where a store is made), lines, accepted and refused calls, and bad lines.
// The stage is a number, as `heard` (script) has it and theorems on scripts (`heard_kept`) with it.
#[derive(Clone, Copy)]
pub struct Tally {
    pub first: bool,
    pub stage: u32,
    pub lines: u64,
    pub accepted: u64,
    pub refused: u64,
    pub bad: u64,
}

// One more where t, with 64 bits.
fn more(x: u64, t: bool) -> u64
    ensures { result ≡ more x t }
{
    if t { x.wrapping_add(1) } else { x }
}

fn is_called(n: u32) -> bool
    ensures { result ≡ is_called n }
{
    (1..=LAST_CALL).contains(&n)
}

// Whether a line is a call that was accepted, and whether it is one that was refused.
fn accepts(call: u32, refusal: u32) -> bool
    ensures { result ≡ (is_called call && refusal == 0) }
{
    is_called(call) && refusal == 0
}

fn refuses(call: u32, refusal: u32) -> bool
    ensures { result ≡ (is_called call && not (refusal == 0)) }
{
    is_called(call) && refusal != 0
}

fn stage_after(stage: u32, call: u32, refusal: u32) -> u32
    ensures { result ≡ pick (call == 1) (pick (refusal == 0) 2 1) stage }
{
    if call != PAGES {
        return stage;
    }
    if refusal == 0 { 2 } else { 1 }
}

// What is counted after a line with that call, answered by the refusal.
pub fn tallied(c: Tally, call: u32, refusal: u32) -> Tally
    ensures { result ≡ tallied c call refusal }
{
    Tally {
        first: false,
        stage: stage_after(c.stage, call, refusal),
        lines: more(c.lines, true),
        accepted: more(c.accepted, accepts(call, refusal)),
        refused: more(c.refused, refuses(call, refusal)),
        bad: more(c.bad, call == NO_CALL),
    }
}

// Adds the answer to a line with that call, its first argument a: r is the reply to print.
pub fn add_answer(out: &mut Buffer, c: Tally, call: u32, a: u32, r: Reply)
    ensures { Appends out.old (answer c call a r) out.new }
{
    let calls = c.accepted.wrapping_add(c.refused);
    match call {
        NOTHING => {}
        NO_CALL => out.add_bad(more(c.lines, true)),
        SUMMARY => out.add_summary(calls, c.accepted, c.refused, c.bad),
        HELP => guide::add_help(out),
        WHY => guide::add_why(out, a),
        _ => out.add_line(more(calls, true), r),
    }
}

// Adds bytes to the `held` that are kept of a line, up to 4,100 in all, and gives how many are kept then.
pub fn keep(line: &mut [u8], held: usize, s: &[u8]) -> usize
    ensures { length line.old ≡ 4100 → (result ≤ 4100) × (take result line.new ≡ kept (take held line.old ++ s.now)) }
{
    let from = held.min(KEPT);
    let n = s.len().min(KEPT - from);
    let mut kept = Buffer {
        bytes: line,
        used: from,
    };
    kept.add(&s[0..n]);
    kept.used
}

// Whether a buffer has room for any answer.
pub fn room(out: &Buffer) -> bool
    ensures { result ≡ nat_le (out.now.used + 1024) (length out.now.bytes.now) }
{
    LONGEST <= out.bytes.len() && out.used <= out.bytes.len() - LONGEST
}
