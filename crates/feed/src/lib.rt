// A session that a script drives, fed a chunk of bytes at a time: the lines are calls on one store, and each has its answer. No function here reads input or writes output.
#![tactic(auto)]

ghost use Rattle.std.specs.Prelude.{◌≡◌, List, ℕ, length, take};
ghost use Rattle.feed.specs.Scripted.{Scripted, start, talk_of, Fed};

use lines::Buffer;
use state::State;
use tally::Tally;

// A session: the state of its store, how many words its heap has, what it has counted, and how many bytes are kept of the line that has not ended. Of the chunk fed last, how far it got, and how many bytes its answers took.
#[derive(Clone, Copy)]
pub struct Session {
    pub state: State,
    pub words: usize,
    pub tally: Tally,
    pub held: usize,
    pub at: usize,
    pub used: usize,
}

// A session to which nothing was fed: make refuses a heap of one word, and leaves the state of a store that is not made.
pub fn begin() -> Session
    ensures { (line memory : List ℕ) → talk_of result line memory ≡ start }
{
    let mut none = [0u32; 1];
    let d = store::make(&mut none);
    let state = d.state;
    Session {
        state,
        words: 0,
        tally: Tally {
            first: true,
            stage: 0,
            lines: 0,
            accepted: 0,
            refused: 0,
            bad: 0,
        },
        held: 0,
        at: 0,
        used: 0,
    }
}

// Feeds a chunk to a session, and puts the answers at the start of `out`: until the chunk ends, or `out` has less than 1,024 bytes of room, in which every answer fits. `line` has what is kept of the line that has not ended, and the front of `memory` is the heap: 4,100 bytes, and the words of 257 pages.
pub fn feed(
    s: Session,
    memory: &mut [u32],
    line: &mut [u8],
    chunk: &[u8],
    out: &mut [u8],
) -> Session
    ensures scripted { length memory.old ≡ 16448 → length line.old ≡ 4100 → Scripted (talk_of s line.old memory.old) (take result.at chunk.now) (take result.used out.new) (talk_of result line.new memory.new) }
    ensures fed { Fed chunk.now out.old result.at result.used }
{
    let mut state = s.state;
    let mut c = s.tally;
    let mut words = s.words;
    let mut held = s.held;
    let mut at: usize = 0;
    let mut answers = Buffer {
        bytes: out,
        used: 0,
    };
    // No `for`: a line's end is where the next one begins.
    while at < chunk.len() {
        if !tally::room(&answers) {
            break;
        }
        let end = script::line_end(chunk, at);
        held = tally::keep(line, held, &chunk[at..end]);
        at = end;
        if end < chunk.len() {
            at = end + 1;
            let k = held.min(line.len());
            let l = scanner::heard(&line[0..k], c.first, c.stage);
            let a = l.args;
            let d = actions::acted(&mut state, memory, words, l);
            tally::add_answer(&mut answers, c, l.call, a[0], d);
            c = tally::tallied(c, l.call, d.refusal);
            words = numbers::words_after(l.call, a[0], d.refusal, words);
            held = 0;
        }
    }
    Session {
        state,
        words,
        tally: c,
        held,
        at,
        used: answers.used,
    }
}
