// What a line of a script says: a call of the store by name or number, its arguments, and the filler that it names; or a word that is no call. Every function takes any bytes.
#![tactic(auto)]

ghost use Rattle.std.specs.Prelude.{◌≡◌, List, [], map, ℕ, drop};
ghost use Rattle.script.specs.Found.{or_bad};
ghost use Rattle.script.specs.Script.{tokens, value, call_of, line, given, called, acting, scanned, fitting, heard};

use script::{Line, NO_CALL, NOTHING, allowed, call_of, names_filler, number, unmarked, word};

// How long a line may be.
const LONGEST_LINE: usize = 4096;

// The word in front of a filler.
const AS: &[u8] = b"as";

// A line with filler 0 and no arguments.
fn bare(call: u32) -> Line
    ensures { result ≡ line call 0 [] }
{
    Line {
        call,
        filler: 0,
        count: 0,
        args: [0; 64],
    }
}

// Call n for a filler, with the words from `at` on as its arguments: 64 numbers at most.
fn arguments(s: &[u8], at: usize, n: u32, filler: u32) -> Option<Line>
    ensures { or_bad result ≡ given n filler (map value (tokens (drop at s.now))) }
{
    let mut args = [0u32; 64];
    let mut count: u32 = 0;
    let mut i = at;
    while let Some(p) = word(s, i) {
        let v = number(&s[p.from..p.to])?;
        if count == 64 {
            return None;
        }
        args[count as usize] = v;
        count += 1;
        i = p.to;
    }
    Some(Line {
        call: n,
        filler,
        count,
        args,
    })
}

// The same where the call may stand here. The contract holds for each word w that names call n.
fn called(s: &[u8], at: usize, n: u32, filler: u32, stage: u32) -> Option<Line>
    ensures { (w : List ℕ) → n ≡ call_of w → or_bad result ≡ called stage filler w (tokens (drop at s.now)) }
{
    let l = arguments(s, at, n, filler)?;
    if allowed(stage, l.call, l.count, l.args[0]) {
        Some(l)
    } else {
        None
    }
}

// What the words from `at` on say, after `as`: a filler, and a call that names one.
fn acting(s: &[u8], at: usize, stage: u32) -> Option<Line>
    ensures { or_bad result ≡ acting stage (tokens (drop at s.now)) }
{
    let p = word(s, at)?;
    let filler = number(&s[p.from..p.to])?;
    let q = word(s, p.to)?;
    let n = call_of(&s[q.from..q.to])?;
    if names_filler(n) {
        called(s, q.to, n, filler, stage)
    } else {
        None
    }
}

// What a line says; the stage is 0 where no pages line came before it, 1 where make refused the last one, and 2 where a store is made.
fn scan(s: &[u8], stage: u32) -> Option<Line>
    ensures { or_bad result ≡ scanned stage s.now }
{
    let Some(p) = word(s, 0) else {
        return Some(bare(NOTHING));
    };
    let w = &s[p.from..p.to];
    if w == AS {
        return acting(s, p.to, stage);
    }
    let n = call_of(w)?;
    called(s, p.to, n, 0, stage)
}

// The same of a line that is not too long.
fn fitting(s: &[u8], stage: u32) -> Option<Line>
    ensures { or_bad result ≡ fitting stage s.now }
{
    if s.len() > LONGEST_LINE {
        None
    } else {
        scan(s, stage)
    }
}

// What a line says, where `first` tells whether it is the first one, which may have a byte order mark.
pub fn heard(s: &[u8], first: bool, stage: u32) -> Line
    ensures { result ≡ heard stage first s.now }
{
    let text = if first { unmarked(s) } else { s };
    match fitting(text, stage) {
        Some(l) => l,
        None => bare(NO_CALL),
    }
}
