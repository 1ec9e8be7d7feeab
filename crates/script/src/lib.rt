// The words of a line of a script, and the tables of what they can say: calls of the store by name or number, with how many arguments, and words that are no calls. Every function takes any bytes.
#![tactic(auto)]

ghost use Rattle.std.specs.Prelude.{◌≡◌, ◌≤◌, ◌+◌, ◌-◌, eqb, ltb, length, get_or, drop, IfSome};
ghost use Rattle.lists.specs.Lists.{pick};
ghost use Rattle.script.specs.Script.{blank, of_class, front, tokens, digit, value, placed, named, least, most, fillers, call_of, takes, allowed, unmarked};
ghost use Rattle.script.specs.Found.{class_number, Next, LineAt, written, or_none};

// A line: `call` is one of the numbers below.
// The filler is the one that `as` names, 0 where none is named. The arguments are the first `count` of `args`, and the others are 0.
#[derive(Clone, Copy)]
pub struct Line {
    pub call: u32,
    pub filler: u32,
    pub count: u32,
    pub args: [u32; 64],
}

// What a line says: nothing; `pages`; a call, up to the last one; a word that is no call; or none of these. No call will have the last four numbers.
// Numbers and no enum: `line`, `call_of`, `allowed` and `heard` (specs/Script) have a line's call as a number, and `Scripted` and `ScriptRuns` stand on these.
pub const NOTHING: u32 = 0;

pub const PAGES: u32 = 1;

pub const LAST_CALL: u32 = 25;

pub const SUMMARY: u32 = 252;

pub const HELP: u32 = 253;

pub const WHY: u32 = 254;

pub const NO_CALL: u32 = 255;

// Where a word begins, and where it ends.
#[derive(Clone, Copy)]
pub struct Span {
    pub from: usize,
    pub to: usize,
}

// The classes of bytes that the scanner passes over.
#[derive(Clone, Copy)]
enum Class {
    Blank,
    InWord,
    InLine,
}

impl Class {
    fn has(self, b: u8) -> bool
        ensures { result ≡ of_class (class_number self) b }
    {
        match self {
            Class::Blank => blank(b),
            Class::InWord => !(b == b'#' || blank(b)),
            Class::InLine => b != b'\n',
        }
    }
}

fn blank(b: u8) -> bool
    ensures { result ≡ blank b }
{
    b == b' ' || b == b'\t' || b == b'\r'
}

// The first place from `at` on whose byte is not of the class, or the end.
fn past(s: &[u8], at: usize, class: Class) -> usize
    ensures { result ≡ at + length (front (of_class (class_number class)) (drop at s.now)) }
{
    for i in at..s.len() {
        if !class.has(s[i]) {
            return i;
        }
    }
    at.max(s.len())
}

// Where the next word from `at` on stands.
pub fn word(s: &[u8], at: usize) -> Option<Span>
    ensures { Next s.now at result }
{
    let from = past(s, at, Class::Blank);
    let to = past(s, from, Class::InWord);
    if from < to {
        Some(Span { from, to })
    } else {
        None
    }
}

// The first newline from `at` on, or the end.
pub fn line_end(s: &[u8], at: usize) -> usize
    ensures { result ≡ at + length (front (of_class 2) (drop at s.now)) }
{
    past(s, at, Class::InLine)
}

// The line that begins at `at`, without its newline.
pub fn line_at(s: &[u8], at: usize) -> &[u8]
    ensures { LineAt s.now at result.now }
{
    if s.len() <= at {
        return &[];
    }
    &s[at..line_end(s, at)]
}

fn is_digit(b: u8) -> bool
    ensures { result ≡ digit b }
{
    b'0' <= b && b <= b'9'
}

// The number that a word writes, where it writes one below 2^32.
pub fn number(w: &[u8]) -> Option<u32>
    ensures { written result ≡ value w.now }
{
    if w.is_empty() {
        return None;
    }
    let mut v: u64 = 0;
    for b in w {
        let c = *b;
        if !is_digit(c) {
            return None;
        }
        v = v * 10 + u64::from(c - b'0');
        if u64::from(u32::MAX) < v {
            return None;
        }
    }
    Some(v as u32)
}

// The place of w among the words of a line, the first of which has the place `first`.
fn place_of(w: &[u8], s: &[u8], first: u32) -> Option<usize>
    ensures place { or_none result ≡ placed first w.now (tokens s.now) }
    ensures counted { IfSome result (λ n. first ≤ n) }
{
    let mut n = first as usize;
    let mut at = 0;
    while let Some(p) = word(s, at) {
        if w == &s[p.from..p.to] {
            return Some(n);
        }
        n += 1;
        at = p.to;
    }
    None
}

// The number of the call with that name, or of the word that is no call.
fn named(w: &[u8]) -> Option<u32>
    ensures { or_none result ≡ named w.now }
{
    let call = place_of(
        w,
        b"pages declare new_region subregion push drop hand_back allocate first copy fetch clear load set_pointer put get view same about report totals audit delete delete_all locate",
        1,
    );
    if let Some(n) = call {
        return Some(n as u32);
    }
    let n = place_of(w, b"summary help why", SUMMARY)?;
    Some(n as u32)
}

// The number of the call that a word names or numbers, or of a word that is no call; 1 for pages.
pub fn call_of(w: &[u8]) -> Option<u32>
    ensures { or_none result ≡ call_of w.now }
{
    match number(w) {
        Some(v) if 2 <= v && v <= LAST_CALL => Some(v),
        _ => named(w),
    }
}

// A column of the tables, by number: of the calls from 0 on, which is none, and of the words.
fn column(calls: &[u8], words: &[u8], n: u32) -> u32
    ensures { result ≡ pick (ltb n 252) (get_or calls.now n 0) (get_or words.now (n - 252) 0) }
{
    if n < SUMMARY {
        cells::get(calls, n as usize)
    } else {
        cells::get(words, (n - SUMMARY) as usize)
    }
}

// The least number of arguments of call n.
fn least(n: u32) -> u32
    ensures { result ≡ least n }
{
    column(
        &[
            0, 1, 0, 0, 1, 1, 0, 2, 3, 2, 2, 2, 1, 3, 3, 3, 2, 1, 2, 1, 1, 0, 0, 1, 0, 1,
        ],
        &[0, 0, 1],
        n,
    )
}

// The most: 64 for declare and delete_all.
fn most(n: u32) -> u32
    ensures { result ≡ most n }
{
    column(
        &[
            0, 1, 64, 0, 1, 1, 0, 2, 3, 2, 2, 2, 1, 3, 3, 3, 2, 1, 2, 1, 1, 0, 0, 1, 64, 1,
        ],
        &[0, 0, 1],
        n,
    )
}

// Whether a filler may be named in front of call n: of drop, hand_back, set_pointer, delete and delete_all.
pub fn names_filler(n: u32) -> bool
    ensures { result ≡ eqb (get_or fillers n 0) 1 }
{
    [6, 7, 14, 23, 24].contains(&n)
}

// Whether call n takes k arguments.
fn takes(n: u32, k: u32) -> bool
    ensures { result ≡ takes n k }
{
    least(n) <= k && k <= most(n)
}

// Whether call n may stand here with k arguments, the first of them a: pages with 257 at most while no store is made, and no other call before a pages line; the words that are no calls anywhere.
// The stage is a number: `allowed` and `heard` (specs/Script) have it as one, and `ScriptRuns` says that it is 2.
pub fn allowed(stage: u32, n: u32, k: u32, a: u32) -> bool
    ensures { result ≡ allowed stage n k a }
{
    if n == 0 || !takes(n, k) {
        return false;
    }
    if n == PAGES {
        return stage < 2 && a <= 257;
    }
    SUMMARY <= n || 0 < stage
}

// A line without the byte order mark in front of it.
pub fn unmarked(s: &[u8]) -> &[u8]
    ensures { result.now ≡ unmarked s.now }
{
    match s.strip_prefix(b"\xEF\xBB\xBF") {
        Some(rest) => rest,
        None => s,
    }
}
