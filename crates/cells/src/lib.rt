// Reads and writes that are total: an index past the end reads 0 and writes nothing, as get_or and set do. A word has 32 bits, a half 16, a byte 8.
#![tactic(auto)]

ghost use Rattle.std.specs.Prelude.{◌≡◌, ℕ, ◌∷◌, ◌-◌, refl, min, eqb, length, get_or, set, take, drop, replicate};
ghost use Rattle.lists.specs.Lists.{find_or, count_of, up_to};
ghost use Rattle.std.proofs.lemmas.List.Edits.{sets};

// What an array keeps: a word, a half or a byte.
pub trait Cell: Copy {
    // what is read past the end, and the number that is kept
    ghost none: { Self };

    ghost value: { Self → ℕ };

    fn value(self) -> u32
        ensures { result ≡ value self };

    ghost none_is_0: { value none ≡ 0 };
}

impl Cell for u32 {
    ghost none = { 0 };

    ghost value = { λ x. x };

    fn value(self) -> u32 {
        self
    }

    ghost none_is_0 = { refl };
}

impl Cell for u16 {
    ghost none = { 0 };

    ghost value = { λ x. x };

    fn value(self) -> u32 {
        self as u32
    }

    ghost none_is_0 = { refl };
}

impl Cell for u8 {
    ghost none = { 0 };

    ghost value = { λ x. x };

    fn value(self) -> u32 {
        self as u32
    }

    ghost none_is_0 = { refl };
}

pub fn get<T: Cell>(s: &[T], i: usize) -> u32
    ensures { result ≡ T.value (get_or s.now i T.none) }
{
    match s.get(i) {
        Some(x) => x.value(),
        None => 0,
    }
}

pub fn put<T: Copy>(s: &mut [T], i: usize, v: T)
    ensures { s.new ≡ set s.old i v }
{
    if i < s.len() {
        s[i] = v;
    }
}

// How many elements there are from `at` on in a slice of `len`, n at most.
pub fn part_len(at: usize, n: usize, len: usize) -> usize
    ensures { result ≡ min n (len - at) }
{
    n.min(len.saturating_sub(at))
}

// At most n elements from `at` on: those that there are.
pub fn part(s: &[u32], at: usize, n: usize) -> &[u32]
    ensures { result.now ≡ take n (drop at s.now) }
{
    let a = at.min(s.len());
    &s[a..a + part_len(a, n, s.len())]
}

// The place of the first x among the first n elements, n where there is none, as `find_or` says it. It takes at most n turns, as does the count: callers keep n small.
pub fn find(s: &[u32], n: u32, x: u32) -> u32
    ensures { result ≡ find_or (λ i. eqb (get_or s.now i 0) x) n (up_to n) }
{
    for i in 0..n {
        if get(s, i as usize) == x {
            return i;
        }
    }
    n
}

// How many of the first n elements are x: those that there are, and for 0 those past the end.
pub fn count<T: Cell>(s: &[T], n: u32, x: u32) -> u32
    ensures { result ≡ count_of (λ i. eqb (T.value (get_or s.now i T.none)) x) (up_to n) }
{
    let there = (n as usize).min(s.len());
    let mut k: u32 = 0;
    for c in &s[..there] {
        if c.value() == x {
            k += 1;
        }
    }
    let past = if x == 0 { n - there as u32 } else { 0 };
    k + past
}

// Every word is 0.
pub fn clear(s: &mut [u32])
    ensures { s.new ≡ replicate (length s.old) 0 }
{
    s.fill(0);
}

// The n words from `at` on are 0, as far as there are any.
pub fn zero(s: &mut [u32], at: usize, n: usize)
    ensures { s.new ≡ sets s.old at (replicate n 0) }
{
    let a = at.min(s.len());
    let b = a + part_len(a, n, s.len());
    clear(&mut s[a..b]);
}

// A header k at `at`, and n words 0 after it.
pub fn lay(s: &mut [u32], at: u32, k: u32, n: u32)
    ensures { s.new ≡ sets s.old at (k ∷ replicate n 0) }
{
    put(s, at as usize, k);
    zero(s, (at as usize) + 1, n as usize);
}
