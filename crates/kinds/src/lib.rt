// The kinds declared, a part of the state held by value. The functions take what they read: numbers, arrays lent, or what is lent of the part (`KindsIn`).
#![tactic(auto)]

ghost use Rattle.std.specs.Prelude.{◌≡◌, map, ◌%◌, eqb, ltb};
ghost use Rattle.std.proofs.lemmas.List.Edits.{sets};
ghost use Rattle.lists.specs.Lists.{any_of, every, up_to};
ghost use Rattle.kinds.specs.Kinds.{kind_count_in, size_in, mark_in, wrong_marks};

// Kind k, from 1 on, has sizes[k - 1] words; the mark of its word w stands at 16 * (k - 1) + w.
#[derive(Clone, Copy)]
pub struct Kinds {
    pub declared: u32,
    pub sizes: [u8; 16],
    pub marks: [u8; 256],
}

// What is lent of the kinds, for the tests and walks that read them.
#[derive(Drop)]
pub struct KindsIn<'a> {
    pub declared: u32,
    pub sizes: &'a [u8],
    pub marks: &'a [u8],
}

impl<'a> KindsIn<'a> {
    pub fn kind_count(&self) -> u32
        ensures { result ≡ kind_count_in self.now.declared }
    {
        kind_count(self.declared)
    }

    pub fn size_of(&self, n: u32) -> u32
        ensures { result ≡ size_in self.now.declared self.now.sizes.now n }
    {
        size_of(self.declared, self.sizes, n)
    }

    pub fn mark_at(&self, n: u32, w: u32) -> u32
        ensures { result ≡ mark_in self.now.marks.now n w }
    {
        cells::get(
            self.marks,
            16 * (n.saturating_sub(1) as usize) + (w as usize),
        )
    }

    // Whether the first `size` marks of kind n are 0.
    pub fn all_data(&self, n: u32, size: u32) -> bool
        ensures { result ≡ every (λ w. eqb (mark_in self.now.marks.now n w) 0) (up_to size) }
    {
        for w in 0..size {
            if self.mark_at(n, w) != 0 {
                return false;
            }
        }
        true
    }
}

pub fn kind_count(declared: u32) -> u32
    ensures { result ≡ kind_count_in declared }
{
    declared.min(16)
}

// 0 for no kind, and no Option: `size_in` is what every object's size is said by.
pub fn size_of(declared: u32, sizes: &[u8], n: u32) -> u32
    ensures { result ≡ size_in declared sizes.now n }
{
    if 0 < n {
        if n <= kind_count(declared) {
            return cells::get(sizes, (n - 1) as usize).min(16);
        }
    }
    0
}

// Whether a mark is above 4.
fn above_four(ms: &[u32]) -> bool
    ensures { result ≡ any_of (ltb 4) ms.now }
{
    for m in ms {
        if 4 < *m {
            return true;
        }
    }
    false
}

pub fn marks_wrong(ms: &[u32]) -> bool
    ensures { result ≡ wrong_marks ms.now }
{
    if ms.len() == 0 {
        return true;
    }
    if 16 < ms.len() {
        return true;
    }
    above_four(ms)
}

// The marks from place `at` on replaced by the lowest bytes of ms.
pub fn put_marks(marks: &mut [u8; 256], at: u32, ms: &[u32])
    ensures { marks.new ≡ sets marks.old at (map (λ m. m % 256) ms.now) }
{
    for (i, m) in ms.iter().enumerate() {
        cells::put(marks, (at as usize) + i, (*m % 256) as u8);
    }
}
