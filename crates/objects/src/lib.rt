// Objects in the heap that a call is given. Who reads an object's kind, mark or words gets the part of the heap that begins at its header.
#![tactic(auto)]

ghost use Rattle.std.specs.Prelude.{◌≡◌, [], ◌∷◌, ◌+◌, ◌≤◌, set};
ghost use Rattle.kinds.specs.Kinds.{kinds_with, size_in, mark_in};
ghost use Rattle.regions.specs.Laws.Steps.{leavings};
ghost use Rattle.objects.specs.Objects.{free_words_to, out_of};
ghost use Rattle.objects.specs.Parts.{part_at, object_of, header_in, word_in, fitting, free_words_in};

use kinds::KindsIn;
use regions::Way;

// The part that begins at place `at`: 17 words, as far as the heap goes.
pub fn part_at(heap: &[u32], at: usize) -> &[u32]
    ensures { result.now ≡ part_at heap.now at }
{
    let a = at.min(heap.len());
    let b = a + cells::part_len(at, 17, heap.len());
    &heap[a..b]
}

// The part that begins at the object that a pointer leads to, empty for null.
pub fn object_of(heap: &[u32], v: u32) -> &[u32]
    ensures { result.now ≡ object_of heap.now v }
{
    if v == 0 {
        return &heap[0..0];
    }
    part_at(heap, (v - 1) as usize)
}

// The kind of the object that a part begins with, 0 where the part is empty.
pub fn kind_of(object: &[u32]) -> u32
    ensures { result ≡ header_in object.now }
{
    cells::get(object, 0)
}

// How many words the object has that a part begins with.
pub fn words_of(kinds: &KindsIn, object: &[u32]) -> u32
    ensures { result ≡ size_in kinds.now.declared kinds.now.sizes.now (header_in object.now) }
{
    kinds.size_of(kind_of(object))
}

// The mark of its word w.
pub fn marked(kinds: &KindsIn, object: &[u32], w: u32) -> u32
    ensures { result ≡ mark_in kinds.now.marks.now (header_in object.now) w }
{
    kinds.mark_at(kind_of(object), w)
}

pub fn word_at(object: &[u32], w: u32) -> u32
    ensures { result ≡ word_in object.now w }
{
    cells::get(object, 1 + (w as usize))
}

// Word w of the object that v leads to gets x.
pub fn write(heap: &mut [u32], v: u32, w: u32, x: u32)
    ensures { heap.new ≡ set heap.old (v + w) x }
{
    cells::put(heap, (v as usize) + (w as usize), x);
}

// How many words the object has; 0 where there is none, or it takes more than n words with its header. No Option: at 0 a walk ends, and `fitting` says it so.
pub fn fits(kinds: &KindsIn, object: &[u32], n: usize) -> u32
    ensures { result ≡ fitting kinds.now.declared kinds.now.sizes.now object.now n }
{
    let s = words_of(kinds, object);
    if 1 + (s as usize) <= n { s } else { 0 }
}

// The shares without a pointer of the region `own`, which leaves that filler's; one that leads into that region itself is in no count.
fn leave_word(owners: &[u8], shares: &mut [u32], filler: u32, own: u32, v: u32)
    ensures { shares.new ≡ leavings filler shares.old (out_of owners.now own (v ∷ [])) }
{
    let t = pages::owner_of(owners, v);
    if t != own {
        regions::step(shares, Way::Out, filler, t);
    }
}

// The shares without those of an object's first n words that are marked 1.
fn leave_words(
    kinds: &KindsIn,
    object: &[u32],
    n: u32,
    owners: &[u8],
    shares: &mut [u32],
    filler: u32,
    own: u32,
)
    ensures { shares.new ≡ leavings filler shares.old (out_of owners.now own (free_words_in kinds.now.marks.now object.now n)) }
{
    let kind = kind_of(object);
    for w in 0..n {
        if kinds.mark_at(kind, w) == 1 {
            leave_word(owners, shares, filler, own, word_at(object, w));
        }
    }
}

// The same of the objects on page j, of which n words are taken, 64 at most; no word past those is read.
pub fn leave_objects(
    kinds: &KindsIn,
    heap: &[u32],
    owners: &[u8],
    j: u32,
    n: u32,
    shares: &mut [u32],
    filler: u32,
    own: u32,
)
    ensures { n ≤ 64 → shares.new ≡ leavings filler shares.old (out_of owners.now own (free_words_to (kinds_with kinds.now.declared kinds.now.sizes.now kinds.now.marks.now) heap.now j n)) }
{
    let mut at = 64 * (j as usize);
    let end = at + (n as usize);
    // A walk and no `for`, as in audit_heap's filled_to.
    while at < end {
        let object = part_at(heap, at);
        let s = fits(kinds, object, end - at);
        if s == 0 {
            break;
        }
        leave_words(kinds, object, s, owners, shares, filler, own);
        at = at + 1 + (s as usize);
    }
}
