// The region entries, a part of the state held by value. The functions take what they read: numbers, arrays lent, or what is lent of the part (`RegionsIn`).
// For none a reading gives the number that the definitions and the state itself have for it, and no Option: name 0 and tag 0, entry 64 (`name_in`, `entry_in`, `unused_in`).
#![tactic(auto)]

ghost use Rattle.std.specs.Prelude.{◌≡◌, ◌+◌, ◌*◌, ◌%◌, replicate, slice_index};
ghost use Rattle.std.proofs.lemmas.List.Edits.{sets};
ghost use Rattle.regions.specs.Regions.{name_in, entry_in, unused_in, live_in, subregions_in, share_in, count_in};
ghost use Rattle.regions.specs.Laws.Counts.{Shares};
ghost use Rattle.regions.specs.Laws.Steps.{stepped};
ghost use Rattle.regions.specs.Ways.{by};

// names: 0 for an entry not in use. parents: the entry above plus 1, 0 for none. newest: a page plus 1, 0 for none.
// oldest: a pointer, 0 for none. shares: filler f's share of the count of entry i at 4 i + f. `given` is the last name given.
#[derive(Clone, Copy)]
pub struct Regions {
    pub given: u32,
    pub names: [u32; 64],
    pub parents: [u8; 64],
    pub levels: [u8; 64],
    pub shares: [u32; 256],
    pub newest: [u16; 64],
    pub oldest: [u32; 64],
}

// What is lent of the entries, for the tests and climbs that read them.
#[derive(Drop)]
pub struct RegionsIn<'a> {
    pub names: &'a [u32],
    pub parents: &'a [u8],
    pub levels: &'a [u8],
}

impl<'a> RegionsIn<'a> {
    pub fn name_at(&self, i: u32) -> u32
        ensures { result ≡ slice_index self.now.names.now i }
    {
        name_at(self.names, i)
    }

    // The name of the region with that tag, 0 for none.
    pub fn name_of(&self, t: u32) -> u32
        ensures { result ≡ name_in self.now.names.now t }
    {
        name_of(self.names, t)
    }

    // The entry of the live region of that name, 64 where there is none.
    pub fn entry_of(&self, n: u32) -> u32
        ensures { result ≡ entry_in self.now.names.now n }
    {
        entry_of(self.names, n)
    }

    pub fn parent_at(&self, i: u32) -> u32
        ensures { result ≡ slice_index self.now.parents.now i }
    {
        parent_at(self.parents, i)
    }

    pub fn level_at(&self, i: u32) -> u32
        ensures { result ≡ slice_index self.now.levels.now i }
    {
        level_at(self.levels, i)
    }
}

pub fn name_at(names: &[u32], i: u32) -> u32
    ensures { result ≡ slice_index names.now i }
{
    cells::get(names, i as usize)
}

// The name of the region with that tag, 0 for none.
pub fn name_of(names: &[u32], t: u32) -> u32
    ensures { result ≡ name_in names.now t }
{
    if t == 0 {
        return 0;
    }
    name_at(names, t - 1)
}

// The entry of the live region of that name, 64 where there is none.
pub fn entry_of(names: &[u32], n: u32) -> u32
    ensures { result ≡ entry_in names.now n }
{
    if n == 0 {
        return 64;
    }
    cells::find(names, 64, n)
}

// The first entry that is not in use, 64 where all are.
pub fn unused(names: &[u32]) -> u32
    ensures { result ≡ unused_in names.now }
{
    cells::find(names, 64, 0)
}

pub fn live_count(names: &[u32]) -> u32
    ensures { result ≡ live_in names.now }
{
    64 - cells::count(names, 64, 0)
}

pub fn parent_at(parents: &[u8], i: u32) -> u32
    ensures { result ≡ slice_index parents.now i }
{
    cells::get(parents, i as usize)
}

// How many live regions are right below the one with that tag.
pub fn subregions_of<'a>(names: &'a [u32], parents: &'a [u8], t: u32) -> u32
    ensures { result ≡ subregions_in names.now parents.now t }
{
    let mut k: u32 = 0;
    for i in 0..64 {
        // Both are read first, so that the compiler can take several entries at once.
        let n = name_at(names, i);
        let p = parent_at(parents, i);
        if n != 0 && p == t {
            k += 1;
        }
    }
    k
}

pub fn level_at(levels: &[u8], i: u32) -> u32
    ensures { result ≡ slice_index levels.now i }
{
    cells::get(levels, i as usize)
}

pub fn newest_at(newest: &[u16], i: u32) -> u32
    ensures { result ≡ slice_index newest.now i }
{
    cells::get(newest, i as usize)
}

pub fn oldest_at(oldest: &[u32], i: u32) -> u32
    ensures { result ≡ slice_index oldest.now i }
{
    cells::get(oldest, i as usize)
}

// The share of filler 0 to 3 at entry i. (By the same places a filler above 3 would have one of another entry; no call that is accepted has such a filler.)
pub fn share_at(shares: &[u32], filler: u32, i: u32) -> u32
    ensures { result ≡ share_in shares.now filler i }
{
    cells::get(shares, 4 * (i as usize) + (filler as usize))
}

// The stored count of entry i: its four shares, added modulo 2^32.
pub fn count_at(shares: &[u32], i: u32) -> u32
    ensures { result ≡ count_in shares.now i }
{
    let a = share_at(shares, 0, i).wrapping_add(share_at(shares, 1, i));
    let b = share_at(shares, 2, i).wrapping_add(share_at(shares, 3, i));
    a.wrapping_add(b)
}

// The four shares of entry i are 0.
pub fn clear_shares(shares: &mut [u32; 256], i: u32)
    ensures { shares.new ≡ sets shares.old (4 * i) (replicate 4 0) }
{
    cells::zero(shares, 4 * (i as usize), 4);
}

// What the types say of the shares. It does nothing: its contract is what it is for.
pub fn shares_shaped(shares: [u32; 256])
    ensures { Shares shares }
{}

// Which way a pointer moves a share: into it or out of it.
#[derive(Clone, Copy)]
pub enum Way {
    In,
    Out,
}

// The shares with one pointer more into the region with that tag, or one less, by that filler, which is 0 to 3: modulo 2^32.
pub fn step(shares: &mut [u32], way: Way, filler: u32, tag: u32)
    ensures { shares.new ≡ stepped (by way) filler shares.old tag }
{
    if tag == 0 {
        return;
    }
    let p = 4 * ((tag - 1) as usize) + (filler as usize);
    let v = cells::get(shares, p);
    let moved = match way {
        Way::In => v.wrapping_add(1),
        Way::Out => v.wrapping_sub(1),
    };
    cells::put(shares, p, moved);
}
