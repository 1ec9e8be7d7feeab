// The pages of the heap, a part of the state held by value. The functions take what they read: numbers, arrays lent, or what is lent of the part (`PagesIn`).
// For null and for none a reading gives the number that the definitions and the state itself have for it, and no Option: owner 0, page 256 and word 0 (`owner_in`, `page_of`, `word_of`; locate answers with the last two), as many pages as there are (`first_free_in`).
#![tactic(auto)]

ghost use Rattle.std.specs.Prelude.{◌≡◌, get_or};
ghost use Rattle.pages.specs.Pages.{wrong_length_in, page_count_in, taken_in, owner_in, page_of, word_of, first_free_in, pages_in};

// owners: the tag of the region that holds the page (its entry plus 1), 0 for a free page. taken: how many words of the page objects fill.
#[derive(Clone, Copy)]
pub struct Pages {
    pub made: u32,
    pub owners: [u8; 256],
    pub taken: [u8; 256],
}

// What is lent of the pages, for the tests and walks that only read them.
#[derive(Drop)]
pub struct PagesIn<'a> {
    pub made: u32,
    pub owners: &'a [u8],
    pub taken: &'a [u8],
}

impl<'a> PagesIn<'a> {
    pub fn page_count(&self) -> u32
        ensures { result ≡ page_count_in self.now.made }
    {
        page_count(self.made)
    }

    pub fn owner_at(&self, j: u32) -> u32
        ensures { result ≡ get_or self.now.owners.now j 0 }
    {
        cells::get(self.owners, j as usize)
    }

    pub fn taken_at(&self, j: u32) -> u32
        ensures { result ≡ taken_in self.now.taken.now j }
    {
        taken_at(self.taken, j)
    }

    // The tag of the region that a pointer leads into.
    pub fn owner_of(&self, v: u32) -> u32
        ensures { result ≡ owner_in self.now.owners.now v }
    {
        owner_of(self.owners, v)
    }
}

// Whether a heap of n words is not the one made.
pub fn wrong_length(made: u32, n: usize) -> bool
    ensures { result ≡ wrong_length_in made n }
{
    if made == 0 {
        return true;
    }
    n != 64 * (made as usize)
}

pub fn page_count(made: u32) -> u32
    ensures { result ≡ page_count_in made }
{
    made.min(256)
}

pub fn owner_at(owners: &[u8], j: u32) -> u32
    ensures { result ≡ get_or owners.now j 0 }
{
    cells::get(owners, j as usize)
}

pub fn taken_at(taken: &[u8], j: u32) -> u32
    ensures { result ≡ taken_in taken.now j }
{
    cells::get(taken, j as usize).min(64)
}

// The tag of the region that a pointer leads into.
pub fn owner_of(owners: &[u8], v: u32) -> u32
    ensures { result ≡ owner_in owners.now v }
{
    if v == 0 {
        return 0;
    }
    cells::get(owners, ((v - 1) / 64) as usize)
}

// The page of the object that v leads to, 256 for null.
pub fn page_of(v: u32) -> u32
    ensures { result ≡ page_of v }
{
    if v == 0 {
        return 256;
    }
    (v - 1) / 64
}

// The word of its page that is the header of the object that v leads to, 0 for null.
pub fn word_of(v: u32) -> u32
    ensures { result ≡ word_of v }
{
    if v == 0 {
        return 0;
    }
    (v - 1) % 64
}

// How many pages the region with that tag holds; for 0, how many are free.
pub fn pages_of(made: u32, owners: &[u8], t: u32) -> u32
    ensures { result ≡ pages_in made owners.now t }
{
    let n = page_count(made);
    cells::count(owners, n, t)
}

// The lowest free page, the number of pages where none is free.
pub fn find_free(made: u32, owners: &[u8]) -> u32
    ensures { result ≡ first_free_in made owners.now }
{
    let n = page_count(made);
    for j in 0..n {
        if owner_at(owners, j) == 0 {
            return j;
        }
    }
    n
}
