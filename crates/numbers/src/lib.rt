// Numbers that go with a scanned line: where its filler stands among those of its call, and how many words of a memory are the heap after it.
#![tactic(auto)]

ghost use Rattle.std.specs.Prelude.{◌≡◌, ◌*◌};
ghost use Rattle.lists.specs.Lists.{pick};
ghost use Rattle.numbers.specs.Numbers.{place_number, is_place, filler_place, words_after};

use script::PAGES;

// The call whose filler is the first number, by its number in README's table: its arguments are its list.
const DELETE_ALL: u32 = 24;

// Where the filler goes among the four numbers of a call with so many arguments, where the call names one.
pub fn filler_place(call: u32, count: u32) -> Option<u32>
    ensures { place_number result ≡ filler_place call count }
{
    if !script::names_filler(call) {
        return None;
    }
    if call == DELETE_ALL {
        Some(0)
    } else {
        Some(count)
    }
}

// Number k that goes with a call: the argument there, or the filler.
pub fn number_at(argument: u32, place: Option<u32>, filler: u32, k: u32) -> u32
    ensures { result ≡ pick (is_place k place) filler argument }
{
    if place == Some(k) { filler } else { argument }
}

// The words of n pages.
pub fn words_of(n: u32) -> usize
    ensures { result ≡ 64 * n }
{
    64 * (n as usize)
}

// How many words are the heap after a line with that call, the pages that it asks for, and the refusal.
pub fn words_after(call: u32, pages: u32, refusal: u32, words: usize) -> usize
    ensures { result ≡ words_after call pages refusal words }
{
    if call != PAGES {
        return words;
    }
    if refusal == 0 { words_of(pages) } else { 0 }
}
