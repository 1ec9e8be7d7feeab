// The calls that make regions (document 01's calls 3 and 4).
// The parameters of each are the numbers and arrays of the state one by one, and no struct of them: README gives them so, and a host lends them so.
#![tactic(auto)]

ghost use Rattle.std.specs.Prelude.{◌≡◌};
ghost use Rattle.refusals.specs.Refusals.{refused};
ghost use Rattle.model.specs.Model.{new_region, subregion};
ghost use Rattle.model.specs.Calls.{reason};
ghost use Rattle.lent.specs.Lent.{InPlace, with_made, with_given, with_names, with_parents, with_levels, with_shares, with_newest, with_oldest};
ghost use Rattle.calls_regions.specs.Tests.{more_tests, new_tests, subregion_tests};

use refusals::Refusal;
use regions::RegionsIn;
use state::Reply;

// 4 and 5, for one region more.
#[tactic(auto, unfolding(crate::specs::Tests::more_tests))]
fn more_refusal(names: &[u32], given: u32) -> Result<(), Refusal>
    ensures { refused result ≡ reason (more_tests names.now given) }
{
    if 64 <= regions::live_count(names) {
        return Err(Refusal::RegionsFull);
    }
    if 1000000 <= given {
        return Err(Refusal::NamesSpent);
    }
    Ok(())
}

// 21, 4 and 5, for a heap of n words.
#[tactic(auto, unfolding(crate::specs::Tests::new_tests))]
fn new_refusal(made: u32, n: usize, names: &[u32], given: u32) -> Result<(), Refusal>
    ensures { refused result ≡ reason (new_tests made n names.now given) }
{
    if pages::wrong_length(made, n) {
        return Err(Refusal::OtherHeap);
    }
    more_refusal(names, given)
}

// 21, 2, 20, 4 and 5, for a heap of n words and the region above at entry e.
#[tactic(auto, unfolding(crate::specs::Tests::subregion_tests))]
fn subregion_refusal(
    made: u32,
    n: usize,
    regions: &RegionsIn,
    given: u32,
    e: u32,
) -> Result<(), Refusal>
    ensures { refused result ≡ reason (subregion_tests made n regions.now.names.now regions.now.levels.now given e) }
{
    if pages::wrong_length(made, n) {
        return Err(Refusal::OtherHeap);
    }
    if 64 <= e {
        return Err(Refusal::NoRegion);
    }
    if 16 <= regions.level_at(e) {
        return Err(Refusal::Deepest);
    }
    more_refusal(regions.names, given)
}

// Document 01's call 3: a region with none above it.
#[tactic(auto, using(crate::proofs::Laws::new_passed))]
pub fn new_region_in(
    made: u32,
    given: &mut u32,
    names: &mut [u32; 64],
    parents: &mut [u8; 64],
    levels: &mut [u8; 64],
    shares: &mut [u32; 256],
    newest: &mut [u16; 64],
    oldest: &mut [u32; 64],
    heap: &[u32],
) -> Reply
    ensures { InPlace new_region (λ s. with_made made (with_given given.old (with_names names.old (with_parents parents.old (with_levels levels.old (with_shares shares.old (with_newest newest.old (with_oldest oldest.old s)))))))) heap.now result (λ s. with_given given.new (with_names names.new (with_parents parents.new (with_levels levels.new (with_shares shares.new (with_newest newest.new (with_oldest oldest.new s))))))) heap.now }
{
    let last = *given;
    if let Err(r) = new_refusal(made, heap.len(), names, last) {
        return checks::refuses(r);
    }
    let name = last + 1;
    let i = regions::unused(names);
    cells::put(names, i as usize, name);
    cells::put(parents, i as usize, 0);
    cells::put(levels, i as usize, 1);
    regions::clear_shares(shares, i);
    cells::put(newest, i as usize, 0);
    cells::put(oldest, i as usize, 0);
    *given = name;
    checks::gives(name, 0, 0, 0)
}

// Document 01's call 4: a region below the one named `above`.
#[tactic(auto, using(crate::proofs::Laws::subregion_passed))]
pub fn subregion_in(
    made: u32,
    given: &mut u32,
    names: &mut [u32; 64],
    parents: &mut [u8; 64],
    levels: &mut [u8; 64],
    shares: &mut [u32; 256],
    newest: &mut [u16; 64],
    oldest: &mut [u32; 64],
    heap: &[u32],
    above: u32,
) -> Reply
    ensures { InPlace (subregion above) (λ s. with_made made (with_given given.old (with_names names.old (with_parents parents.old (with_levels levels.old (with_shares shares.old (with_newest newest.old (with_oldest oldest.old s)))))))) heap.now result (λ s. with_given given.new (with_names names.new (with_parents parents.new (with_levels levels.new (with_shares shares.new (with_newest newest.new (with_oldest oldest.new s))))))) heap.now }
{
    let last = *given;
    let regions = RegionsIn {
        names,
        parents,
        levels,
    };
    let e = regions.entry_of(above);
    if let Err(r) = subregion_refusal(made, heap.len(), &regions, last, e) {
        return checks::refuses(r);
    }
    let next = last + 1;
    let tag = (e + 1) as u8;
    let level = (regions.level_at(e) + 1) as u8;
    let at = regions::unused(names);
    cells::put(names, at as usize, next);
    cells::put(parents, at as usize, tag);
    cells::put(levels, at as usize, level);
    regions::clear_shares(shares, at);
    cells::put(newest, at as usize, 0);
    cells::put(oldest, at as usize, 0);
    *given = next;
    checks::gives(next, 0, 0, 0)
}
