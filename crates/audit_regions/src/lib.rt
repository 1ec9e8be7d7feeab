// The audit's tests of regions: names, levels, and the regions above.
#![tactic(auto)]

ghost use Rattle.std.specs.Prelude.{◌≡◌};
ghost use Rattle.audit_regions.specs.Filed.{placed_at, namesakes, region_fits, entry_fits, regions_fit};

use regions::RegionsIn;

// Whether the entry above entry i, if there is one, is in use and one level less deep; region 1 has none.
#[tactic(auto, unfolding(crate::specs::Filed::placed_at))]
fn placed(regions: &RegionsIn, i: u32) -> bool
    ensures { result ≡ placed_at regions.now.names.now regions.now.parents.now regions.now.levels.now i }
{
    let t = regions.parent_at(i);
    let l = regions.level_at(i);
    if t == 0 {
        return l == 1;
    }
    regions.name_at(t - 1) != 0
        && (l as usize) == (regions.level_at(t - 1) as usize) + 1
        && regions.name_at(i) != 1
}

// How many entries have the name n.
#[tactic(auto, unfolding(crate::specs::Filed::namesakes))]
fn namesakes(regions: &RegionsIn, n: u32) -> u32
    ensures { result ≡ namesakes regions.now.names.now n }
{
    cells::count(regions.names, 64, n)
}

// Whether entry i, in use, has a name that was given to no other, and its place among the others.
#[tactic(auto, unfolding(crate::specs::Filed::region_fits))]
fn region_fits(given: u32, regions: &RegionsIn, i: u32) -> bool
    ensures { result ≡ region_fits given regions.now.names.now regions.now.parents.now regions.now.levels.now i }
{
    let n = regions.name_at(i);
    n <= given && namesakes(regions, n) == 1 && regions.level_at(i) <= 16 && placed(regions, i)
}

// Whether entry i is not in use, or fits.
#[tactic(auto, unfolding(crate::specs::Filed::entry_fits))]
fn entry_fits(given: u32, regions: &RegionsIn, i: u32) -> bool
    ensures { result ≡ entry_fits given regions.now.names.now regions.now.parents.now regions.now.levels.now i }
{
    regions.name_at(i) == 0 || region_fits(given, regions, i)
}

// Region 1 lives, and every entry in use fits.
#[tactic(auto, unfolding(crate::specs::Filed::regions_fit))]
pub fn regions_fit(given: u32, regions: &RegionsIn) -> bool
    ensures { result ≡ regions_fit given regions.now.names.now regions.now.parents.now regions.now.levels.now }
{
    regions.entry_of(1) < 64 && (0..64).all(|i| entry_fits(given, regions, i))
}
