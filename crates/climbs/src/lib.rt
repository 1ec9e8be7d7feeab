// Whether a word's mark allows where a pointer leads: the climb from a region to those above.
// Tags and levels are 0 for none, and marks are numbers and no enum, as the state has them: any number may stand there (`up_in`, `level_in`, `rule`).
#![tactic(auto)]

ghost use Rattle.std.specs.Prelude.{◌≡◌, map, min};
ghost use Rattle.lists.specs.Lists.{among};
ghost use Rattle.model.specs.Model.{climb};
ghost use Rattle.regions.specs.Regions.{name_in, up_in, level_in, allows_in};

use regions::RegionsIn;

// The tag of the region above the one with that tag, 0 for none.
fn up_from(parents: &[u8], t: u32) -> u32
    ensures { result ≡ up_in parents.now t }
{
    if t == 0 {
        return 0;
    }
    regions::parent_at(parents, t - 1)
}

// The level of the region with that tag, 16 at most, 0 for none.
fn level_from(levels: &[u8], t: u32) -> u32
    ensures { result ≡ min (level_in levels.now t) 16 }
{
    if t == 0 {
        return 0;
    }
    regions::level_at(levels, t - 1).min(16)
}

// Whether a region named n is met on the way up from the region with that tag, in no more steps than `level`, which is that region's, 16 at most, where the climb begins. With each
// step up it falls by one, and no level is read again: so the climb ends, also where the regions above stand in a ring (document 02, card 1).
fn is_above(regions: &RegionsIn, level: u32, t: u32, n: u32) -> bool
    ensures { result ≡ among n (map (name_in regions.now.names.now) (climb (up_in regions.now.parents.now) level t)) }
{
    if level == 0 {
        return false;
    }
    let up = up_from(regions.parents, t);
    if up == 0 {
        return false;
    }
    if regions.name_of(up) == n {
        return true;
    }
    is_above(regions, level - 1, up, n)
}

// Whether a word marked m, of an object of the region with tag h, may lead into the region with tag t. Only mark 3 climbs.
pub fn allows(regions: &RegionsIn, m: u32, h: u32, t: u32) -> bool
    ensures { result ≡ allows_in regions.now.names.now regions.now.parents.now regions.now.levels.now m h t }
{
    if m == 1 {
        return true;
    }
    let to = regions.name_of(t);
    let own = regions.name_of(h);
    if m == 2 {
        return to == own;
    }
    if m == 3 {
        if to == own {
            return true;
        }
        return is_above(regions, level_from(regions.levels, h), h, to);
    }
    if m == 4 {
        return to == 1;
    }
    false
}
