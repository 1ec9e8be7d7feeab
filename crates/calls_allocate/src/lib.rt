// Allocate (document 01's call 8), and where a region's next object stands.
// allocate_in's parameters are the numbers and arrays of the state one by one, and no struct of them: README gives it so, and a host lends them so.
#![tactic(auto)]

ghost use Rattle.std.specs.Prelude.{◌≡◌, ◌<◌, ◌≤◌, get_or, IfSome, IfOk};
ghost use Rattle.refusals.specs.Refusals.{refused};
ghost use Rattle.model.specs.Model.{allocate};
ghost use Rattle.model.specs.Calls.{reason};
ghost use Rattle.lent.specs.Lent.{InPlace, with_made, with_standing, with_declared, with_widths, with_slots, with_sizes, with_names, with_newest, with_oldest, with_owners, with_taken};
ghost use Rattle.calls_allocate.specs.Places.{allocate_tests, free_place, place_for, place_or_0, oldest_with};

use frames::FramesIn;
use pages::PagesIn;
use refusals::Refusal;
use state::Reply;

// A pointer to the start of the lowest free page.
#[tactic(auto, unfolding(crate::specs::Places::free_place))]
fn free_place(pages: &PagesIn) -> Option<u32>
    ensures place { place_or_0 result ≡ free_place pages.now.made pages.now.owners.now }
    ensures within { IfSome result (λ v. (0 < v) × (v ≤ 16384)) }
{
    let j = pages::find_free(pages.made, pages.owners);
    if j < pages.page_count() {
        Some(64 * j + 1)
    } else {
        None
    }
}

// A pointer to the place of the next object of n words, its header too, of the region whose newest page, plus 1, is q; none where no page has room.
// 4194240 is a pointer to the last word of page 65,534, the last that a region's newest page can be.
#[tactic(auto, unfolding(crate::specs::Places::place_for, outcomes::specs::Store::roomy_in))]
fn place_for(pages: &PagesIn, q: u32, n: u32) -> Option<u32>
    requires { (q < 65536) × (0 < n) × (n ≤ 17) }
    ensures place { place_or_0 result ≡ place_for pages.now.made pages.now.owners.now pages.now.taken.now q n }
    ensures within { IfSome result (λ v. (0 < v) × (v ≤ 4194240)) }
{
    if 0 < q {
        let t = pages.taken_at(q - 1);
        if t + n <= 64 {
            return Some(64 * (q - 1) + t + 1);
        }
    }
    free_place(pages)
}

// 2, 12 and 13, for a region at entry e and a place for the object; else that place.
#[tactic(auto, unfolding(crate::specs::Places::allocate_tests))]
fn allocate_refusal(declared: u32, e: u32, kind: u32, place: Option<u32>) -> Result<u32, Refusal>
    requires { IfSome place (λ v. 0 < v) }
    ensures tests { refused result ≡ reason (allocate_tests declared e kind (place_or_0 place)) }
    ensures place { IfOk result (λ v. v ≡ place_or_0 place) }
{
    if 64 <= e {
        return Err(Refusal::NoRegion);
    }
    if kind == 0 || kinds::kind_count(declared) < kind {
        return Err(Refusal::NoKind);
    }
    place.ok_or(Refusal::NoRoom)
}

// The oldest object of the region at entry e once v is made.
fn oldest_with(oldest: &[u32], e: u32, v: u32) -> u32
    ensures { result ≡ oldest_with (get_or oldest.now e 0) v }
{
    let o = regions::oldest_at(oldest, e);
    if o == 0 { v } else { o }
}

// Document 01's call 8: an object of that kind, made for the region and put in the slot.
#[tactic(auto, using(crate::proofs::Laws::object_passed, crate::proofs::Laws::size_small))]
pub fn allocate_in(
    made: u32,
    standing: u32,
    declared: u32,
    widths: &[u8; 32],
    slots: &mut [u32; 256],
    sizes: &[u8; 16],
    names: &[u32; 64],
    newest: &mut [u16; 64],
    oldest: &mut [u32; 64],
    owners: &mut [u8; 256],
    taken: &mut [u8; 256],
    heap: &mut [u32],
    slot: u32,
    region: u32,
    kind: u32,
) -> Reply
    ensures { InPlace (allocate slot region kind) (λ s. with_made made (with_standing standing (with_declared declared (with_widths widths.now (with_sizes sizes.now (with_names names.now (with_slots slots.old (with_newest newest.old (with_oldest oldest.old (with_owners owners.old (with_taken taken.old s))))))))))) heap.old result (λ s. with_slots slots.new (with_newest newest.new (with_oldest oldest.new (with_owners owners.new (with_taken taken.new s))))) heap.new }
{
    let frames = FramesIn {
        standing,
        widths,
        slots,
    };
    if let Err(r) = checks::check_top(made, heap.len(), &frames, slot, slot) {
        return checks::refuses(r);
    }
    let e = regions::entry_of(names, region);
    let n = kinds::size_of(declared, sizes, kind);
    let words = 1 + n;
    let q = regions::newest_at(newest, e);
    let pages = PagesIn {
        made,
        owners,
        taken,
    };
    let place = place_for(&pages, q, words);
    let v = match allocate_refusal(declared, e, kind, place) {
        Ok(v) => v,
        Err(r) => return checks::refuses(r),
    };
    let at = v - 1;
    let j = at / 64;
    let tag = (e + 1) as u8;
    let page = (j + 1) as u16;
    let end = (at % 64 + words) as u8;
    let o = oldest_with(oldest, e, v);
    cells::lay(heap, at, kind, n);
    cells::put(newest, e as usize, page);
    cells::put(oldest, e as usize, o);
    cells::put(owners, j as usize, tag);
    cells::put(taken, j as usize, end);
    frames::put_slot(slots, frames::top(standing), slot, v);
    checks::gives(0, 0, 0, 0)
}
