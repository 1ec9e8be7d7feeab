// The store for hosts in other languages: functions on memory that the host lends, which abi_c has C call. The state is lent as thirteen arrays, its numbers first, then its arrays in the order of its parts.
// Pointers are aligned and not null, also where a length is 0, lengths are true, and no two buffers overlap: that the host answers for. Whatever the memory holds, the calls are safe, end and have their outcomes; what the outcomes say of memory that the audit rejects is more than document 01 fixes.
#![tactic(auto)]

ghost use Rattle.std.specs.Prelude.{◌≡◌, [], ◌∷◌, length, get_or};
ghost use Rattle.std.proofs.lemmas.List.Edits.{sets};
ghost use Rattle.lent.specs.Lent.{state_of};
ghost use Rattle.abi.specs.Memory.{HoldsState, Made, Called, Viewed, layout};

use frames::Frames;
use kinds::Kinds;
use pages::Pages;
use regions::Regions;
use state::State;

// What the types say of memory that is lent: it holds a state. It does nothing: its contract is what it is for.
fn holds(
    numbers: [u32; 5],
    widths: [u8; 32],
    slots: [u32; 256],
    sizes: [u8; 16],
    marks: [u8; 256],
    names: [u32; 64],
    parents: [u8; 64],
    levels: [u8; 64],
    shares: [u32; 256],
    newest: [u16; 64],
    oldest: [u32; 64],
    owners: [u8; 256],
    taken: [u8; 256],
)
    ensures { HoldsState (state_of (get_or numbers 0 0) (get_or numbers 1 0) (get_or numbers 2 0) (get_or numbers 3 0) (get_or numbers 4 0) widths slots sizes marks names parents levels shares newest oldest owners taken) (numbers ∷ widths ∷ slots ∷ sizes ∷ marks ∷ names ∷ parents ∷ levels ∷ shares ∷ newest ∷ oldest ∷ owners ∷ taken ∷ []) }
{
    let [standing, counted, declared, given, made] = numbers;
    shapes::arrays_shaped(State {
        frames: Frames {
            standing,
            counted,
            widths,
            slots,
        },
        kinds: Kinds {
            declared,
            sizes,
            marks,
        },
        regions: Regions {
            given,
            names,
            parents,
            levels,
            shares,
            newest,
            oldest,
        },
        pages: Pages {
            made,
            owners,
            taken,
        },
    });
}

// Make: what the arrays held does not matter. The reply is the refusal's number, 0 where the call was accepted, and four values.
pub fn region_store_make(
    numbers: &mut [u32; 5],
    widths: &mut [u8; 32],
    slots: &mut [u32; 256],
    sizes: &mut [u8; 16],
    marks: &mut [u8; 256],
    names: &mut [u32; 64],
    parents: &mut [u8; 64],
    levels: &mut [u8; 64],
    shares: &mut [u32; 256],
    newest: &mut [u16; 64],
    oldest: &mut [u32; 64],
    owners: &mut [u8; 256],
    taken: &mut [u8; 256],
    heap: &mut [u32],
    reply: &mut [u32; 5],
)
    ensures { Made heap.old (numbers.new ∷ widths.new ∷ slots.new ∷ sizes.new ∷ marks.new ∷ names.new ∷ parents.new ∷ levels.new ∷ shares.new ∷ newest.new ∷ oldest.new ∷ owners.new ∷ taken.new ∷ []) heap.new reply.new }
{
    let [mut standing, mut counted, mut declared, mut given, mut made] = [0; 5];
    let r = store::make_in(
        &mut standing,
        &mut counted,
        &mut declared,
        &mut given,
        &mut made,
        widths,
        slots,
        sizes,
        marks,
        names,
        parents,
        levels,
        shares,
        newest,
        oldest,
        owners,
        taken,
        heap,
    );
    *numbers = [standing, counted, declared, given, made];
    holds(
        *numbers, *widths, *slots, *sizes, *marks, *names, *parents, *levels, *shares, *newest,
        *oldest, *owners, *taken,
    );
    *reply = r.into();
}

// Any call but make, by its number, as `store::call_in` takes it.
pub fn region_store_call(
    numbers: &mut [u32; 5],
    widths: &mut [u8; 32],
    slots: &mut [u32; 256],
    sizes: &mut [u8; 16],
    marks: &mut [u8; 256],
    names: &mut [u32; 64],
    parents: &mut [u8; 64],
    levels: &mut [u8; 64],
    shares: &mut [u32; 256],
    newest: &mut [u16; 64],
    oldest: &mut [u32; 64],
    owners: &mut [u8; 256],
    taken: &mut [u8; 256],
    heap: &mut [u32],
    number: u32,
    a: u32,
    b: u32,
    c: u32,
    d: u32,
    list: &[u32],
    reply: &mut [u32; 5],
)
    ensures { Called number a b c d list.now (numbers.old ∷ widths.old ∷ slots.old ∷ sizes.old ∷ marks.old ∷ names.old ∷ parents.old ∷ levels.old ∷ shares.old ∷ newest.old ∷ oldest.old ∷ owners.old ∷ taken.old ∷ []) heap.old (numbers.new ∷ widths.new ∷ slots.new ∷ sizes.new ∷ marks.new ∷ names.new ∷ parents.new ∷ levels.new ∷ shares.new ∷ newest.new ∷ oldest.new ∷ owners.new ∷ taken.new ∷ []) heap.new reply.new }
{
    let [mut standing, mut counted, mut declared, mut given, mut made] = *numbers;
    holds(
        *numbers, *widths, *slots, *sizes, *marks, *names, *parents, *levels, *shares, *newest,
        *oldest, *owners, *taken,
    );
    let r = store::call_in(
        &mut standing,
        &mut counted,
        &mut declared,
        &mut given,
        &mut made,
        widths,
        slots,
        sizes,
        marks,
        names,
        parents,
        levels,
        shares,
        newest,
        oldest,
        owners,
        taken,
        heap,
        number,
        a,
        b,
        c,
        d,
        list,
    );
    let m = [standing, counted, declared, given, made];
    holds(
        m, *widths, *slots, *sizes, *marks, *names, *parents, *levels, *shares, *newest, *oldest,
        *owners, *taken,
    );
    *numbers = m;
    *reply = r.into();
}

// View: the refusal's number, and the part as its place and its length in the heap, both 0 where there is none.
pub fn region_store_view(
    numbers: &[u32; 5],
    widths: &[u8; 32],
    slots: &[u32; 256],
    sizes: &[u8; 16],
    marks: &[u8; 256],
    names: &[u32; 64],
    parents: &[u8; 64],
    levels: &[u8; 64],
    shares: &[u32; 256],
    newest: &[u16; 64],
    oldest: &[u32; 64],
    owners: &[u8; 256],
    taken: &[u8; 256],
    heap: &[u32],
    slot: u32,
    out: &mut [u32; 3],
)
    ensures { Viewed slot (numbers.now ∷ widths.now ∷ slots.now ∷ sizes.now ∷ marks.now ∷ names.now ∷ parents.now ∷ levels.now ∷ shares.now ∷ newest.now ∷ oldest.now ∷ owners.now ∷ taken.now ∷ []) heap.now out.new }
{
    let [standing, _, declared, _, made] = *numbers;
    holds(
        *numbers, *widths, *slots, *sizes, *marks, *names, *parents, *levels, *shares, *newest,
        *oldest, *owners, *taken,
    );
    let v = store::view_in(
        made, standing, declared, widths, slots, sizes, marks, heap, slot,
    );
    *out = [v.refusal, v.place, v.count];
}

// Audit by itself, for a host that asks whether memory is a store before it makes any call on it. It is also what keeps audit's own 16 KB of stack out of region_store_call: the compiler puts a function that is called in two places into neither.
pub fn region_store_audit<'a>(
    numbers: &[u32; 5],
    widths: &'a [u8; 32],
    slots: &'a [u32; 256],
    sizes: &'a [u8; 16],
    marks: &'a [u8; 256],
    names: &'a [u32; 64],
    parents: &'a [u8; 64],
    levels: &'a [u8; 64],
    shares: &'a [u32; 256],
    newest: &'a [u16; 64],
    oldest: &'a [u32; 64],
    owners: &'a [u8; 256],
    taken: &'a [u8; 256],
    heap: &[u32],
    reply: &mut [u32; 5],
)
    ensures { Called 22 0 0 0 0 [] (numbers.now ∷ widths.now ∷ slots.now ∷ sizes.now ∷ marks.now ∷ names.now ∷ parents.now ∷ levels.now ∷ shares.now ∷ newest.now ∷ oldest.now ∷ owners.now ∷ taken.now ∷ []) heap.now (numbers.now ∷ widths.now ∷ slots.now ∷ sizes.now ∷ marks.now ∷ names.now ∷ parents.now ∷ levels.now ∷ shares.now ∷ newest.now ∷ oldest.now ∷ owners.now ∷ taken.now ∷ []) heap.now reply.new }
{
    let [standing, counted, declared, given, made] = *numbers;
    holds(
        *numbers, *widths, *slots, *sizes, *marks, *names, *parents, *levels, *shares, *newest,
        *oldest, *owners, *taken,
    );
    let r = store::audit_in(
        made, standing, counted, declared, given, widths, slots, sizes, marks, names, parents,
        levels, shares, newest, oldest, owners, taken, heap,
    );
    *reply = r.into();
}

// Numbers written from the start on, as far as there is room.
fn write(out: &mut [u32], l: &[u32])
    ensures { out.new ≡ sets out.old 0 l.now }
{
    let n = l.len().min(out.len());
    out[..n].copy_from_slice(&l[..n]);
}

// The layout: its version, then for each array the bytes of an element and how many elements there are; written as far as there is room. Gives how many numbers a layout has, whether there was room for them or not.
pub fn region_store_layout(out: &mut [u32]) -> usize
    ensures { (out.new ≡ sets out.old 0 layout) × (result ≡ length layout) }
{
    let l = [
        1u32, 4, 5, 1, 32, 4, 256, 1, 16, 1, 256, 4, 64, 1, 64, 1, 64, 4, 256, 2, 64, 4, 64, 1,
        256, 1, 256,
    ];
    write(out, &l);
    l.len()
}
