// The functions of abi as C calls them: what each takes and promises stands there, and the host answers for the same.
#![tactic(auto)]

ghost use Rattle.std.specs.Prelude.{◌≡◌, [], ◌∷◌, length};
ghost use Rattle.std.proofs.lemmas.List.Edits.{sets};
ghost use Rattle.abi.specs.Memory.{Made, Called, Viewed, layout};

#[unsafe(no_mangle)]
pub extern "C" fn region_store_make(
    numbers: &mut [u32; 5],
    widths: &mut [u8; 32],
    slots: &mut [u32; 256],
    sizes: &mut [u8; 16],
    marks: &mut [u8; 256],
    names: &mut [u32; 64],
    parents: &mut [u8; 64],
    levels: &mut [u8; 64],
    shares: &mut [u32; 256],
    newest: &mut [u16; 64],
    oldest: &mut [u32; 64],
    owners: &mut [u8; 256],
    taken: &mut [u8; 256],
    heap: &mut [u32],
    reply: &mut [u32; 5],
)
    ensures { Made heap.old (numbers.new ∷ widths.new ∷ slots.new ∷ sizes.new ∷ marks.new ∷ names.new ∷ parents.new ∷ levels.new ∷ shares.new ∷ newest.new ∷ oldest.new ∷ owners.new ∷ taken.new ∷ []) heap.new reply.new }
{
    abi::region_store_make(
        numbers, widths, slots, sizes, marks, names, parents, levels, shares, newest, oldest,
        owners, taken, heap, reply,
    );
}

#[unsafe(no_mangle)]
pub extern "C" fn region_store_call(
    numbers: &mut [u32; 5],
    widths: &mut [u8; 32],
    slots: &mut [u32; 256],
    sizes: &mut [u8; 16],
    marks: &mut [u8; 256],
    names: &mut [u32; 64],
    parents: &mut [u8; 64],
    levels: &mut [u8; 64],
    shares: &mut [u32; 256],
    newest: &mut [u16; 64],
    oldest: &mut [u32; 64],
    owners: &mut [u8; 256],
    taken: &mut [u8; 256],
    heap: &mut [u32],
    number: u32,
    a: u32,
    b: u32,
    c: u32,
    d: u32,
    list: &[u32],
    reply: &mut [u32; 5],
)
    ensures { Called number a b c d list.now (numbers.old ∷ widths.old ∷ slots.old ∷ sizes.old ∷ marks.old ∷ names.old ∷ parents.old ∷ levels.old ∷ shares.old ∷ newest.old ∷ oldest.old ∷ owners.old ∷ taken.old ∷ []) heap.old (numbers.new ∷ widths.new ∷ slots.new ∷ sizes.new ∷ marks.new ∷ names.new ∷ parents.new ∷ levels.new ∷ shares.new ∷ newest.new ∷ oldest.new ∷ owners.new ∷ taken.new ∷ []) heap.new reply.new }
{
    abi::region_store_call(
        numbers, widths, slots, sizes, marks, names, parents, levels, shares, newest, oldest,
        owners, taken, heap, number, a, b, c, d, list, reply,
    );
}

#[unsafe(no_mangle)]
pub extern "C" fn region_store_view(
    numbers: &[u32; 5],
    widths: &[u8; 32],
    slots: &[u32; 256],
    sizes: &[u8; 16],
    marks: &[u8; 256],
    names: &[u32; 64],
    parents: &[u8; 64],
    levels: &[u8; 64],
    shares: &[u32; 256],
    newest: &[u16; 64],
    oldest: &[u32; 64],
    owners: &[u8; 256],
    taken: &[u8; 256],
    heap: &[u32],
    slot: u32,
    out: &mut [u32; 3],
)
    ensures { Viewed slot (numbers.now ∷ widths.now ∷ slots.now ∷ sizes.now ∷ marks.now ∷ names.now ∷ parents.now ∷ levels.now ∷ shares.now ∷ newest.now ∷ oldest.now ∷ owners.now ∷ taken.now ∷ []) heap.now out.new }
{
    abi::region_store_view(
        numbers, widths, slots, sizes, marks, names, parents, levels, shares, newest, oldest,
        owners, taken, heap, slot, out,
    );
}

#[unsafe(no_mangle)]
pub extern "C" fn region_store_audit<'a>(
    numbers: &[u32; 5],
    widths: &'a [u8; 32],
    slots: &'a [u32; 256],
    sizes: &'a [u8; 16],
    marks: &'a [u8; 256],
    names: &'a [u32; 64],
    parents: &'a [u8; 64],
    levels: &'a [u8; 64],
    shares: &'a [u32; 256],
    newest: &'a [u16; 64],
    oldest: &'a [u32; 64],
    owners: &'a [u8; 256],
    taken: &'a [u8; 256],
    heap: &[u32],
    reply: &mut [u32; 5],
)
    ensures { Called 22 0 0 0 0 [] (numbers.now ∷ widths.now ∷ slots.now ∷ sizes.now ∷ marks.now ∷ names.now ∷ parents.now ∷ levels.now ∷ shares.now ∷ newest.now ∷ oldest.now ∷ owners.now ∷ taken.now ∷ []) heap.now (numbers.now ∷ widths.now ∷ slots.now ∷ sizes.now ∷ marks.now ∷ names.now ∷ parents.now ∷ levels.now ∷ shares.now ∷ newest.now ∷ oldest.now ∷ owners.now ∷ taken.now ∷ []) heap.now reply.new }
{
    abi::region_store_audit(
        numbers, widths, slots, sizes, marks, names, parents, levels, shares, newest, oldest,
        owners, taken, heap, reply,
    );
}

#[unsafe(no_mangle)]
pub extern "C" fn region_store_layout(out: &mut [u32]) -> usize
    ensures { (out.new ≡ sets out.old 0 layout) × (result ≡ length layout) }
{
    abi::region_store_layout(out)
}
