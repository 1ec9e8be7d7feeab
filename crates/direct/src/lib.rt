// The calls that a program makes most, for hosts in other languages: each by itself, on what it reads and writes of the state alone. A function gives the refusal's number, 0 where the call was accepted, and writes its values, 0 where it was refused.
// What a host answers for is the same as in abi: pointers are aligned and not null, also where a length is 0, lengths are true, and no two buffers overlap. A library of its own beside abi's: here each call stands once, and is compiled into its function.
#![tactic(auto)]

ghost use Rattle.std.specs.Prelude.{List, [], ◌∷◌, ℕ};
ghost use Rattle.model.specs.Model.{declare, new_region, subregion, push, drop_frame, hand_back, allocate, first, copy, fetch, clear, load, set_pointer, put, get, same, about, report, totals, delete, locate, ask};
ghost use Rattle.lent.specs.Lent.{InPlace, with_made, with_standing, with_counted, with_declared, with_given, with_widths, with_slots, with_sizes, with_marks, with_names, with_parents, with_levels, with_shares, with_newest, with_oldest, with_owners, with_taken};
ghost use Rattle.direct.specs.Direct.{reply_with};

// Document 01's call 2: a kind of object, by a mark for each word.
#[unsafe(no_mangle)]
pub extern "C" fn region_store_declare(
    made: u32,
    declared: &mut u32,
    sizes: &mut [u8; 16],
    marks: &mut [u8; 256],
    heap: &[u32],
    list: &[u32],
    value: &mut u32,
) -> u32
    ensures { InPlace (declare list.now) (λ s. with_made made (with_declared declared.old (with_sizes sizes.old (with_marks marks.old s)))) heap.now (reply_with result (value.new ∷ [])) (λ s. with_declared declared.new (with_sizes sizes.new (with_marks marks.new s))) heap.now }
{
    let r = calls_make::declare_in(made, declared, sizes, marks, heap, list);
    *value = r.a;
    r.refusal
}

// Document 01's call 3: a region that lies in no other.
#[unsafe(no_mangle)]
pub extern "C" fn region_store_new_region(
    made: u32,
    given: &mut u32,
    names: &mut [u32; 64],
    parents: &mut [u8; 64],
    levels: &mut [u8; 64],
    shares: &mut [u32; 256],
    newest: &mut [u16; 64],
    oldest: &mut [u32; 64],
    heap: &[u32],
    value: &mut u32,
) -> u32
    ensures { InPlace new_region (λ s. with_made made (with_given given.old (with_names names.old (with_parents parents.old (with_levels levels.old (with_shares shares.old (with_newest newest.old (with_oldest oldest.old s)))))))) heap.now (reply_with result (value.new ∷ [])) (λ s. with_given given.new (with_names names.new (with_parents parents.new (with_levels levels.new (with_shares shares.new (with_newest newest.new (with_oldest oldest.new s))))))) heap.now }
{
    let r = calls_regions::new_region_in(
        made, given, names, parents, levels, shares, newest, oldest, heap,
    );
    *value = r.a;
    r.refusal
}

// Document 01's call 4: a region inside a region.
#[unsafe(no_mangle)]
pub extern "C" fn region_store_subregion(
    made: u32,
    given: &mut u32,
    names: &mut [u32; 64],
    parents: &mut [u8; 64],
    levels: &mut [u8; 64],
    shares: &mut [u32; 256],
    newest: &mut [u16; 64],
    oldest: &mut [u32; 64],
    heap: &[u32],
    region: u32,
    value: &mut u32,
) -> u32
    ensures { InPlace (subregion region) (λ s. with_made made (with_given given.old (with_names names.old (with_parents parents.old (with_levels levels.old (with_shares shares.old (with_newest newest.old (with_oldest oldest.old s)))))))) heap.now (reply_with result (value.new ∷ [])) (λ s. with_given given.new (with_names names.new (with_parents parents.new (with_levels levels.new (with_shares shares.new (with_newest newest.new (with_oldest oldest.new s))))))) heap.now }
{
    let r = calls_regions::subregion_in(
        made, given, names, parents, levels, shares, newest, oldest, heap, region,
    );
    *value = r.a;
    r.refusal
}

// Document 01's call 5: a frame of so many null slots on top.
#[unsafe(no_mangle)]
pub extern "C" fn region_store_push(
    made: u32,
    standing: &mut u32,
    widths: &mut [u8; 32],
    slots: &mut [u32; 256],
    heap: &[u32],
    count: u32,
    value: &mut u32,
) -> u32
    ensures { InPlace (push count) (λ s. with_made made (with_standing standing.old (with_widths widths.old (with_slots slots.old s)))) heap.now (reply_with result (value.new ∷ [])) (λ s. with_standing standing.new (with_widths widths.new (with_slots slots.new s))) heap.now }
{
    let r = calls_stack::push_in(made, standing, widths, slots, heap, count);
    *value = r.a;
    r.refusal
}

// Document 01's call 6, for a filler (document 02, card 5): the top frame goes.
#[unsafe(no_mangle)]
pub extern "C" fn region_store_drop<'a>(
    made: u32,
    standing: &mut u32,
    counted: &mut u32,
    widths: &'a [u8; 32],
    slots: &'a [u32; 256],
    shares: &mut [u32; 256],
    owners: &'a [u8; 256],
    heap: &[u32],
    filler: u32,
    value: &mut u32,
) -> u32
    ensures { InPlace (drop_frame filler) (λ s. with_made made (with_standing standing.old (with_counted counted.old (with_widths widths.now (with_slots slots.now (with_shares shares.old (with_owners owners.now s))))))) heap.now (reply_with result (value.new ∷ [])) (λ s. with_standing standing.new (with_counted counted.new (with_shares shares.new s))) heap.now }
{
    let r = calls_stack::drop_in(
        made, standing, counted, widths, slots, shares, owners, heap, filler,
    );
    *value = r.a;
    r.refusal
}

// Document 01's call 7, for a filler (document 02, card 5): the top frame goes, and what its slot held comes into the frame beneath.
#[unsafe(no_mangle)]
pub extern "C" fn region_store_hand_back<'a>(
    made: u32,
    standing: &mut u32,
    counted: &mut u32,
    widths: &'a [u8; 32],
    slots: &mut [u32; 256],
    shares: &mut [u32; 256],
    owners: &'a [u8; 256],
    heap: &[u32],
    slot: u32,
    beneath: u32,
    filler: u32,
    value: &mut u32,
) -> u32
    ensures { InPlace (hand_back slot beneath filler) (λ s. with_made made (with_standing standing.old (with_counted counted.old (with_widths widths.now (with_slots slots.old (with_shares shares.old (with_owners owners.now s))))))) heap.now (reply_with result (value.new ∷ [])) (λ s. with_standing standing.new (with_counted counted.new (with_slots slots.new (with_shares shares.new s)))) heap.now }
{
    let r = calls_stack::hand_back_in(
        made, standing, counted, widths, slots, shares, owners, heap, slot, beneath, filler,
    );
    *value = r.a;
    r.refusal
}

// Document 01's call 8: an object of the kind in the region, and the slot leads to it.
#[unsafe(no_mangle)]
pub extern "C" fn region_store_allocate(
    made: u32,
    standing: u32,
    declared: u32,
    widths: &[u8; 32],
    slots: &mut [u32; 256],
    sizes: &[u8; 16],
    names: &[u32; 64],
    newest: &mut [u16; 64],
    oldest: &mut [u32; 64],
    owners: &mut [u8; 256],
    taken: &mut [u8; 256],
    heap: &mut [u32],
    slot: u32,
    region: u32,
    kind: u32,
) -> u32
    ensures { InPlace (allocate slot region kind) (λ s. with_made made (with_standing standing (with_declared declared (with_widths widths.now (with_sizes sizes.now (with_names names.now (with_slots slots.old (with_newest newest.old (with_oldest oldest.old (with_owners owners.old (with_taken taken.old s))))))))))) heap.old (reply_with result []) (λ s. with_slots slots.new (with_newest newest.new (with_oldest oldest.new (with_owners owners.new (with_taken taken.new s))))) heap.new }
{
    let r = calls_allocate::allocate_in(
        made, standing, declared, widths, slots, sizes, names, newest, oldest, owners, taken, heap,
        slot, region, kind,
    );
    r.refusal
}

// Document 01's call 9: the slot leads to the oldest object of the region.
#[unsafe(no_mangle)]
pub extern "C" fn region_store_first(
    made: u32,
    standing: u32,
    widths: &[u8; 32],
    slots: &mut [u32; 256],
    names: &[u32; 64],
    oldest: &[u32; 64],
    heap: &[u32],
    slot: u32,
    region: u32,
) -> u32
    ensures { InPlace (first slot region) (λ s. with_made made (with_standing standing (with_widths widths.now (with_slots slots.old (with_names names.now (with_oldest oldest.now s)))))) heap.now (reply_with result []) (with_slots slots.new) heap.now }
{
    let r = calls_slots::first_in(
        made, standing, widths, slots, names, oldest, heap, slot, region,
    );
    r.refusal
}

// Document 01's call 10: slot `to` leads where slot `from` leads.
#[unsafe(no_mangle)]
pub extern "C" fn region_store_copy(
    made: u32,
    standing: u32,
    widths: &[u8; 32],
    slots: &mut [u32; 256],
    heap: &[u32],
    from: u32,
    to: u32,
) -> u32
    ensures { InPlace (copy from to) (λ s. with_made made (with_standing standing (with_widths widths.now (with_slots slots.old s)))) heap.now (reply_with result []) (with_slots slots.new) heap.now }
{
    let r = calls_slots::copy_in(made, standing, widths, slots, heap, from, to);
    r.refusal
}

// Document 01's call 11: the slot leads where a slot of the frame beneath leads.
#[unsafe(no_mangle)]
pub extern "C" fn region_store_fetch(
    made: u32,
    standing: u32,
    widths: &[u8; 32],
    slots: &mut [u32; 256],
    heap: &[u32],
    beneath: u32,
    slot: u32,
) -> u32
    ensures { InPlace (fetch beneath slot) (λ s. with_made made (with_standing standing (with_widths widths.now (with_slots slots.old s)))) heap.now (reply_with result []) (with_slots slots.new) heap.now }
{
    let r = calls_slots::fetch_in(made, standing, widths, slots, heap, beneath, slot);
    r.refusal
}

// Document 01's call 12: the slot becomes null.
#[unsafe(no_mangle)]
pub extern "C" fn region_store_clear(
    made: u32,
    standing: u32,
    widths: &[u8; 32],
    slots: &mut [u32; 256],
    heap: &[u32],
    slot: u32,
) -> u32
    ensures { InPlace (clear slot) (λ s. with_made made (with_standing standing (with_widths widths.now (with_slots slots.old s)))) heap.now (reply_with result []) (with_slots slots.new) heap.now }
{
    let r = calls_slots::clear_in(made, standing, widths, slots, heap, slot);
    r.refusal
}

// Document 01's call 13: slot `to` leads where a pointer word leads.
#[unsafe(no_mangle)]
pub extern "C" fn region_store_load<'a>(
    made: u32,
    standing: u32,
    declared: u32,
    widths: &[u8; 32],
    slots: &mut [u32; 256],
    sizes: &'a [u8; 16],
    marks: &'a [u8; 256],
    heap: &[u32],
    slot: u32,
    word: u32,
    to: u32,
) -> u32
    ensures { InPlace (load slot word to) (λ s. with_made made (with_standing standing (with_widths widths.now (with_slots slots.old (with_declared declared (with_sizes sizes.now (with_marks marks.now s))))))) heap.now (reply_with result []) (with_slots slots.new) heap.now }
{
    let r = calls_pointers::load_in(
        made, standing, declared, widths, slots, sizes, marks, heap, slot, word, to,
    );
    r.refusal
}

// Document 01's call 14, for a filler (document 02, card 5): a pointer word leads where slot `value` leads.
#[unsafe(no_mangle)]
pub extern "C" fn region_store_set_pointer<'a>(
    made: u32,
    standing: u32,
    declared: u32,
    widths: &[u8; 32],
    slots: &[u32; 256],
    sizes: &'a [u8; 16],
    marks: &'a [u8; 256],
    names: &'a [u32; 64],
    parents: &'a [u8; 64],
    levels: &'a [u8; 64],
    shares: &mut [u32; 256],
    owners: &'a [u8; 256],
    heap: &mut [u32],
    slot: u32,
    word: u32,
    value: u32,
    filler: u32,
) -> u32
    ensures { InPlace (set_pointer slot word value filler) (λ s. with_made made (with_standing standing (with_widths widths.now (with_slots slots.now (with_declared declared (with_sizes sizes.now (with_marks marks.now (with_names names.now (with_parents parents.now (with_levels levels.now (with_shares shares.old (with_owners owners.now s)))))))))))) heap.old (reply_with result []) (with_shares shares.new) heap.new }
{
    let r = calls_pointers::set_pointer_in(
        made, standing, declared, widths, slots, sizes, marks, names, parents, levels, shares,
        owners, heap, slot, word, value, filler,
    );
    r.refusal
}

// Document 01's call 15: a data word gets the number.
#[unsafe(no_mangle)]
pub extern "C" fn region_store_put<'a>(
    made: u32,
    standing: u32,
    declared: u32,
    widths: &[u8; 32],
    slots: &[u32; 256],
    sizes: &'a [u8; 16],
    marks: &'a [u8; 256],
    heap: &mut [u32],
    slot: u32,
    word: u32,
    number: u32,
) -> u32
    ensures { InPlace (put slot word number) (λ s. with_made made (with_standing standing (with_widths widths.now (with_slots slots.now (with_declared declared (with_sizes sizes.now (with_marks marks.now s))))))) heap.old (reply_with result []) (λ s. s) heap.new }
{
    let r = calls_words::put_in(
        made, standing, declared, widths, slots, sizes, marks, heap, slot, word, number,
    );
    r.refusal
}

// Document 01's call 16: what a data word holds.
#[unsafe(no_mangle)]
pub extern "C" fn region_store_get<'a>(
    made: u32,
    standing: u32,
    declared: u32,
    widths: &[u8; 32],
    slots: &[u32; 256],
    sizes: &'a [u8; 16],
    marks: &'a [u8; 256],
    heap: &[u32],
    slot: u32,
    word: u32,
    value: &mut u32,
) -> u32
    ensures { InPlace (get slot word) (λ s. with_made made (with_standing standing (with_widths widths.now (with_slots slots.now (with_declared declared (with_sizes sizes.now (with_marks marks.now s))))))) heap.now (reply_with result (value.new ∷ [])) (λ s. s) heap.now }
{
    let r = calls_words::get_in(
        made, standing, declared, widths, slots, sizes, marks, heap, slot, word,
    );
    *value = r.a;
    r.refusal
}

// Document 01's call 18: 1 where two slots lead to one object or are both null, else 0.
#[unsafe(no_mangle)]
pub extern "C" fn region_store_same(
    made: u32,
    standing: u32,
    widths: &[u8; 32],
    slots: &[u32; 256],
    heap: &[u32],
    slot: u32,
    other: u32,
    value: &mut u32,
) -> u32
    ensures { InPlace (same slot other) (λ s. with_made made (with_standing standing (with_widths widths.now (with_slots slots.now s)))) heap.now (reply_with result (value.new ∷ [])) (λ s. s) heap.now }
{
    let r = calls_about::same_in(made, standing, widths, slots, heap, slot, other);
    *value = r.a;
    r.refusal
}

// Document 01's call 19: the region and the kind of an object.
#[unsafe(no_mangle)]
pub extern "C" fn region_store_about(
    made: u32,
    standing: u32,
    widths: &[u8; 32],
    slots: &[u32; 256],
    names: &[u32; 64],
    owners: &[u8; 256],
    heap: &[u32],
    slot: u32,
    values: &mut [u32; 2],
) -> u32
    ensures { InPlace (about slot) (λ s. with_made made (with_standing standing (with_widths widths.now (with_slots slots.now (with_names names.now (with_owners owners.now s)))))) heap.now (reply_with result values.new) (λ s. s) heap.now }
{
    let r = calls_about::about_in(made, standing, widths, slots, names, owners, heap, slot);
    *values = [r.a, r.b];
    r.refusal
}

// Document 01's call 20: a region's stored count, outside pointers, pages and subregions.
#[unsafe(no_mangle)]
pub extern "C" fn region_store_report<'a>(
    made: u32,
    standing: u32,
    counted: u32,
    widths: &'a [u8; 32],
    slots: &'a [u32; 256],
    names: &'a [u32; 64],
    parents: &'a [u8; 64],
    shares: &[u32; 256],
    owners: &'a [u8; 256],
    heap: &[u32],
    region: u32,
    values: &mut [u32; 4],
) -> u32
    ensures { InPlace (report region) (λ s. with_made made (with_standing standing (with_counted counted (with_widths widths.now (with_slots slots.now (with_names names.now (with_parents parents.now (with_shares shares.now (with_owners owners.now s))))))))) heap.now (reply_with result values.new) (λ s. s) heap.now }
{
    let r = calls_report::report_in(
        made, standing, counted, widths, slots, names, parents, shares, owners, heap, region,
    );
    *values = [r.a, r.b, r.c, r.d];
    r.refusal
}

// Document 01's call 21: free pages, live regions, frames standing and counted.
#[unsafe(no_mangle)]
pub extern "C" fn region_store_totals(
    made: u32,
    standing: u32,
    counted: u32,
    names: &[u32; 64],
    owners: &[u8; 256],
    values: &mut [u32; 4],
) -> u32
    ensures { (heap : List ℕ) → InPlace totals (λ s. with_made made (with_standing standing (with_counted counted (with_names names.now (with_owners owners.now s))))) heap (reply_with result values.new) (λ s. s) heap }
{
    let r = calls_about::totals_in(made, standing, counted, names, owners);
    *values = [r.a, r.b, r.c, r.d];
    r.refusal
}

// Document 01's call 23, for a filler (document 02, card 5): the region goes, and its pages are free.
#[unsafe(no_mangle)]
pub extern "C" fn region_store_delete<'a>(
    made: u32,
    standing: u32,
    counted: &mut u32,
    declared: u32,
    widths: &'a [u8; 32],
    slots: &'a [u32; 256],
    sizes: &'a [u8; 16],
    marks: &'a [u8; 256],
    names: &mut [u32; 64],
    parents: &'a [u8; 64],
    shares: &mut [u32; 256],
    owners: &mut [u8; 256],
    taken: &'a [u8; 256],
    heap: &[u32],
    region: u32,
    filler: u32,
    value: &mut u32,
) -> u32
    ensures { InPlace (delete region filler) (λ s. with_made made (with_standing standing (with_counted counted.old (with_declared declared (with_widths widths.now (with_slots slots.now (with_sizes sizes.now (with_marks marks.now (with_names names.old (with_parents parents.now (with_shares shares.old (with_owners owners.old (with_taken taken.now s))))))))))))) heap.now (reply_with result (value.new ∷ [])) (λ s. with_counted counted.new (with_names names.new (with_shares shares.new (with_owners owners.new s)))) heap.now }
{
    let r = calls_delete::delete_in(
        made, standing, counted, declared, widths, slots, sizes, marks, names, parents, shares,
        owners, taken, heap, region, filler,
    );
    *value = r.a;
    r.refusal
}

// Call 25 (document 02, card 4): the page of an object, and its header's word there.
#[unsafe(no_mangle)]
pub extern "C" fn region_store_locate(
    made: u32,
    standing: u32,
    widths: &[u8; 32],
    slots: &[u32; 256],
    heap: &[u32],
    slot: u32,
    values: &mut [u32; 2],
) -> u32
    ensures { InPlace (ask (locate slot)) (λ s. with_made made (with_standing standing (with_widths widths.now (with_slots slots.now s)))) heap.now (reply_with result values.new) (λ s. s) heap.now }
{
    let r = calls_about::locate_in(made, standing, widths, slots, heap, slot);
    *values = [r.a, r.b];
    r.refusal
}
