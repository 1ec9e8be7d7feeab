// README's first example: it prints 19.
#![tactic(auto)]

use std::io;

// A store of one page: a region, an object in it, and why the region cannot go while a slot leads there.
fn example() -> u32 {
    let mut heap = [0u32; 64];
    let made = store::make(&mut heap);
    let marks = [1u32, 0];
    let a = store::declare(made.state, &heap, &marks);
    let b = store::push(a.state, &heap, 1);
    let c = store::new_region(b.state, &heap);
    let d = store::allocate(c.state, &mut heap, 0, c.reply.a, a.reply.a);
    let e = store::delete(d.state, &heap, c.reply.a, 0);
    e.reply.refusal
}

fn main(rt: HostRuntime) -> io::Result<()> {
    let refusal = example();
    println!(rt; "{refusal}")
}
