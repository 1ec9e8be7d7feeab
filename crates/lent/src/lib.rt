// What view gives in place, and an array laid back into a state that is kept apart. What the calls in place promise stands in specs/.
#![tactic(auto)]

ghost use Rattle.std.specs.Prelude.{◌≡◌};

// The refusal's number, and the object's part of the heap by its place and its length, both 0 where there is none. No Result: hosts in C get the three as numbers, and README says what `view_in` gives.
#[derive(Clone, Copy)]
pub struct View {
    pub refusal: u32,
    pub place: u32,
    pub count: u32,
}

// An array laid back where it was lent from. Nothing here calls it, and `*to = *from` does the same: it stays for those who know it by its name (docs/DESIGN-PASS.md).
pub fn lay_words(to: &mut [u32; 64], from: &[u32; 64])
    ensures { to.new ≡ from.now }
{
    *to = *from;
}
