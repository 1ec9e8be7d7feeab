// The state of a store, by value, in four parts, and what a call gives back.
#![tactic(auto)]

ghost use Rattle.std.specs.Prelude.{◌≡◌, [], ◌∷◌};

use frames::Frames;
use kinds::Kinds;
use pages::Pages;
use regions::Regions;

#[derive(Clone, Copy)]
pub struct State {
    pub frames: Frames,
    pub kinds: Kinds,
    pub regions: Regions,
    pub pages: Pages,
}

// The refusal's number, 0 where the call was accepted, and four values, 0 where there is none. No Result: who uses the store reads `reply.refusal` (README), and C gets the five as numbers.
#[derive(Clone, Copy)]
pub struct Reply {
    pub refusal: u32,
    pub a: u32,
    pub b: u32,
    pub c: u32,
    pub d: u32,
}

// The reply as hosts read it.
impl From<Reply> for [u32; 5] {
    ghost from_gives = { λ r l. l ≡ r.refusal ∷ r.a ∷ r.b ∷ r.c ∷ r.d ∷ [] };

    fn from(r: Reply) -> [u32; 5] {
        [r.refusal, r.a, r.b, r.c, r.d]
    }
}

// What a call that can change the state gives: the state as it left it, and the reply. Both names are README's.
#[derive(Clone, Copy)]
pub struct Done {
    pub state: State,
    pub reply: Reply,
}
