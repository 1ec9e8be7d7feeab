// What the types of the language say of every state. The function does nothing and gives nothing: its contract is what it is for.
#![tactic(auto)]

ghost use Rattle.std.specs.Prelude.{List, ℕ};
ghost use Rattle.outcomes.specs.Shape.{Bits32, Shaped};
ghost use Rattle.outcomes.specs.Outcome.{store};

use state::State;

// Lengths and sizes of numbers. By value, since of a lent array the language tells the length alone. What is left to say is of the heap: of a slice the language tells the size of an element only where it is read.
pub fn arrays_shaped(s: State)
    ensures { (heap : List ℕ) → Bits32 heap → Shaped (store s heap) }
{}
