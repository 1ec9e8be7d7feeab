// The calls that make a store and its kinds (document 01's calls 1 and 2).
// The parameters of each are the numbers and arrays of the state one by one, and no struct of them: README gives them so, and a host lends them so.
#![tactic(auto)]

ghost use Rattle.std.specs.Prelude.{◌≡◌, []};
ghost use Rattle.refusals.specs.Refusals.{refused};
ghost use Rattle.model.specs.Model.{declare};
ghost use Rattle.model.specs.Calls.{reason, makes};
ghost use Rattle.outcomes.specs.Outcome.{MakeOutcome, answer_of, store, blank};
ghost use Rattle.lent.specs.Lent.{state_of, InPlace, with_made, with_declared, with_sizes, with_marks};
ghost use Rattle.calls_make.specs.Tests.{declare_tests};

use refusals::Refusal;
use state::Reply;

// Whether a heap of n words can be made a store: 64 times 1 to 256.
fn makes(n: usize) -> bool
    ensures { result ≡ makes n }
{
    n % 64 == 0 && 64 <= n && n <= 16384
}

// The state of a store that is not made: no page, region, kind or frame.
#[tactic(auto, unfolding(outcomes::specs::Outcome::blank))]
fn blank_in(
    standing: &mut u32,
    counted: &mut u32,
    declared: &mut u32,
    given: &mut u32,
    made: &mut u32,
    widths: &mut [u8; 32],
    slots: &mut [u32; 256],
    sizes: &mut [u8; 16],
    marks: &mut [u8; 256],
    names: &mut [u32; 64],
    parents: &mut [u8; 64],
    levels: &mut [u8; 64],
    shares: &mut [u32; 256],
    newest: &mut [u16; 64],
    oldest: &mut [u32; 64],
    owners: &mut [u8; 256],
    taken: &mut [u8; 256],
)
    ensures { state_of standing.new counted.new declared.new given.new made.new widths.new slots.new sizes.new marks.new names.new parents.new levels.new shares.new newest.new oldest.new owners.new taken.new ≡ blank 0 0 }
{
    *standing = 0;
    *counted = 0;
    *declared = 0;
    *given = 0;
    *made = 0;
    *widths = [0; 32];
    *slots = [0; 256];
    *sizes = [0; 16];
    *marks = [0; 256];
    *names = [0; 64];
    *parents = [0; 64];
    *levels = [0; 64];
    *shares = [0; 256];
    *newest = [0; 64];
    *oldest = [0; 64];
    *owners = [0; 256];
    *taken = [0; 256];
}

// Document 01's call 1: the heap becomes a store. The whole state is written, whatever it was.
pub fn make_in(
    standing: &mut u32,
    counted: &mut u32,
    declared: &mut u32,
    given: &mut u32,
    made: &mut u32,
    widths: &mut [u8; 32],
    slots: &mut [u32; 256],
    sizes: &mut [u8; 16],
    marks: &mut [u8; 256],
    names: &mut [u32; 64],
    parents: &mut [u8; 64],
    levels: &mut [u8; 64],
    shares: &mut [u32; 256],
    newest: &mut [u16; 64],
    oldest: &mut [u32; 64],
    owners: &mut [u8; 256],
    taken: &mut [u8; 256],
    heap: &mut [u32],
) -> Reply
    ensures { MakeOutcome heap.old (answer_of result []) (store (state_of standing.new counted.new declared.new given.new made.new widths.new slots.new sizes.new marks.new names.new parents.new levels.new shares.new newest.new oldest.new owners.new taken.new) heap.new) }
{
    blank_in(
        standing, counted, declared, given, made, widths, slots, sizes, marks, names, parents,
        levels, shares, newest, oldest, owners, taken,
    );
    let n = heap.len();
    if !makes(n) {
        return checks::refuses(Refusal::HeapLength);
    }
    *given = 1;
    *made = (n / 64) as u32;
    cells::put(names, 0, 1);
    cells::put(levels, 0, 1);
    cells::clear(heap);
    checks::gives(0, 0, 0, 0)
}

// 21, 11 and 10, for a heap of n words.
#[tactic(auto, unfolding(crate::specs::Tests::declare_tests))]
fn declare_refusal(made: u32, n: usize, declared: u32, marks: &[u32]) -> Result<(), Refusal>
    ensures { refused result ≡ reason (declare_tests made n declared marks.now) }
{
    if pages::wrong_length(made, n) {
        return Err(Refusal::OtherHeap);
    }
    if kinds::marks_wrong(marks) {
        return Err(Refusal::WrongMarks);
    }
    if 16 <= declared {
        return Err(Refusal::KindsFull);
    }
    Ok(())
}

// Document 01's call 2: a kind with the marks listed.
#[tactic(auto, using(crate::proofs::Laws::declare_passed))]
pub fn declare_in(
    made: u32,
    declared: &mut u32,
    sizes: &mut [u8; 16],
    marks: &mut [u8; 256],
    heap: &[u32],
    list: &[u32],
) -> Reply
    ensures { InPlace (declare list.now) (λ s. with_made made (with_declared declared.old (with_sizes sizes.old (with_marks marks.old s)))) heap.now result (λ s. with_declared declared.new (with_sizes sizes.new (with_marks marks.new s))) heap.now }
{
    let n = *declared;
    if let Err(r) = declare_refusal(made, heap.len(), n, list) {
        return checks::refuses(r);
    }
    let kind = n + 1;
    cells::put(sizes, n as usize, list.len() as u8);
    kinds::put_marks(marks, 16 * n, list);
    *declared = kind;
    checks::gives(kind, 0, 0, 0)
}
