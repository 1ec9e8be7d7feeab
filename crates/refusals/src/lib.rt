// Why a call is refused (document 01, Refusals; document 02).
#![tactic(auto)]

ghost use Rattle.std.specs.Prelude.{◌≡◌};
ghost use Rattle.refusals.specs.Refusals.{number};

// Each with the number that the documents give it.
#[derive(Clone, Copy, PartialEq, Eq, Debug)]
pub enum Refusal {
    // the heap's length is not 64 times 1 to 256
    HeapLength = 1,
    // no live region has that name
    NoRegion = 2,
    // region 1 is permanent
    Permanent = 3,
    // 64 regions live
    RegionsFull = 4,
    // the last name was given
    NamesSpent = 5,
    // no frame, or fewer than the two that the call needs
    NoFrame = 6,
    // 32 frames stand
    FramesFull = 7,
    // a frame has 1 to 8 slots
    FrameSize = 8,
    // a slot named is not there
    NoSlot = 9,
    // 16 kinds stand
    KindsFull = 10,
    // no mark, more than 16 marks, or one above 4
    WrongMarks = 11,
    // no such kind
    NoKind = 12,
    // the object fits neither the region's newest page nor a free one
    NoRoom = 13,
    // the object slot is null
    NullSlot = 14,
    // the object has no such word
    NoWord = 15,
    // the word is data where a pointer is wanted, or the other way round
    WrongWord = 16,
    // the pointer breaks the word's mark
    BreaksMark = 17,
    // a subregion lives
    Subregion = 18,
    // an outside pointer remains
    Counted = 19,
    // the region above is at the deepest level
    Deepest = 20,
    // the heap's length is not the one made
    OtherHeap = 21,
    // no name, more than 16 names, or one twice
    WrongNames = 22,
    // the filler is above 3
    NoFiller = 23,
    // no call has that number
    NoCall = 24,
}

impl Refusal {
    pub fn number(self) -> u32
        ensures { result ≡ number self }
    {
        self as u32
    }
}

impl From<Refusal> for u32 {
    ghost from_gives = { λ r n. n ≡ number r };

    fn from(r: Refusal) -> u32 {
        r.number()
    }
}
