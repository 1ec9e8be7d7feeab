// The stack of frames, a part of the state held by value. The functions take what they read: numbers, arrays lent, or what is lent of the part (`FramesIn`).
#![tactic(auto)]

ghost use Rattle.std.specs.Prelude.{◌≡◌, ◌+◌, ◌*◌, set, replicate};
ghost use Rattle.std.proofs.lemmas.List.Edits.{sets};
ghost use Rattle.frames.specs.Frames.{frame_count_in, top_in, width_in, slot_in, uncounts_in, counted_after};

// Frame 0 is the lowest. Slot s of frame i stands at 8 * i + s. `counted` is document 01's m: the lowest `counted` frames are counted.
#[derive(Clone, Copy)]
pub struct Frames {
    pub standing: u32,
    pub counted: u32,
    pub widths: [u8; 32],
    pub slots: [u32; 256],
}

// What is lent of the frames, for the tests and looks that only read them.
#[derive(Drop)]
pub struct FramesIn<'a> {
    pub standing: u32,
    pub widths: &'a [u8],
    pub slots: &'a [u32],
}

impl<'a> FramesIn<'a> {
    pub fn frame_count(&self) -> u32
        ensures { result ≡ frame_count_in self.now.standing }
    {
        frame_count(self.standing)
    }

    pub fn top(&self) -> u32
        ensures { result ≡ top_in self.now.standing }
    {
        top(self.standing)
    }

    pub fn width_at(&self, i: u32) -> u32
        ensures { result ≡ width_in self.now.widths.now i }
    {
        cells::get(self.widths, i as usize)
    }

    pub fn slot_at(&self, i: u32, s: u32) -> u32
        ensures { result ≡ slot_in self.now.slots.now i s }
    {
        cells::get(self.slots, 8 * (i as usize) + (s as usize))
    }
}

pub fn frame_count(standing: u32) -> u32
    ensures { result ≡ frame_count_in standing }
{
    standing.min(32)
}

pub fn top(standing: u32) -> u32
    ensures { result ≡ top_in standing }
{
    standing.saturating_sub(1)
}

pub fn put_slot(slots: &mut [u32; 256], i: u32, s: u32, v: u32)
    ensures { slots.new ≡ set slots.old (8 * i + s) v }
{
    cells::put(slots, 8 * (i as usize) + (s as usize), v);
}

// All eight places of frame i are null.
pub fn null_frame(slots: &mut [u32; 256], i: u32)
    ensures { slots.new ≡ sets slots.old (8 * i) (replicate 8 0) }
{
    cells::zero(slots, 8 * (i as usize), 8);
}

// Whether the frame on top once a frame has gone was counted.
pub fn uncounts(standing: u32, counted: u32) -> bool
    ensures { result ≡ uncounts_in standing counted }
{
    let t = top(standing);
    0 < t && t <= counted
}

// m once a frame has gone.
pub fn counted_after(standing: u32, counted: u32) -> u32
    ensures { result ≡ counted_after standing counted }
{
    if uncounts(standing, counted) {
        return counted.saturating_sub(1);
    }
    counted
}
