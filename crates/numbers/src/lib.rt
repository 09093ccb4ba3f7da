// Frames, blocks and octets by number (document 01, 'What the unit carries').
#![tactic(auto)]

ghost use Rattle.std.specs.Prelude.{◌≡◌};
ghost use Rattle.numbers.specs.Numbers.{even_frame, odd_frame, following};

// The three numbers that are counted apart: a frame of a multiframe, 0 to 15; a block of it, 1 to
// 8; an octet of a frame, 1 to 80.
#[derive(Clone, Copy, Debug, PartialEq, Eq)]
pub struct FrameNumber(pub u8);

// Laid out as in C, as all that a state holds: states cross to a card driver as they stand.
#[repr(C)]
#[derive(Clone, Copy, Debug, PartialEq, Eq)]
pub struct BlockNumber(pub u8);

#[derive(Clone, Copy, Debug, PartialEq, Eq)]
pub struct OctetNumber(pub u8);

impl BlockNumber {
    // The even frame of a block, and the odd one. Block 0, which is none, is taken as block 1.
    #[tactic(auto, unfolding(crate::specs::Numbers::even_frame))]
    pub fn even_frame(self) -> FrameNumber
        ensures { result ≡ even_frame self }
    {
        FrameNumber(self.0.saturating_sub(1) % 8 * 2)
    }

    #[tactic(auto, unfolding(crate::specs::Numbers::even_frame, crate::specs::Numbers::odd_frame))]
    pub fn odd_frame(self) -> FrameNumber
        ensures { result ≡ odd_frame self }
    {
        FrameNumber(self.even_frame().0 + 1)
    }

    // The block after a block.
    #[tactic(auto, unfolding(crate::specs::Numbers::following))]
    pub fn next(self) -> BlockNumber
        ensures { result ≡ following self }
    {
        if self.0 < 8 {
            BlockNumber(self.0 + 1)
        } else {
            BlockNumber(1)
        }
    }
}
