// What a reader keeps between blocks, when that is in range, and the state that it starts in (document 01, 'Reading a block').
#![tactic(auto)]

ghost use Rattle.std.specs.Prelude.{◌≡◌, ◌&&◌};
ghost use Rattle.modes.specs.Modes.{off, in_range};
ghost use Rattle.reader.specs.State.{known, state_in_range, fresh_in};

use modes::Mode;
use numbers::BlockNumber;
use slots::{Due, Slot};

// What a reader keeps between blocks: the mode in force; the mode before the first of a run of wrong alignment words, and that run; the
// number of the next block, 0 while it is unknown; the odd-frame first bits since alignment, of which the last six count, as a number;
// the run of wrong patterns; what is due; whether there is a block before, and its remainder (DECISIONS F19). Laid out as in C for a card
// driver.
#[repr(C)]
#[derive(Clone, Copy, Debug, PartialEq, Eq)]
pub struct Reader {
    pub mode: Mode,
    pub kept: Mode,
    pub wrong: u8,
    pub block: BlockNumber,
    pub firsts: u8,
    pub misses: u8,
    pub slot: Slot,
    pub before: u8,
    pub remainder: u8,
}

// Whether both modes of a state are in range. They are mostly one, which is then judged once.
fn modes_in_range(mode: Mode, kept: Mode) -> bool
    ensures { result ≡ (in_range mode && in_range kept) }
{
    let first = mode.is_in_range();
    if kept == mode {
        return first;
    }
    first & kept.is_in_range()
}

impl Reader {
    // The state that a reader starts in, but for the mode.
    pub fn fresh_in(mode: Mode) -> Reader
        ensures { result ≡ fresh_in mode }
    {
        Reader {
            mode,
            kept: mode,
            wrong: 0,
            block: BlockNumber(0),
            firsts: 63,
            misses: 0,
            slot: Slot::from(Due::Plain),
            before: 0,
            remainder: 0,
        }
    }

    // The state that a reader starts in.
    pub fn fresh() -> Reader
        ensures { result ≡ fresh_in off }
    {
        Reader::fresh_in(Mode::off())
    }

    // Whether the number of the next block is known.
    pub fn is_known(self) -> bool
        ensures { result ≡ known self }
    {
        self.block.0 != 0
    }

    // Whether the state is in range.
    #[tactic(auto, unfolding(crate::specs::State::state_in_range))]
    pub fn is_in_range(self) -> bool
        ensures { result ≡ state_in_range self }
    {
        modes_in_range(self.mode, self.kept)
            & (self.wrong <= 2)
            & (self.misses <= 2)
            & (self.remainder <= 15)
            & (self.block.0 <= 8)
    }
}
