// What a sender keeps between blocks, when that is in range, and the state that a session starts in (document 01, 'Sending a block').
#![tactic(auto)]

ghost use Rattle.std.specs.Prelude.{◌≡◌};
ghost use Rattle.modes.specs.Modes.{audio_off};
ghost use Rattle.sender.specs.State.{word_due, chosen_mode, state_in_range, fresh_with};

use modes::{AUDIO_OFF, Mode};
use numbers::BlockNumber;
use slots::Due;

// What a sender keeps between blocks, laid out as in C for a card driver. The chosen audio stands apart from the audio in force; `due` is
// 0, or an item is due (DECISIONS F46): a number and no enum, for a state crosses to C as it stands.
#[repr(C)]
#[derive(Clone, Copy, Debug, PartialEq, Eq)]
pub struct Sender {
    pub chosen: u8,
    pub mode: Mode,
    pub block: BlockNumber,
    pub due: u8,
    pub remainder: u8,
}

impl Sender {
    // The state that a session starts in, but for the chosen audio.
    pub fn fresh_with(audio: u8) -> Sender
        ensures { result ≡ fresh_with audio }
    {
        Sender {
            chosen: audio,
            mode: Mode::off(),
            block: BlockNumber(1),
            due: 0,
            remainder: 0,
        }
    }

    // The state that a session starts in.
    pub fn fresh() -> Sender
        ensures { result ≡ fresh_with audio_off }
    {
        Sender::fresh_with(AUDIO_OFF)
    }

    // The word that is due. A sender opens no message.
    pub fn word_due(self) -> Due
        ensures { result ≡ word_due self }
    {
        if self.due == 0 {
            Due::Plain
        } else {
            Due::AnItem
        }
    }

    // The mode that is chosen: that in force, with the chosen audio.
    pub fn chosen_mode(self) -> Mode
        ensures { result ≡ chosen_mode self }
    {
        self.mode.with_audio(self.chosen)
    }

    // Whether the state is in range.
    #[tactic(auto, unfolding(crate::specs::State::state_in_range))]
    pub fn is_in_range(self) -> bool
        ensures { result ≡ state_in_range self }
    {
        self.chosen_mode().is_in_range()
            & ((self.mode.audio == AUDIO_OFF) | (self.mode.audio == self.chosen))
            & (1..=8).contains(&self.block.0)
            & (self.remainder <= 15)
    }
}
