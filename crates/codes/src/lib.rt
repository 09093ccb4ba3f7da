// Codes: which are carried, what a code makes of the words after it, and what it does to a mode as
// a command (document 01, 'Slots', 'Sending a block' and 'Reading a block').
#![tactic(auto)]

ghost use Rattle.std.specs.Prelude.{◌≡◌, ◌&&◌, eqb};
ghost use Rattle.table.specs.Table.{listed_audio, listed_lsd};
ghost use Rattle.codes.specs.Codes.{attribute, value, audio_attribute, lsd_attribute};
ghost use Rattle.codes.specs.Carried.{carried, sender_carries, reader_carries, opening_of};
ghost use Rattle.codes.specs.Commands.{command_of, offered, followed};

use modes::{Mode, Owner};

// What a code makes of the words after it.
#[derive(Clone, Copy, Debug, PartialEq, Eq)]
pub enum Opening {
    Nothing,
    Item,
    Message,
}

// What a code is as a command.
#[derive(Clone, Copy, Debug, PartialEq, Eq)]
pub enum Command {
    Neutral,
    SetAudio(u8),
    SetLsd(u8),
    NoEffect,
}

// Whether a code is one of the audio codes of 01's list, or of its data codes. A table is laid out
// anew where it is read, so it is read only for a code that it can list.
fn is_audio(code: u8) -> bool
    ensures { result ≡ (eqb (attribute code) audio_attribute && listed_audio (value code)) }
{
    code / 32 == 0 && table::audio_listed(code % 32).is_some()
}

fn is_lsd(code: u8) -> bool
    ensures { result ≡ (eqb (attribute code) lsd_attribute && listed_lsd (value code)) }
{
    code / 32 == 3 && table::lsd_listed(code % 32).is_some()
}

// Whether a code is carried when plain.
#[tactic(auto, unfolding(crate::specs::Carried::carried))]
fn is_carried(code: u8) -> bool
    ensures { result ≡ carried code }
{
    let attribute = code / 32;
    let value = code % 32;
    is_audio(code)
        || is_lsd(code)
        || code == 32
        || (4..=6).contains(&attribute)
        || attribute == 7 && ((15..=20).contains(&value) || value == 24)
}

// Whether the sender carries a code when plain; whether the reader does. Two functions, for the two
// lists are two rules that agree today (DECISIONS F7), and either may change without the other.
#[tactic(auto, unfolding(crate::specs::Carried::sender_carries))]
pub fn sender_carries(code: u8) -> bool
    ensures { result ≡ sender_carries code }
{
    is_carried(code)
}

#[tactic(auto, unfolding(crate::specs::Carried::reader_carries))]
pub fn reader_carries(code: u8) -> bool
    ensures { result ≡ reader_carries code }
{
    is_carried(code)
}

// What a code makes of the words after it.
#[tactic(auto, unfolding(crate::specs::Carried::opening_of))]
pub fn opening_of(code: u8) -> Opening
    ensures { result ≡ opening_of code }
{
    match (code / 32, code % 32) {
        (7, 0..=23) => Opening::Item,
        (7, 25..=31) => Opening::Message,
        _ => Opening::Nothing,
    }
}

// What a code is as a command.
#[tactic(auto, unfolding(crate::specs::Commands::command_of))]
pub fn command_of(code: u8) -> Command
    ensures { result ≡ command_of code }
{
    if code == 0 {
        Command::Neutral
    } else if is_audio(code) {
        Command::SetAudio(code % 32)
    } else if is_lsd(code) {
        Command::SetLsd(code % 32)
    } else {
        Command::NoEffect
    }
}

impl Command {
    // The mode that a command of the sender leaves.
    #[tactic(auto, unfolding(crate::specs::Commands::offered))]
    pub fn offer(self, mode: Mode) -> Mode
        ensures { result ≡ offered self mode }
    {
        match self {
            Command::Neutral => Mode::off(),
            Command::SetAudio(v) => mode.with_audio(v),
            Command::SetLsd(v) => mode.with_lsd(v),
            Command::NoEffect => mode,
        }
    }

    // The mode that a command leaves at the reader, where each other stream that it overlaps is
    // turned off.
    #[tactic(auto, unfolding(crate::specs::Commands::offered, crate::specs::Commands::followed, modes::specs::Modes::cleared))]
    pub fn follow(self, mode: Mode) -> Mode
        ensures { result ≡ followed self mode }
    {
        let next = self.offer(mode);
        match self {
            Command::SetAudio(_) => next.given_way(Owner::Voice, Owner::Lsd),
            Command::SetLsd(_) => next.given_way(Owner::Lsd, Owner::Voice),
            Command::Neutral | Command::NoEffect => next,
        }
    }
}
