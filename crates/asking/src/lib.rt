// What a driver can ask: which library this is, what a state has in force and due, how much of its
// buffers counts, and what a code is (document 01, 'Codes and bit places' and 'Slots'). Every state,
// mode and code is answered, in range or not.
#![tactic(auto)]

ghost use Rattle.std.specs.Prelude.{◌≡◌};
ghost use Rattle.asking.specs.Asked.{library, is_this_version, sender_told, reader_told};
ghost use Rattle.asking.specs.Asked.{counts_of, code_kind, code_places, code_told};

use codes::{Command, Opening};
use modes::{Mode, Owner};
use numbers::BlockNumber;
use reader::Reader;
use sender::Sender;
use slots::{Due, Slot};
use table::Places;

// Which library this is: its version as a number, and how many octets each state has.
#[repr(C)]
#[derive(Clone, Copy, Debug, PartialEq, Eq)]
pub struct Library {
    pub version: u32,
    pub sender: u16,
    pub reader: u16,
    pub walk: u16,
    pub reserved: u16,
}

// A sender: what is in force, the chosen audio, and which word is due, by the kinds of a slot.
#[repr(C)]
#[derive(Clone, Copy, Debug, PartialEq, Eq)]
pub struct SenderTold {
    pub mode: Mode,
    pub chosen: u8,
    pub due: u8,
}

// A reader: what is in force, the next block's number, 0 where it is unknown, which word is due, and
// the words of a message that are left.
#[repr(C)]
#[derive(Clone, Copy, Debug, PartialEq, Eq)]
pub struct ReaderTold {
    pub mode: Mode,
    pub block: BlockNumber,
    pub due: u8,
    pub words: u8,
}

// How many octets of a voice buffer count, and how many bits of a data buffer.
#[repr(C)]
#[derive(Clone, Copy, Debug, PartialEq, Eq)]
pub struct Counts {
    pub voice: u16,
    pub lsd: u16,
}

// A code: its kind, whether a sender carries it as a plain word, and the places that it gives to a
// stream: octet bits, and SC octets. Kind 0 is none of the others, 1 neutral, 2 audio, 3 data, 4 an
// escape, and 5 opens a message.
#[repr(C)]
#[derive(Clone, Copy, Debug, PartialEq, Eq)]
pub struct CodeTold {
    pub kind: u8,
    pub carried: u8,
    pub first_bit: u8,
    pub last_bit: u8,
    pub first_sc: u8,
    pub last_sc: u8,
}

// Version 0.2.0, as 10,000 for each major, 100 for each minor and 1 for each patch.
const VERSION: u32 = 200;

pub fn about() -> Library
    ensures { result ≡ library }
{
    Library {
        version: VERSION,
        sender: 6,
        reader: 12,
        walk: 24,
        reserved: 0,
    }
}

// Whether a driver that was compiled for a version can call this library.
pub fn fits(version: u32) -> bool
    ensures { result ≡ is_this_version version }
{
    version == VERSION
}

// What a sender has in force, chosen and due.
impl From<Sender> for SenderTold {
    ghost from_gives = { λ state told. told ≡ sender_told state };

    fn from(state: Sender) -> SenderTold {
        SenderTold {
            mode: state.mode,
            chosen: state.chosen,
            due: Slot::from(state.word_due()).kind,
        }
    }
}

// What a reader has in force and due, and its place.
impl From<Reader> for ReaderTold {
    ghost from_gives = { λ state told. told ≡ reader_told state };

    fn from(state: Reader) -> ReaderTold {
        let slot = Slot::from(Due::from(state.slot).now());
        ReaderTold {
            mode: state.mode,
            block: state.block,
            due: slot.kind,
            words: slot.words,
        }
    }
}

// How much of the buffers counts under a mode: two frames a block, eight bits an octet.
impl From<Mode> for Counts {
    ghost from_gives = { λ mode counts. counts ≡ counts_of mode };

    fn from(mode: Mode) -> Counts {
        let voice = mode.bits_per_frame(Owner::Voice);
        let lsd = mode.bits_per_frame(Owner::Lsd);
        Counts {
            voice: 2 * voice / 8,
            lsd: 2 * lsd,
        }
    }
}

fn kind_of(command: Command, opening: Opening) -> u8
    ensures { result ≡ code_kind command opening }
{
    match (command, opening) {
        (Command::Neutral, _) => 1,
        (Command::SetAudio(_), _) => 2,
        (Command::SetLsd(_), _) => 3,
        (Command::NoEffect, Opening::Nothing) => 0,
        (Command::NoEffect, Opening::Item) => 4,
        (Command::NoEffect, Opening::Message) => 5,
    }
}

// The places that a command gives to its stream. Audio [0] holds none, and so does every other code.
fn places_of(command: Command) -> Places
    ensures { result ≡ code_places command }
{
    match command {
        Command::SetAudio(v) => table::audio_places(v),
        Command::SetLsd(v) => table::lsd_places(v),
        Command::Neutral | Command::NoEffect => table::audio_places(0),
    }
}

// What a code is, and the places that it gives to a stream.
pub fn code_told(code: u8) -> CodeTold
    ensures { result ≡ code_told code }
{
    let command = codes::command_of(code);
    let places = places_of(command);
    CodeTold {
        kind: kind_of(command, codes::opening_of(code)),
        carried: u8::from(codes::sender_carries(code)),
        first_bit: places.from,
        last_bit: places.to,
        first_sc: places.first.0,
        last_sc: places.last.0,
    }
}
