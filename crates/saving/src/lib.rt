// Saved forms of a sender's and a reader's state: octets that a driver keeps and loads again, also
// with a later version of this library (docs/SAVED.md). A form is known by its length. Every octet
// of a form is loaded as it is: a state out of range is refused by the calls that are given it.
#![tactic(auto)]

ghost use Rattle.std.specs.Prelude.{◌≡◌, get_or};
ghost use Rattle.saving.specs.Saved.{fits, saved_over, is_form};
ghost use Rattle.saving.specs.Saved.{sender_forms, sender_octets, sender_kept, sender_in, sender_of};
ghost use Rattle.saving.specs.Saved.{reader_forms, reader_octets, reader_kept, reader_in, reader_of};

use modes::Mode;
use numbers::BlockNumber;
use reader::Reader;
use sender::Sender;
use slots::Slot;

// Writes a form over the buffer where it has the form's length, and says whether it has.
pub fn save(octets: &[u8], saved: &mut [u8]) -> bool
    ensures { (result ≡ fits octets.now saved.old) × (saved.new ≡ saved_over octets.now saved.old) }
{
    let fits = saved.len() == octets.len();
    if fits {
        saved.copy_from_slice(octets);
    }
    fits
}

// Whether so many octets are a saved sender.
fn is_sender_form(octets: usize) -> bool
    ensures { result ≡ is_form sender_forms octets }
{
    octets == 6
}

// Whether so many octets are a saved reader.
pub fn is_reader_form(octets: usize) -> bool
    ensures { result ≡ is_form reader_forms octets }
{
    octets == 12
}

// An octet of a saved form; one that a shorter form has not is 0.
pub fn octet_of(saved: &[u8], at: usize) -> u8
    ensures { result ≡ get_or saved.now at 0 }
{
    saved.get(at).copied().unwrap_or(0)
}

// The octets of a saved sender, in order.
fn sender_octets(state: Sender) -> [u8; 6]
    ensures { result ≡ sender_octets state }
{
    [
        state.chosen,
        state.mode.audio,
        state.mode.lsd,
        state.block.0,
        state.due,
        state.remainder,
    ]
}

// One for each state, and no trait: a trait would have these functions and say no more in common.
pub fn save_sender(state: Sender, saved: &mut [u8]) -> bool
    ensures { (result ≡ fits (sender_octets state) saved.old)
        × (saved.new ≡ sender_kept state saved.old) }
{
    save(&sender_octets(state), saved)
}

// The sender of a saved sender.
fn sender_from(saved: &[u8]) -> Sender
    ensures { result ≡ sender_in saved.now }
{
    Sender {
        chosen: octet_of(saved, 0),
        mode: Mode {
            audio: octet_of(saved, 1),
            lsd: octet_of(saved, 2),
        },
        block: BlockNumber(octet_of(saved, 3)),
        due: octet_of(saved, 4),
        remainder: octet_of(saved, 5),
    }
}

// None where the octets are no saved sender.
pub fn load_sender(saved: &[u8]) -> Option<Sender>
    ensures { result ≡ sender_of saved.now }
{
    is_sender_form(saved.len()).then(|| sender_from(saved))
}

// The octets of a saved reader, in order.
pub fn reader_octets(state: Reader) -> [u8; 12]
    ensures { result ≡ reader_octets state }
{
    [
        state.mode.audio,
        state.mode.lsd,
        state.kept.audio,
        state.kept.lsd,
        state.wrong,
        state.block.0,
        state.firsts,
        state.misses,
        state.slot.kind,
        state.slot.words,
        state.before,
        state.remainder,
    ]
}

pub fn save_reader(state: Reader, saved: &mut [u8]) -> bool
    ensures { (result ≡ fits (reader_octets state) saved.old)
        × (saved.new ≡ reader_kept state saved.old) }
{
    save(&reader_octets(state), saved)
}

// The reader of a saved reader, or of what a saved walk begins with.
pub fn reader_from(saved: &[u8]) -> Reader
    ensures { result ≡ reader_in saved.now }
{
    Reader {
        mode: Mode {
            audio: octet_of(saved, 0),
            lsd: octet_of(saved, 1),
        },
        kept: Mode {
            audio: octet_of(saved, 2),
            lsd: octet_of(saved, 3),
        },
        wrong: octet_of(saved, 4),
        block: BlockNumber(octet_of(saved, 5)),
        firsts: octet_of(saved, 6),
        misses: octet_of(saved, 7),
        slot: Slot {
            kind: octet_of(saved, 8),
            words: octet_of(saved, 9),
        },
        before: octet_of(saved, 10),
        remainder: octet_of(saved, 11),
    }
}

// None where the octets are no saved reader.
pub fn load_reader(saved: &[u8]) -> Option<Reader>
    ensures { result ≡ reader_of saved.now }
{
    is_reader_form(saved.len()).then(|| reader_from(saved))
}
