// What a card driver in C calls, as a library: `card_c` exports these functions to C under the same
// names. States are lent, answers are numbers (1 and 0 for a bool, since the exported types stay),
// and no call asks anything of its numbers and lengths: each of them is answered.
#![tactic(auto)]

ghost use Rattle.std.specs.Prelude.{◌≡◌};
ghost use Rattle.buffers.specs.Buffers.{each};
ghost use Rattle.modes.specs.Modes.{audio_off, off};
ghost use Rattle.search.specs.Finding.{search_of};
ghost use Rattle.sender.specs.State.{fresh_with};
ghost use Rattle.reader.specs.State.{fresh_in};
ghost use Rattle.text.specs.Over.{Written};
ghost use Rattle.scribe.specs.Listing.{listing_of};
ghost use Rattle.answers.specs.Answers.{search_answer_of};
ghost use Rattle.calls.specs.Sending.{call_of};
ghost use Rattle.calls.specs.Walking.{walk_from};
ghost use Rattle.presetting.specs.Presetting.{preset_given};
ghost use Rattle.saving.specs.Saved.{loaded_over};
ghost use Rattle.saving.specs.Saved.{sender_saved, sender_kept, sender_loaded};
ghost use Rattle.saving.specs.Saved.{reader_saved, reader_kept, reader_loaded};
ghost use Rattle.keeping.specs.SavedWalk.{walk_saved, walk_kept, walk_loaded};
ghost use Rattle.asking.specs.Asked.{library, fits_version, sender_told, reader_told, counts_of, code_told};
ghost use Rattle.card.specs.Told.{SendTold, ReadTold, StepTold, PresetTold};

use answers::{ReadAnswer, SearchAnswer, SendAnswer, StepAnswer};
use asking::{CodeTold, Counts, Library, ReaderTold, SenderTold};
use keeping::WalkState;
use modes::Mode;
use presetting::{PresetAnswer, PresetBits};
use reader::Reader;
use sender::Sender;

// Which library this is.
pub fn delampuk_about() -> Library
    ensures { result ≡ library }
{
    asking::about()
}

// Whether a driver that was compiled for a version can call this library.
pub fn delampuk_fits(version: u32) -> u8
    ensures { result ≡ fits_version version }
{
    u8::from(asking::fits(version))
}

// The lent state becomes the one that was loaded: 1. Where none was, it stays as it is: 0.
fn load<T: Copy + Drop>(state: &mut T, loaded: Option<T>) -> u8
    ensures { (result ≡ (loaded_over state.old loaded).answer)
        × (state.new ≡ (loaded_over state.old loaded).state) }
{
    *state = loaded.unwrap_or(*state);
    u8::from(loaded.is_some())
}

// ---- sending

// The state that a sender starts in.
pub fn delampuk_start_sender(state: &mut Sender)
    ensures { state.new ≡ fresh_with audio_off }
{
    *state = Sender::fresh();
}

// One sending call: the state is advanced, or untouched after a refusal.
pub fn delampuk_send(
    state: &mut Sender,
    mute: u8,
    code: u8,
    a: u8,
    e: u8,
    t: u8,
    voice: &[u8],
    lsd: &[u8],
    line: &mut [u8],
) -> SendAnswer
    ensures { SendTold state.old (call_of mute code a e t) (each voice.now lsd.now) line.old result state.new line.new }
{
    calls::send_step(state, mute, code, a, e, t, voice, lsd, line)
}

// What a sender has in force, chosen and due.
pub fn delampuk_tell_sender(state: &Sender) -> SenderTold
    ensures { result ≡ sender_told state.now }
{
    SenderTold::from(*state)
}

// A sender's saved form, and a sender from one.
pub fn delampuk_save_sender(state: &Sender, saved: &mut [u8]) -> u8
    ensures { (result ≡ sender_saved state.now saved.old)
        × (saved.new ≡ sender_kept state.now saved.old) }
{
    u8::from(saving::save_sender(*state, saved))
}

pub fn delampuk_load_sender(state: &mut Sender, saved: &[u8]) -> u8
    ensures { (result ≡ (sender_loaded state.old saved.now).answer)
        × (state.new ≡ (sender_loaded state.old saved.now).state) }
{
    load(state, saving::load_sender(saved))
}

// A preset's state to start from, and the data code to offer; or a refusal, and the state as it was.
pub fn delampuk_read_preset(state: &mut Sender, bits: u16) -> PresetAnswer
    ensures { PresetTold state.old bits result state.new }
{
    presetting::preset_step(state, bits)
}

// A state's chosen audio and data in force, as a preset.
pub fn delampuk_write_preset(state: &Sender) -> PresetBits
    ensures { result ≡ preset_given state.now }
{
    presetting::preset_of(*state)
}

// ---- reading

// The state that a reader starts in.
pub fn delampuk_start_reader(state: &mut Reader)
    ensures { state.new ≡ fresh_in off }
{
    *state = Reader::fresh();
}

// One block read: the state is advanced, or untouched after a refusal.
pub fn delampuk_read(
    state: &mut Reader,
    line: &[u8],
    voice: &mut [u8],
    lsd: &mut [u8],
) -> ReadAnswer
    ensures { ReadTold state.old line.now (each voice.old lsd.old) result state.new (each voice.new lsd.new) }
{
    calls::read_step(state, line, voice, lsd)
}

// What a reader has in force and due, and its place.
pub fn delampuk_tell_reader(state: &Reader) -> ReaderTold
    ensures { result ≡ reader_told state.now }
{
    ReaderTold::from(*state)
}

// A reader's saved form, and a reader from one.
pub fn delampuk_save_reader(state: &Reader, saved: &mut [u8]) -> u8
    ensures { (result ≡ reader_saved state.now saved.old)
        × (saved.new ≡ reader_kept state.now saved.old) }
{
    u8::from(saving::save_reader(*state, saved))
}

pub fn delampuk_load_reader(state: &mut Reader, saved: &[u8]) -> u8
    ensures { (result ≡ (reader_loaded state.old saved.now).answer)
        × (state.new ≡ (reader_loaded state.old saved.now).state) }
{
    load(state, saving::load_reader(saved))
}

// ---- recordings

// The smallest place from the start on where alignment stands.
pub fn delampuk_search(recording: &[u8], start: usize) -> SearchAnswer
    ensures { result ≡ search_answer_of (search_of recording.now start) }
{
    SearchAnswer::from(search::search(recording, start))
}

// A walk that begins at a place, with a fresh reader.
pub fn delampuk_start_walk(state: &mut WalkState, place: usize)
    ensures { state.new ≡ walk_from place }
{
    *state = calls::walk_from(place);
}

// One step of a walk: it is moved on, or untouched after a refusal.
pub fn delampuk_step(
    state: &mut WalkState,
    recording: &[u8],
    voice: &mut [u8],
    lsd: &mut [u8],
) -> StepAnswer
    ensures { StepTold state.old recording.now (each voice.old lsd.old) result state.new (each voice.new lsd.new) }
{
    calls::walk_step(state, recording, voice, lsd)
}

// A walk's saved form, and a walk from one. The recording is not among it.
pub fn delampuk_save_walk(state: &WalkState, saved: &mut [u8]) -> u8
    ensures { (result ≡ walk_saved state.now saved.old)
        × (saved.new ≡ walk_kept state.now saved.old) }
{
    u8::from(keeping::save_walk(*state, saved))
}

pub fn delampuk_load_walk(state: &mut WalkState, saved: &[u8]) -> u8
    ensures { (result ≡ (walk_loaded state.old saved.now).answer)
        × (state.new ≡ (walk_loaded state.old saved.now).state) }
{
    load(state, keeping::load_walk(saved))
}

// The listing of a recording as text, and how long it is: the text's length and one more where it does not fit, and then what fits is
// written.
pub fn delampuk_list(recording: &[u8], text: &mut [u8]) -> usize
    ensures { Written 0 (listing_of recording.now) text.old result text.new }
{
    scribe::list(recording, text)
}

// ---- what a driver can ask

// How many octets of a voice buffer and how many bits of a data buffer count under a mode.
pub fn delampuk_count(mode: Mode) -> Counts
    ensures { result ≡ counts_of mode }
{
    Counts::from(mode)
}

// What a code is, and the places that it gives to a stream.
pub fn delampuk_explain(code: u8) -> CodeTold
    ensures { result ≡ code_told code }
{
    asking::code_told(code)
}
