// The exports to C: each calls the function of `card` of the same name and states its clauses again (`card` says what each does). A crate is a
// library or a static library, and `promises` stands on `card` as a library. tools/boundary holds the clauses here to those there.
#![tactic(auto)]

ghost use Rattle.std.specs.Prelude.{◌≡◌};
ghost use Rattle.buffers.specs.Buffers.{each};
ghost use Rattle.modes.specs.Modes.{audio_off, off};
ghost use Rattle.search.specs.Finding.{search_of};
ghost use Rattle.sender.specs.State.{fresh_with};
ghost use Rattle.reader.specs.State.{fresh_in};
ghost use Rattle.text.specs.Over.{Written};
ghost use Rattle.scribe.specs.Listing.{listing_of};
ghost use Rattle.answers.specs.Answers.{search_answer_of};
ghost use Rattle.calls.specs.Sending.{call_of};
ghost use Rattle.calls.specs.Walking.{walk_from};
ghost use Rattle.presetting.specs.Presetting.{preset_given};
ghost use Rattle.saving.specs.Saved.{sender_saved, sender_kept, sender_loaded, reader_saved, reader_kept, reader_loaded};
ghost use Rattle.keeping.specs.SavedWalk.{walk_saved, walk_kept, walk_loaded};
ghost use Rattle.asking.specs.Asked.{library, fits_version, sender_told, reader_told, counts_of, code_told};
ghost use Rattle.card.specs.Told.{SendTold, ReadTold, StepTold, PresetTold};

use answers::{ReadAnswer, SearchAnswer, SendAnswer, StepAnswer};
use asking::{CodeTold, Counts, Library, ReaderTold, SenderTold};
use keeping::WalkState;
use modes::Mode;
use presetting::{PresetAnswer, PresetBits};
use reader::Reader;
use sender::Sender;

#[unsafe(no_mangle)]
pub extern "C" fn delampuk_about() -> Library
    ensures { result ≡ library }
{
    card::delampuk_about()
}

#[unsafe(no_mangle)]
pub extern "C" fn delampuk_fits(version: u32) -> u8
    ensures { result ≡ fits_version version }
{
    card::delampuk_fits(version)
}

// ---- sending

#[unsafe(no_mangle)]
pub extern "C" fn delampuk_start_sender(state: &mut Sender)
    ensures { state.new ≡ fresh_with audio_off }
{
    card::delampuk_start_sender(state);
}

#[unsafe(no_mangle)]
pub extern "C" fn delampuk_send(
    state: &mut Sender,
    mute: u8,
    code: u8,
    a: u8,
    e: u8,
    t: u8,
    voice: &[u8],
    lsd: &[u8],
    line: &mut [u8],
) -> SendAnswer
    ensures { SendTold state.old (call_of mute code a e t) (each voice.now lsd.now) line.old result state.new line.new }
{
    card::delampuk_send(state, mute, code, a, e, t, voice, lsd, line)
}

#[unsafe(no_mangle)]
pub extern "C" fn delampuk_tell_sender(state: &Sender) -> SenderTold
    ensures { result ≡ sender_told state.now }
{
    card::delampuk_tell_sender(state)
}

#[unsafe(no_mangle)]
pub extern "C" fn delampuk_save_sender(state: &Sender, saved: &mut [u8]) -> u8
    ensures { (result ≡ sender_saved state.now saved.old)
        × (saved.new ≡ sender_kept state.now saved.old) }
{
    card::delampuk_save_sender(state, saved)
}

#[unsafe(no_mangle)]
pub extern "C" fn delampuk_load_sender(state: &mut Sender, saved: &[u8]) -> u8
    ensures { (result ≡ (sender_loaded state.old saved.now).answer)
        × (state.new ≡ (sender_loaded state.old saved.now).state) }
{
    card::delampuk_load_sender(state, saved)
}

#[unsafe(no_mangle)]
pub extern "C" fn delampuk_read_preset(state: &mut Sender, bits: u16) -> PresetAnswer
    ensures { PresetTold state.old bits result state.new }
{
    card::delampuk_read_preset(state, bits)
}

#[unsafe(no_mangle)]
pub extern "C" fn delampuk_write_preset(state: &Sender) -> PresetBits
    ensures { result ≡ preset_given state.now }
{
    card::delampuk_write_preset(state)
}

// ---- reading

#[unsafe(no_mangle)]
pub extern "C" fn delampuk_start_reader(state: &mut Reader)
    ensures { state.new ≡ fresh_in off }
{
    card::delampuk_start_reader(state);
}

#[unsafe(no_mangle)]
pub extern "C" fn delampuk_read(
    state: &mut Reader,
    line: &[u8],
    voice: &mut [u8],
    lsd: &mut [u8],
) -> ReadAnswer
    ensures { ReadTold state.old line.now (each voice.old lsd.old) result state.new (each voice.new lsd.new) }
{
    card::delampuk_read(state, line, voice, lsd)
}

#[unsafe(no_mangle)]
pub extern "C" fn delampuk_tell_reader(state: &Reader) -> ReaderTold
    ensures { result ≡ reader_told state.now }
{
    card::delampuk_tell_reader(state)
}

#[unsafe(no_mangle)]
pub extern "C" fn delampuk_save_reader(state: &Reader, saved: &mut [u8]) -> u8
    ensures { (result ≡ reader_saved state.now saved.old)
        × (saved.new ≡ reader_kept state.now saved.old) }
{
    card::delampuk_save_reader(state, saved)
}

#[unsafe(no_mangle)]
pub extern "C" fn delampuk_load_reader(state: &mut Reader, saved: &[u8]) -> u8
    ensures { (result ≡ (reader_loaded state.old saved.now).answer)
        × (state.new ≡ (reader_loaded state.old saved.now).state) }
{
    card::delampuk_load_reader(state, saved)
}

// ---- recordings

#[unsafe(no_mangle)]
pub extern "C" fn delampuk_search(recording: &[u8], start: usize) -> SearchAnswer
    ensures { result ≡ search_answer_of (search_of recording.now start) }
{
    card::delampuk_search(recording, start)
}

#[unsafe(no_mangle)]
pub extern "C" fn delampuk_start_walk(state: &mut WalkState, place: usize)
    ensures { state.new ≡ walk_from place }
{
    card::delampuk_start_walk(state, place);
}

#[unsafe(no_mangle)]
pub extern "C" fn delampuk_step(
    state: &mut WalkState,
    recording: &[u8],
    voice: &mut [u8],
    lsd: &mut [u8],
) -> StepAnswer
    ensures { StepTold state.old recording.now (each voice.old lsd.old) result state.new (each voice.new lsd.new) }
{
    card::delampuk_step(state, recording, voice, lsd)
}

#[unsafe(no_mangle)]
pub extern "C" fn delampuk_save_walk(state: &WalkState, saved: &mut [u8]) -> u8
    ensures { (result ≡ walk_saved state.now saved.old)
        × (saved.new ≡ walk_kept state.now saved.old) }
{
    card::delampuk_save_walk(state, saved)
}

#[unsafe(no_mangle)]
pub extern "C" fn delampuk_load_walk(state: &mut WalkState, saved: &[u8]) -> u8
    ensures { (result ≡ (walk_loaded state.old saved.now).answer)
        × (state.new ≡ (walk_loaded state.old saved.now).state) }
{
    card::delampuk_load_walk(state, saved)
}

#[unsafe(no_mangle)]
pub extern "C" fn delampuk_list(recording: &[u8], text: &mut [u8]) -> usize
    ensures { Written 0 (listing_of recording.now) text.old result text.new }
{
    card::delampuk_list(recording, text)
}

// ---- what a driver can ask

#[unsafe(no_mangle)]
pub extern "C" fn delampuk_count(mode: Mode) -> Counts
    ensures { result ≡ counts_of mode }
{
    card::delampuk_count(mode)
}

#[unsafe(no_mangle)]
pub extern "C" fn delampuk_explain(code: u8) -> CodeTold
    ensures { result ≡ code_told code }
{
    card::delampuk_explain(code)
}
