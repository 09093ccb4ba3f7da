// The reader's step: a lent state and a block in; the state moved on and the answer out; voice and data handed out into the lent buffers (document
// 01, 'Reading a block' and 'Refusal numbers').
#![tactic(auto)]

ghost use Rattle.std.specs.Prelude.{◌≡◌, true, length};
ghost use Rattle.buffers.specs.Buffers.{each, lengths};
ghost use Rattle.buffers.specs.Lengths.{fitting};
ghost use Rattle.reading.specs.Refusals.{ruling_of};
ghost use Rattle.reading.specs.Step.{outcome, outcome_by, handed_by, look_of, Told};

use modes::Mode;
use reader::Reader;
use refusals::Refusal;
use track::{Report, Standing};

// The ruling of a call with a block and buffers of these lengths: its rows, in their order.
#[tactic(auto, unfolding(crate::specs::Refusals::ruling_of))]
fn ruling_of(s: Reader, line: usize, voice: usize, lsd: usize) -> Result<(), Refusal>
    ensures { result ≡ ruling_of s line (each voice lsd) }
{
    let [voice_length, lsd_length] = buffers::stream_rows(voice, lsd);
    refusals::first_given(&[
        Refusal::BadState.row(!s.is_in_range()),
        buffers::line_row(line),
        voice_length,
        lsd_length,
    ])
}

// The state and the answer of a call with buffers of these lengths.
fn take(state: &mut Reader, line: &[u8], voice: usize, lsd: usize) -> Result<Report, Refusal>
    ensures { outcome state.new result ≡ outcome_by (ruling_of state.old (length line.now) (each voice lsd)) state.old line.now }
{
    ruling_of(*state, line.len(), voice, lsd)?;
    Ok(track::step(state, line))
}

// Voice and data by the mode where the block is read, and zeros where it is not.
fn hand(standing: Standing, mode: Mode, line: &[u8], voice: &mut [u8], lsd: &mut [u8])
    requires { fitting (length line.now) (lengths (each voice.old lsd.old)) ≡ true }
    ensures { each voice.new lsd.new ≡ handed_by standing mode line.now }
{
    match standing {
        Standing::Read => {
            sorter::hand_out(line, mode, voice, lsd);
        }
        Standing::Waiting | Standing::Lost => {
            voice.fill(0);
            lsd.fill(0);
        }
    }
}

// One block: the state moves on and its voice and data go into the lent buffers, or the call is refused and changes nothing.
pub fn read(
    state: &mut Reader,
    line: &[u8],
    voice: &mut [u8],
    lsd: &mut [u8],
) -> Result<Report, Refusal>
    ensures { Told state.old line.now (each voice.old lsd.old) (outcome state.new result) (each voice.new lsd.new) }
{
    let mode = state.mode;
    let report = take(state, line, voice.len(), lsd.len())?;
    hand(report.standing, mode, line, voice, lsd);
    Ok(report)
}

// One block without its streams: the state and the answer of a call whose buffers fit.
#[tactic(auto, unfolding(crate::specs::Step::look_of))]
pub fn look(state: &mut Reader, line: &[u8]) -> Result<Report, Refusal>
    ensures { outcome state.new result ≡ look_of state.old line.now }
{
    take(state, line, buffers::VOICE, buffers::LSD)
}
