// Each call of a card driver over a lent state, in the numbers that cross to C. No call asks anything
// of its numbers and lengths: each of them is answered.
#![tactic(auto)]

ghost use Rattle.std.specs.Prelude.{◌≡◌};
ghost use Rattle.buffers.specs.Buffers.{each};
ghost use Rattle.sending.specs.Step.{line_of};
ghost use Rattle.reading.specs.Step.{buffers_of};
ghost use Rattle.calls.specs.Sending.{on, call_of, send_stepped, sent};
ghost use Rattle.calls.specs.Reading.{read_stepped, read_taken};
ghost use Rattle.calls.specs.Walking.{mark_after, walk_from, walk_stepped, step_taken, step_buffers};

use answers::{ReadAnswer, SendAnswer, StepAnswer};
use control::Call;
use keeping::WalkState;
use reader::Reader;
use recording::Stand;
use sender::Sender;

// A switch of C. It is an octet, for a bool that holds neither 0 nor 1 is undefined in C, and here
// every octet is answered (DECISIONS F30).
fn is_on(switch: u8) -> bool
    ensures { result ≡ on switch }
{
    switch != 0
}

// One sending call: the state is advanced, or untouched after a refusal.
#[tactic(auto, unfolding(crate::specs::Sending::sent))]
pub fn send_step(
    state: &mut Sender,
    mute: u8,
    code: u8,
    a: u8,
    e: u8,
    t: u8,
    voice: &[u8],
    lsd: &[u8],
    line: &mut [u8],
) -> SendAnswer
    ensures { (send_stepped state.new result ≡ sent state.old (call_of mute code a e t) (each voice.now lsd.now) line.old)
        × (line.new ≡ line_of state.old (call_of mute code a e t) (each voice.now lsd.now) line.old) }
{
    let call = Call {
        mute: is_on(mute),
        code,
        a: is_on(a),
        e: is_on(e),
        t: is_on(t),
    };
    SendAnswer::from(sending::send(state, call, voice, lsd, line))
}

// One block read: the state is advanced, or untouched after a refusal.
pub fn read_step(state: &mut Reader, line: &[u8], voice: &mut [u8], lsd: &mut [u8]) -> ReadAnswer
    ensures { (read_stepped state.new result ≡ read_taken state.old line.now (each voice.old lsd.old))
        × (each voice.new lsd.new ≡ buffers_of state.old line.now (each voice.old lsd.old)) }
{
    ReadAnswer::from(reading::read(state, line, voice, lsd))
}

// A walk that begins at a place, with a fresh reader.
pub fn walk_from(place: usize) -> WalkState
    ensures { result ≡ walk_from place }
{
    WalkState {
        place,
        reader: Reader::fresh(),
        lost: 0,
        reserved: [0; 3],
    }
}

// A mark that stays set keeps its number, so that a refused step gives it back as it was.
fn mark_after(mark: u8, set: bool) -> u8
    ensures { result ≡ mark_after mark set }
{
    match (set, mark) {
        (false, _) => 0,
        (true, 0) => 1,
        (true, kept) => kept,
    }
}

// One step of a walk over a recording: it is moved on, or untouched after a refusal.
pub fn walk_step(
    state: &mut WalkState,
    recording: &[u8],
    voice: &mut [u8],
    lsd: &mut [u8],
) -> StepAnswer
    ensures { (walk_stepped state.new result ≡ step_taken state.old recording.now (each voice.old lsd.old))
        × (each voice.new lsd.new ≡ step_buffers state.old recording.now (each voice.old lsd.old)) }
{
    let mut stand = Stand {
        place: state.place,
        lost: is_on(state.lost),
    };
    let answer = walk::step_from(recording, &mut stand, &mut state.reader, voice, lsd);
    state.place = stand.place;
    state.lost = mark_after(state.lost, stand.lost);
    StepAnswer::from(answer)
}
