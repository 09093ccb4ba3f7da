// The sender's step: state, call and buffers in; the next state and the answer out; the block written into the lent line (document 01, 'Sending a
// block'). And the same over a lent state.
#![tactic(auto)]

ghost use Rattle.buffers.specs.Buffers.{each};
ghost use Rattle.sending.specs.Step.{outcome, left_by, Told};

use control::{Call, Went};
use frame::Header;
use refusals::Refusal;
use sender::Sender;

// What a call that is accepted leaves: the next state, and what became of the offered code.
#[derive(Clone, Copy)]
pub struct Advanced {
    pub state: Sender,
    pub went: Went,
}

// The step by value: the block goes into the lent line, or the call is refused and changes nothing.
pub fn step(
    state: Sender,
    call: Call,
    voice: &[u8],
    lsd: &[u8],
    line: &mut [u8],
) -> Result<Advanced, Refusal>
    ensures { Told state call (each voice.now lsd.now) line.old (left_by state result) line.new }
{
    let decided = match control::decide(state, call, line.len(), voice.len(), lsd.len()) {
        Ok(decided) => decided,
        Err(refused) => return Err(refused.why),
    };
    let header = Header {
        a: call.a,
        e: call.e,
        t: call.t,
        block: state.block,
        remainder: state.remainder,
        code: decided.word,
    };
    frame::write_block(line, state.mode, header, call.mute, voice, lsd);
    let remainder = crc::block_crc(line);
    Ok(Advanced {
        state: Sender {
            remainder,
            ..decided.next
        },
        went: decided.went,
    })
}

// One call over a lent state: it moves on, or is as it was after a refusal.
pub fn send(
    state: &mut Sender,
    call: Call,
    voice: &[u8],
    lsd: &[u8],
    line: &mut [u8],
) -> Result<Went, Refusal>
    ensures { Told state.old call (each voice.now lsd.now) line.old (outcome state.new result) line.new }
{
    let advanced = step(*state, call, voice, lsd, line)?;
    *state = advanced.state;
    Ok(advanced.went)
}
