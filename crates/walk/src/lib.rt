// A walk over a recording (document 01, 'Finding alignment' and 'How to write each place'): it keeps the lent recording and its place
// together. The work of a step is `recording::step`'s; here it is lent the walk's parts.
#![tactic(auto)]

ghost use Rattle.std.specs.Prelude.{◌≡◌};
ghost use Rattle.buffers.specs.Buffers.{each};
ghost use Rattle.recording.specs.Walk.{stepped, step_at, buffers_at};
ghost use Rattle.walk.specs.Walks.{opened, onward};

use reader::Reader;
use recording::{Met, Stand};
use refusals::Refusal;

// A lent recording, and where the walk stands in it.
#[derive(Drop)]
pub struct Walk<'a> {
    pub recording: &'a [u8],
    pub stand: Stand,
}

impl<'a> Walk<'a> {
    // A walk that stands at a place of a recording, the block before it lost or not.
    pub fn open(recording: &'a [u8], place: usize, lost: bool) -> Walk<'a>
        ensures { result ≡ opened recording.entry place lost }
    {
        Walk {
            recording,
            stand: Stand { place, lost },
        }
    }

    // One step of a walk.
    pub fn step(
        &mut self,
        reader: &mut Reader,
        voice: &mut [u8],
        lsd: &mut [u8],
    ) -> Result<Met, Refusal>
        ensures moved { self.new ≡ onward self.old (step_at self.old.recording.now self.old.stand.place self.old.stand.lost reader.old (each voice.old lsd.old)) }
        ensures told { stepped self.new.stand reader.new result ≡ step_at self.old.recording.now self.old.stand.place self.old.stand.lost reader.old (each voice.old lsd.old) }
        ensures handed { each voice.new lsd.new ≡ buffers_at self.old.recording.now self.old.stand.place self.old.stand.lost reader.old (each voice.old lsd.old) }
    {
        recording::step(self.recording, &mut self.stand, reader, voice, lsd)
    }
}

// A step from a place of a recording, by a walk that is opened there. Its contract speaks of no walk (DECISIONS F21).
pub fn step_from(
    recording: &[u8],
    stand: &mut Stand,
    reader: &mut Reader,
    voice: &mut [u8],
    lsd: &mut [u8],
) -> Result<Met, Refusal>
    ensures told { stepped stand.new reader.new result ≡ step_at recording.now stand.old.place stand.old.lost reader.old (each voice.old lsd.old) }
    ensures handed { each voice.new lsd.new ≡ buffers_at recording.now stand.old.place stand.old.lost reader.old (each voice.old lsd.old) }
{
    let mut walk = Walk::open(recording, stand.place, stand.lost);
    let answer = walk.step(reader, voice, lsd);
    *stand = walk.stand;
    answer
}
