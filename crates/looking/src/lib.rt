// One step of a walk that hands out no voice and no data (document 01, 'Finding alignment' and 'How to write each place'). The work is
// `recording::look`'s; here it is lent the walk's parts.
#![tactic(auto)]

ghost use Rattle.std.specs.Prelude.{◌≡◌};
ghost use Rattle.recording.specs.Walk.{stepped, look_at};
ghost use Rattle.walk.specs.Walks.{onward};

use reader::Reader;
use recording::{Met, Stand};
use refusals::Refusal;
use walk::Walk;

// One step, over a walk that holds its recording.
pub fn look(walk: &mut Walk, reader: &mut Reader) -> Result<Met, Refusal>
    ensures moved { walk.new ≡ onward walk.old (look_at walk.old.recording.now walk.old.stand.place walk.old.stand.lost reader.old) }
    ensures told { stepped walk.new.stand reader.new result ≡ look_at walk.old.recording.now walk.old.stand.place walk.old.stand.lost reader.old }
{
    recording::look(walk.recording, &mut walk.stand, reader)
}

// The same from a place of a recording, by a walk that is opened there, as `walk::step_from` is to `walk::step`.
pub fn look_from(recording: &[u8], stand: &mut Stand, reader: &mut Reader) -> Result<Met, Refusal>
    ensures { stepped stand.new reader.new result ≡ look_at recording.now stand.old.place stand.old.lost reader.old }
{
    let mut walk = Walk::open(recording, stand.place, stand.lost);
    let answer = look(&mut walk, reader);
    *stand = walk.stand;
    answer
}
