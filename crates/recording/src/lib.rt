// One step of a walk over a recording (document 01, 'Finding alignment' and 'Refusal numbers').
#![tactic(auto)]

ghost use Rattle.std.specs.Prelude.{◌≡◌, true, ◌≤◌, length};
ghost use Rattle.buffers.specs.Buffers.{each};
ghost use Rattle.search.specs.Finding.{search_of};
ghost use Rattle.reading.specs.Step.{outcome};
ghost use Rattle.recording.specs.Refusals.{ruling_of};
ghost use Rattle.recording.specs.Walk.{left_from, found_again, is_lost, answer_here, stepped, stepped_by, step_at, buffers_at, look_at};
ghost use Rattle.recording.specs.Inner.{off_block, meets_none, moved_by, ruled_at};

use reader::Reader;
use refusals::Refusal;
use track::{Report, Standing};

// What a step meets: a block as the reader answers it, the place where alignment was found again, or the end and the octets left.
#[derive(Clone, Copy, Debug, PartialEq, Eq)]
pub enum Met {
    Block(Report),
    Place(usize),
    End(usize),
}

// Where a walk stands in its recording: its place, and whether the block before it was lost.
#[derive(Clone, Copy, Debug, PartialEq, Eq)]
pub struct Stand {
    pub place: usize,
    pub lost: bool,
}

// The ruling of a step at a place of a recording of `all` octets, with buffers of these lengths: its rows, in their order.
#[tactic(auto, unfolding(crate::specs::Refusals::ruling_of))]
fn ruling_of(all: usize, place: usize, s: Reader, voice: usize, lsd: usize) -> Result<(), Refusal>
    ensures { result ≡ ruling_of all place s (each voice lsd) }
{
    let [voice_length, lsd_length] = buffers::stream_rows(voice, lsd);
    refusals::first_given(&[
        Refusal::BadState.row(!s.is_in_range()),
        voice_length,
        lsd_length,
        Refusal::BadRecording.row((65_536 < all) | (all < place)),
    ])
}

fn is_lost(report: Report) -> bool
    ensures { result ≡ is_lost report }
{
    matches!(report.standing, Standing::Lost)
}

// The walk after the reader's answer to the block at its place: at the block's end, or where it was if the reader refused.
fn moved_on(heard: Result<Report, Refusal>, stand: &mut Stand) -> Result<Met, Refusal>
    requires { stand.old.place ≤ 65536 }
    ensures { (s : Reader) → stepped stand.new s result ≡ moved_by (outcome s heard) stand.old.place stand.old.lost }
{
    let report = heard?;
    *stand = Stand {
        place: stand.place + buffers::LINE,
        lost: is_lost(report),
    };
    Ok(Met::Block(report))
}

// The search after a lost block, from the octet after it.
fn seek(recording: &[u8], stand: &mut Stand) -> Met
    requires { (stand.old.lost ≡ true) × (stand.old.place ≤ length recording.now) }
    ensures { (s : Reader) → stepped stand.new s (Ok result) ≡ stepped_by (found_again (search_of recording.now stand.old.place) (left_from recording.now stand.old.place)) recording.now stand.old.place true s }
{
    match search::search(recording, stand.place) {
        Ok(place) => {
            *stand = Stand { place, lost: false };
            Met::Place(place)
        }
        Err(_) => Met::End(recording.len() - stand.place),
    }
}

// Whether a step meets no block: it is refused whatever else is given, or comes after a lost block or to the end.
fn off_block(all: usize, place: usize, lost: bool) -> bool
    ensures { result ≡ meets_none all place lost }
{
    if all < place {
        return true;
    }
    (65_536 < all) | (lost | (all - place < buffers::LINE))
}

// A step that meets no block: after a lost block it searches, and else it is at the end.
fn seek_or_end(recording: &[u8], stand: &mut Stand) -> Met
    requires { (stand.old.place ≤ length recording.now) × (off_block (length recording.now) stand.old.place stand.old.lost ≡ true) }
    ensures { (s : Reader) → stepped stand.new s (Ok result) ≡ stepped_by (answer_here recording.now stand.old.place stand.old.lost s) recording.now stand.old.place stand.old.lost s }
{
    if stand.lost {
        return seek(recording, stand);
    }
    Met::End(recording.len() - stand.place)
}

// A step that meets no block, with a voice buffer of `voice` octets and a data buffer of `lsd`: by its ruling.
fn off_by_ruling(
    recording: &[u8],
    stand: &mut Stand,
    s: Reader,
    voice: usize,
    lsd: usize,
) -> Result<Met, Refusal>
    requires { meets_none (length recording.now) stand.old.place stand.old.lost ≡ true }
    ensures { stepped stand.new s result ≡ ruled_at recording.now stand.old.place stand.old.lost s (each voice lsd) }
{
    ruling_of(recording.len(), stand.place, s, voice, lsd)?;
    Ok(seek_or_end(recording, stand))
}

// One step of a walk over a recording. Where it meets a block the reader judges the state and the buffers. A refusal moves nothing.
pub fn step(
    recording: &[u8],
    stand: &mut Stand,
    reader: &mut Reader,
    voice: &mut [u8],
    lsd: &mut [u8],
) -> Result<Met, Refusal>
    ensures { (stepped stand.new reader.new result ≡ step_at recording.now stand.old.place stand.old.lost reader.old (each voice.old lsd.old))
        × (each voice.new lsd.new ≡ buffers_at recording.now stand.old.place stand.old.lost reader.old (each voice.old lsd.old)) }
{
    if off_block(recording.len(), stand.place, stand.lost) {
        return off_by_ruling(recording, stand, *reader, voice.len(), lsd.len());
    }
    let end = stand.place + buffers::LINE;
    let heard = reading::read(reader, &recording[stand.place..end], voice, lsd);
    moved_on(heard, stand)
}

// A step that hands out no voice and no data: the same answer, and the same state, place and loss.
pub fn look(recording: &[u8], stand: &mut Stand, reader: &mut Reader) -> Result<Met, Refusal>
    ensures { stepped stand.new reader.new result ≡ look_at recording.now stand.old.place stand.old.lost reader.old }
{
    if off_block(recording.len(), stand.place, stand.lost) {
        return off_by_ruling(recording, stand, *reader, buffers::VOICE, buffers::LSD);
    }
    let end = stand.place + buffers::LINE;
    let heard = reading::look(reader, &recording[stand.place..end]);
    moved_on(heard, stand)
}
