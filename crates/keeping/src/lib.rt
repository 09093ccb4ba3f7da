// A walk as a driver keeps it between its steps, and its saved form (docs/SAVED.md), which begins
// with that of its reader. Every octet of a form is loaded as it is: a state out of range is refused
// by the calls that are given it.
#![tactic(auto)]

ghost use Rattle.std.specs.Prelude.{◌≡◌};
ghost use Rattle.saving.specs.Saved.{fits, is_form};
ghost use Rattle.keeping.specs.SavedWalk.{walk_forms, walk_octets, walk_kept, walk_of};

use reader::Reader;

// A walk without its recording: where it stands, its reader, and a mark that is not 0 where the
// block before was lost. Reserved octets are kept as they are.
#[repr(C)]
#[derive(Clone, Copy, Debug, PartialEq, Eq)]
pub struct WalkState {
    pub place: usize,
    pub reader: Reader,
    pub lost: u8,
    pub reserved: [u8; 3],
}

// The octets of a saved walk: its reader's, the mark, and the place in eight octets, the lowest first.
fn walk_octets(state: WalkState) -> [u8; 21]
    ensures { result ≡ walk_octets state }
{
    let mut octets = [0; 21];
    octets[..12].copy_from_slice(&saving::reader_octets(state.reader));
    octets[12] = state.lost;
    octets[13..].copy_from_slice(&state.place.to_le_bytes());
    octets
}

pub fn save_walk(state: WalkState, saved: &mut [u8]) -> bool
    ensures { (result ≡ fits (walk_octets state) saved.old)
        × (saved.new ≡ walk_kept state saved.old) }
{
    saving::save(&walk_octets(state), saved)
}

// Whether so many octets are a saved walk: nine are its own, and all others a saved reader.
fn is_walk_form(octets: usize) -> bool
    ensures { result ≡ is_form walk_forms octets }
{
    octets.checked_sub(9).is_some_and(saving::is_reader_form)
}

// None where the octets are no saved walk. The nine octets after its reader's are its own.
pub fn load_walk(saved: &[u8]) -> Option<WalkState>
    ensures { result ≡ walk_of saved.now }
{
    if !is_walk_form(saved.len()) {
        return None;
    }
    let (rest, place) = saved.split_last_chunk::<8>()?;
    let (lost, reader) = rest.split_last()?;
    Some(WalkState {
        place: usize::from_le_bytes(*place),
        reader: saving::reader_from(reader),
        lost: *lost,
        reserved: [0; 3],
    })
}
