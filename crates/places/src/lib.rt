// The places of a frame: which stream owns each of them, as four numbers (document 01, 'Codes and bit places').
#![tactic(auto)]

ghost use Rattle.std.specs.Prelude.{◌≡◌};
ghost use Rattle.places.specs.Layout.{layout_of, in_eights};

use modes::{Mode, Owner};

// The places of a mode: voice owns octet bits 1 to `width`, data the last `columns` of bits 1 to 7 and SC octets `first` to `last`.
#[derive(Clone, Copy)]
pub struct Layout {
    pub width: u8,
    pub columns: u8,
    pub first: u8,
    pub last: u8,
}

// The layout of a mode. Where a mode is forged and its streams overlap, voice has its places and data what is left.
#[tactic(auto, using(modes::proofs::OwnerLaws::held_fit), unfolding(crate::specs::Layout::layout_of))]
pub fn layout_of(mode: Mode) -> Layout
    ensures { result ≡ layout_of mode }
{
    let voice = mode.held_by(Owner::Voice);
    let lsd = mode.held_by(Owner::Lsd);
    Layout {
        width: voice.to,
        columns: (8 - lsd.from).min(7 - voice.to),
        first: lsd.first.0,
        last: lsd.last.0,
    }
}

// Whether data's SC octets are whole eights of a frame.
#[tactic(auto, unfolding(crate::specs::Layout::in_eights))]
pub fn in_eights(p: Layout) -> bool
    ensures { result ≡ in_eights p }
{
    (p.first % 8 == 1) & (p.last % 8 == 0)
}
