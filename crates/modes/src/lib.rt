// Modes, and whose each place of a frame is under one (document 01, 'Codes and bit places').
#![tactic(auto)]

ghost use Rattle.std.specs.Prelude.{◌≡◌, ◌&&◌, ◌||◌, leb};
ghost use Rattle.modes.specs.Owners.{holds, held_by, owner_of, overlaps, bits_per_frame};
ghost use Rattle.modes.specs.Modes.{off, with_audio, with_lsd, turned_off, given_way, in_range};

use numbers::OctetNumber;
use table::Places;

// The audio value and the data value that say that the stream is off.
pub const AUDIO_OFF: u8 = 31;

pub const LSD_OFF: u8 = 0;

// What is in force: an audio value of (000) and a data value of (011).
#[repr(C)]
#[derive(Clone, Copy, Debug, PartialEq, Eq)]
pub struct Mode {
    pub audio: u8,
    pub lsd: u8,
}

// Whose a place is. Lsd is the data stream.
#[derive(Clone, Copy, Debug, PartialEq, Eq)]
pub enum Owner {
    Service,
    Voice,
    Lsd,
    Nobody,
}

#[tactic(auto, unfolding(crate::specs::Owners::holds))]
fn holds(places: Places, octet: OctetNumber, bit: u8) -> bool
    ensures { result ≡ holds places octet bit }
{
    if bit == 8 {
        return (places.first.0 <= octet.0) & (octet.0 <= places.last.0);
    }
    (places.from <= bit) & (bit <= places.to)
}

// Whether two ranges have a number in common.
fn meet(a: u8, b: u8, c: u8, d: u8) -> bool
    ensures { result ≡ (leb a b && leb c d && leb a d && leb c b) }
{
    (a <= b) & (c <= d) & (a <= d) & (c <= b)
}

// Whether two streams hold a place together, in an octet or in the service channel.
fn touch(v: Places, d: Places) -> bool
    ensures { result ≡ (leb v.from v.to && leb d.from d.to && leb v.from d.to && leb d.from v.to
        || leb v.first.0 v.last.0 && leb d.first.0 d.last.0
        && leb v.first.0 d.last.0 && leb d.first.0 v.last.0) }
{
    meet(v.from, v.to, d.from, d.to) | meet(v.first.0, v.last.0, d.first.0, d.last.0)
}

impl Mode {
    // Everything off: audio [31] and data [0].
    pub fn off() -> Mode
        ensures { result ≡ off }
    {
        Mode {
            audio: AUDIO_OFF,
            lsd: LSD_OFF,
        }
    }

    // The mode with another audio value, and with another data value.
    pub fn with_audio(self, audio: u8) -> Mode
        ensures { result ≡ with_audio self audio }
    {
        Mode { audio, ..self }
    }

    pub fn with_lsd(self, lsd: u8) -> Mode
        ensures { result ≡ with_lsd self lsd }
    {
        Mode { lsd, ..self }
    }

    // What an owner holds under the mode.
    #[tactic(auto, unfolding(crate::specs::Owners::held_by))]
    pub fn held_by(self, owner: Owner) -> Places
        ensures { result ≡ held_by self owner }
    {
        match owner {
            Owner::Service => Places::sc_octets(1, 16),
            Owner::Voice => table::audio_places(self.audio),
            Owner::Lsd => table::lsd_places(self.lsd),
            Owner::Nobody => Places::octet_bits_from(8),
        }
    }

    // The owner of a place.
    #[tactic(auto, unfolding(crate::specs::Owners::owner_of))]
    pub fn owner_of(self, octet: OctetNumber, bit: u8) -> Owner
        ensures { result ≡ owner_of self octet bit }
    {
        if holds(self.held_by(Owner::Service), octet, bit) {
            return Owner::Service;
        }
        if holds(self.held_by(Owner::Voice), octet, bit) {
            return Owner::Voice;
        }
        if holds(self.held_by(Owner::Lsd), octet, bit) {
            return Owner::Lsd;
        }
        Owner::Nobody
    }

    // Whether the streams overlap.
    #[tactic(auto, using(crate::proofs::OwnerLaws::overlaps_is), unfolding(crate::specs::Owners::held_by))]
    pub fn overlaps(self) -> bool
        ensures { result ≡ overlaps self }
    {
        touch(self.held_by(Owner::Voice), self.held_by(Owner::Lsd))
    }

    // The mode with `stream` turned off.
    fn turned_off(self, stream: Owner) -> Mode
        ensures { result ≡ turned_off stream self }
    {
        match stream {
            Owner::Voice => self.with_audio(AUDIO_OFF),
            Owner::Lsd => self.with_lsd(LSD_OFF),
            Owner::Service | Owner::Nobody => self,
        }
    }

    // The mode with `other` turned off where it clashes with `stream`.
    #[tactic(auto, using(crate::proofs::OwnerLaws::clash_is, crate::proofs::OwnerLaws::held_fit), unfolding(crate::specs::Modes::given_way))]
    pub fn given_way(self, stream: Owner, other: Owner) -> Mode
        ensures { result ≡ given_way stream other self }
    {
        if touch(self.held_by(stream), self.held_by(other)) {
            return self.turned_off(other);
        }
        self
    }

    // How many bits of a frame an owner holds under the mode.
    #[tactic(auto, using(crate::proofs::OwnerLaws::held_fit, crate::proofs::OwnerLaws::bits_per_frame_is))]
    pub fn bits_per_frame(self, owner: Owner) -> u16
        ensures { result ≡ bits_per_frame (held_by self owner) }
    {
        let held = self.held_by(owner);
        let columns = held.to + 1 - held.from;
        let channel = held.last.0 + 1 - held.first.0;
        u16::from(columns) * 80 + u16::from(channel)
    }

    // Whether the mode holds listed codes, audio never as [0], that do not overlap. Each table is read once, since it is laid out anew where it
    // is read.
    #[tactic(auto, unfolding(crate::specs::Modes::in_range))]
    pub fn is_in_range(self) -> bool
        ensures { result ≡ in_range self }
    {
        let voice = table::audio_places(self.audio);
        let lsd = table::lsd_places(self.lsd);
        voice.listed & (self.audio != 0) & lsd.listed & !touch(voice, lsd)
    }
}
