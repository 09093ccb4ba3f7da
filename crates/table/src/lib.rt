// The bit places of each audio and data value (document 01, 'Codes and bit places').
#![tactic(auto)]

ghost use Rattle.std.specs.Prelude.{◌≡◌};
ghost use Rattle.numbers.specs.Numbers.{octet};
ghost use Rattle.table.specs.Table.{bits_and_sc, octet_bits_to, octet_bits_from, sc_octets, not_listed, audio_listed, lsd_listed, audio_places, lsd_places};

use numbers::OctetNumber;

// Octet bits `from` to `to` of every octet, and the SC bit of octets `first` to `last`. A range that ends before it starts is empty. Where a value
// is not listed, its places are marked so.
#[derive(Clone, Copy, Debug, PartialEq, Eq)]
pub struct Places {
    pub listed: bool,
    pub from: u8,
    pub to: u8,
    pub first: OctetNumber,
    pub last: OctetNumber,
}

impl Places {
    fn bits_and_sc(from: u8, to: u8, first: u8, last: u8) -> Places
        ensures { result ≡ bits_and_sc from to (octet first) (octet last) }
    {
        Places {
            listed: true,
            from,
            to,
            first: OctetNumber(first),
            last: OctetNumber(last),
        }
    }

    // Octet bits 1 to w; none where w is 0.
    pub fn octet_bits_to(w: u8) -> Places
        ensures { result ≡ octet_bits_to w }
    {
        Places::bits_and_sc(1, w, 17, 16)
    }

    // Octet bits a to 7; none where a is 8.
    pub fn octet_bits_from(a: u8) -> Places
        ensures { result ≡ octet_bits_from a }
    {
        Places::bits_and_sc(a, 7, 17, 16)
    }

    // SC octets f to l.
    pub fn sc_octets(f: u8, l: u8) -> Places
        ensures { result ≡ sc_octets (octet f) (octet l) }
    {
        Places::bits_and_sc(8, 7, f, l)
    }

    fn not_listed(self) -> Places
        ensures { result ≡ not_listed self }
    {
        Places {
            listed: false,
            ..self
        }
    }
}

// From audio value to the octet bits it holds, 1 to w; 8 where the value is not listed. Octets, and no Options: a table of these is laid out
// anew where it is read, in twice the room, and half of the calls that read it take one and a half to two times as long.
const AUDIO: [u8; 32] = [
    0, 8, 8, 8, 8, 8, 8, 8, 8, 8, 8, 1, 8, 8, 8, 8, 8, 8, 7, 7, 6, 6, 8, 8, 7, 6, 8, 4, 3, 2, 8, 0,
];

// From data value to what it holds: octet bits a to 7, and SC octets f to l. From 8 to 7, and from 17 to 16, is none.
const LSD: [[u8; 3]; 15] = [
    [8, 17, 16],
    [8, 38, 40],
    [8, 29, 40],
    [8, 33, 80],
    [8, 17, 80],
    [7, 17, 16],
    [7, 25, 40],
    [7, 17, 80],
    [6, 17, 16],
    [5, 17, 16],
    [4, 17, 16],
    [3, 17, 16],
    [2, 17, 16],
    [1, 17, 16],
    [1, 17, 80],
];

// The places of audio [v], where it is listed.
pub fn audio_listed(v: u8) -> Option<Places>
    ensures { result ≡ audio_listed v }
{
    if 32 <= v {
        return None;
    }
    let w = AUDIO[v as usize];
    if 8 <= w {
        return None;
    }
    Some(Places::octet_bits_to(w))
}

// The places of data [v], where it is listed.
pub fn lsd_listed(v: u8) -> Option<Places>
    ensures { result ≡ lsd_listed v }
{
    if 15 <= v {
        return None;
    }
    let [from, first, last] = LSD[v as usize];
    Some(Places::bits_and_sc(from, 7, first, last))
}

// The places of audio [v]; none, and marked, where it is not listed.
#[tactic(auto, unfolding(crate::specs::Table::audio_places))]
pub fn audio_places(v: u8) -> Places
    ensures { result ≡ audio_places v }
{
    audio_listed(v).unwrap_or(Places::octet_bits_to(0).not_listed())
}

// The places of data [v]; none, and marked, where it is not listed.
#[tactic(auto, unfolding(crate::specs::Table::lsd_places))]
pub fn lsd_places(v: u8) -> Places
    ensures { result ≡ lsd_places v }
{
    lsd_listed(v).unwrap_or(Places::octet_bits_from(8).not_listed())
}
