// Runs document 01's figures for bits, BAS words, codes and places, and source document 001's table
// 2 and data rates. What it prints is held to the file `stdout`, which is written from those two
// papers.
#![tactic(auto)]

ghost use Rattle.std.specs.Prelude.{◌≤◌};

use modes::{Mode, Owner};
use numbers::OctetNumber;

fn check(rt: &impl Print, code: u8) {
    let check = bas::check_octet(code);
    let _ = println!(rt; "check {code:02X} {check:02X}");
}

fn checks(rt: &impl Print) {
    for code in [0x00, 0x01, 0x80, 0x12, 0x1F, 0xF0, 0x65] {
        check(rt, code);
    }
}

fn sent(rt: &impl Print, code: u8) {
    let line = bas::line_order(bas::word_of(code));
    let _ = println!(rt; "sent {code:02X} {:08b} {:08b}", line / 256, line % 256);
}

// The CRC-4 of a block all 0 but for one octet.
fn crc(rt: &impl Print, at: usize, octet: u8) {
    let mut block = [0u8; 160];
    block[at % 160] = octet;
    let _ = println!(rt; "crc {:08b}", crc::block_crc(&block));
}

fn crcs(rt: &impl Print) {
    for (at, octet) in [(0, 0), (159, 1), (159, 2), (0, 128)] {
        crc(rt, at, octet);
    }
}

// How many words were read as the code that was sent, as another one, and as unreadable.
#[derive(Clone, Copy, Default)]
struct Tally {
    sent: u64,
    other: u64,
    unreadable: u64,
}

impl Tally {
    fn count(&mut self, code: u8, word: u16) {
        let kind = match bas::read_word(word) {
            Some(read) if read == code => &mut self.sent,
            Some(_) => &mut self.other,
            None => &mut self.unreadable,
        };
        *kind = kind.wrapping_add(1);
    }
}

// How many remainders are mended. Each check octet beside code 00 leaves a remainder of its own.
fn remainders(rt: &impl Print) {
    let mut t = Tally::default();
    for remainder in 0..256 {
        t.count(0, remainder);
    }
    let mended = t.sent.wrapping_add(t.other);
    let _ = println!(rt; "remainders mended {mended} not {}", t.unreadable);
}

// The word of a code with the bits of `wrong` and one further wrong bit, below bit `end`.
fn one_more(t: &mut Tally, code: u8, wrong: u16, end: u32)
    requires { end ≤ 16 }
{
    for i in 0..end {
        t.count(code, bas::word_of(code) ^ wrong ^ 1 << i);
    }
}

fn two_more(t: &mut Tally, code: u8, wrong: u16, end: u32)
    requires { end ≤ 16 }
{
    for i in 0..end {
        one_more(t, code, wrong ^ 1 << i, i);
    }
}

fn three_wrong(t: &mut Tally, code: u8) {
    for i in 0..16 {
        two_more(t, code, 1 << i, i);
    }
}

fn each_three(rt: &impl Print) {
    let mut t = Tally::default();
    for code in 0..=255 {
        three_wrong(&mut t, code);
    }
    let _ = println!(rt;
        "three wrong bits: read as sent {} other {} unreadable {}",
        t.sent, t.other, t.unreadable
    );
}

// Whether an audio value and a data value overlap.
fn overlap(rt: &impl Print, audio: u8, lsd: u8) {
    let mode = Mode::off().with_audio(audio).with_lsd(lsd);
    let judged = if mode.overlaps() {
        "overlap"
    } else {
        "accepted"
    };
    let _ = println!(rt; "audio [{audio}] with data [{lsd}] {judged}");
}

fn overlaps(rt: &impl Print) {
    for audio in [20, 21, 25, 18, 19, 24] {
        overlap(rt, audio, 5);
    }
}

// Data [v]: bits a frame, and bits a second at 100 frames.
fn rate(rt: &impl Print, v: u8) {
    let bits = Mode::off().with_lsd(v).bits_per_frame(Owner::Lsd);
    let each_second = u32::from(bits) * 100;
    let _ = println!(rt; "data [{v}] {bits} {each_second}");
}

fn rates(rt: &impl Print) {
    for v in 0..15 {
        rate(rt, v);
    }
}

// The place of the one bit that is set, counted from the first; 16 where it is not exactly one.
fn bit_place(word: u16) -> u64 {
    match word.count_ones() {
        1 => u64::from(word.leading_zeros()),
        _ => 16,
    }
}

// Table 2: which bit of the word each place of the line carries, counted from the first.
fn line_places(rt: &impl Print) {
    let _ = println!(rt; "table 2");
    for i in 0u32..8 {
        let b = bit_place(bas::line_order(0x8000 >> i));
        let p = bit_place(bas::line_order(0x80 >> i)).wrapping_sub(8);
        let _ = println!(rt; "SC bit {} b{b} p{p}", 9 + i);
    }
}

fn letter(owner: Owner) -> char {
    match owner {
        Owner::Service => 'S',
        Owner::Voice => 'V',
        Owner::Lsd => 'D',
        Owner::Nobody => '.',
    }
}

fn print_bit(rt: &impl Print, mode: Mode, bit: u8) {
    let _ = print!(rt; "bit {bit} ");
    for octet in 1..=80 {
        let _ = rt.print(letter(mode.owner_of(OctetNumber(octet), bit)));
    }
    let _ = println!(rt);
}

// A frame, octet 1 to 80 from left to right: S service, V voice, D data, a point where nobody holds
// the place.
fn picture(rt: &impl Print, mode: Mode) {
    let _ = println!(rt;
        "a frame of audio [{}] with data [{}]",
        mode.audio, mode.lsd
    );
    for bit in 1..=8 {
        print_bit(rt, mode, bit);
    }
}

// What cannot be written is not told, and what follows is tried all the same: all that is written
// is compared with the file `stdout`.
fn main(rt: HostRuntime) {
    checks(&rt);
    sent(&rt, 0x1F);
    crcs(&rt);
    remainders(&rt);
    each_three(&rt);
    overlaps(&rt);
    rates(&rt);
    line_places(&rt);
    picture(&rt, Mode::off().with_audio(20).with_lsd(6));
}
