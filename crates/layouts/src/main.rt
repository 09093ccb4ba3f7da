// Runs the frames: H.221's published bit layouts, read out of written blocks, and every audio value
// with every data value, written and sorted back. What it prints is held to the file `stdout`,
// whose layouts are those of source document 001.
#![tactic(auto)]

use frame::Header;
use modes::{Mode, Owner};
use numbers::BlockNumber;
use std::array;

fn header() -> Header {
    Header {
        a: false,
        e: false,
        t: false,
        block: BlockNumber(1),
        remainder: 0,
        code: 31,
    }
}

fn bit(n: usize, k: usize) -> bool {
    (n >> (k % 16)) % 2 == 1
}

// Octet i of a stream in which bit n, counted from 1, is bit k of the number n.
fn numbered(i: usize, k: usize) -> u8 {
    let first = i % 256 * 8 + 1;
    bits::octet(array::from_fn(|j| bit(first + j % 8, k)))
}

fn number_all(buffer: &mut [u8], k: usize) {
    for (i, octet) in buffer.iter_mut().enumerate() {
        *octet = numbered(i, k);
    }
}

// Bit k of the number of the stream's bit that octet `at` of a block carries in its bit `place`, 1
// to 8.
fn plane(mode: Mode, at: usize, place: usize, k: usize) -> bool {
    let mut line = [0u8; buffers::LINE];
    let mut voice = [0u8; buffers::VOICE];
    let mut lsd = [0u8; buffers::LSD];
    number_all(&mut voice, k);
    number_all(&mut lsd, k);
    frame::write_block(&mut line, mode, header(), false, &voice, &lsd);
    bit(usize::from(line[at % buffers::LINE]), 8 - place % 9)
}

// The number of the stream's bit at a place of a block, where the place is the stream's: the others
// carry zeros or ones in every plane.
fn position(mode: Mode, at: usize, place: usize) -> Option<u64> {
    let mut number = 0;
    for k in 0..11 {
        if plane(mode, at, place, k) {
            number |= 1 << k;
        }
    }
    match number {
        0 | 2047 => None,
        _ => Some(number),
    }
}

// How a figure numbers the bits of a stream: from 1, from 0, or as code word and bit of G.728.
#[derive(Clone, Copy)]
enum Label {
    FromOne,
    FromZero,
    CodeWord,
}

fn print_place(rt: &impl Print, mode: Mode, label: Label, at: usize, place: usize) {
    let Some(n) = position(mode, at, place) else {
        let _ = print!(rt; " -");
        return;
    };
    let k = n.wrapping_sub(1);
    let _ = match label {
        Label::FromOne => print!(rt; " {n}"),
        Label::FromZero => print!(rt; " {k}"),
        Label::CodeWord => print!(rt; " {}{}", k % 40 / 10, 9 - k % 10),
    };
}

// Octet n of a block, counted from 1.
fn print_octet(rt: &impl Print, mode: Mode, label: Label, n: u8) {
    let _ = print!(rt; "octet {n}");
    for place in 1..=8 {
        print_place(rt, mode, label, usize::from(n).wrapping_sub(1), place);
    }
    let _ = println!(rt);
}

// The octets of a block that a figure shows.
fn figure(rt: &impl Print, title: &str, mode: Mode, label: Label, octets: &[u8]) {
    let _ = println!(rt; "figure {title}");
    for n in octets {
        print_octet(rt, mode, label, *n);
    }
}

fn voice_mode(audio: u8) -> Mode {
    Mode::off().with_audio(audio)
}

fn data_mode(lsd: u8) -> Mode {
    Mode::off().with_lsd(lsd)
}

fn data_layouts(rt: &impl Print) {
    figure(
        rt,
        "5a: 14.4 kbit/s data",
        data_mode(7),
        Label::FromOne,
        &[1, 2, 8, 9, 10, 16, 17, 18, 80],
    );
    figure(
        rt,
        "5b: 56 kbit/s data",
        data_mode(13),
        Label::FromOne,
        &[1, 8, 9, 16, 17, 18, 80],
    );
    figure(
        rt,
        "5c: 62.4 kbit/s data",
        data_mode(14),
        Label::FromOne,
        &[1, 8, 9, 16, 17, 18, 19, 80],
    );
    figure(
        rt,
        "6: 62.4 kbit/s",
        data_mode(14),
        Label::FromOne,
        &[1, 2, 16, 17, 79, 80],
    );
}

fn voice_layouts(rt: &impl Print) {
    figure(
        rt,
        "5d-2: G.728 audio, code word and bit",
        voice_mode(29),
        Label::CodeWord,
        &[1, 2, 3, 4, 5, 6, 7, 10, 11, 15, 16, 20, 21, 22, 79, 80],
    );
    figure(
        rt,
        "5d-3: G.729 audio",
        voice_mode(11),
        Label::FromZero,
        &[1, 2, 3, 4, 5, 79, 80],
    );
    figure(
        rt,
        "5d-5: G.722.1 audio at 32 kbit/s, both frames",
        voice_mode(27),
        Label::FromOne,
        &[1, 2, 3, 4, 80, 81, 160],
    );
}

// Octets that are not alike.
fn pattern(buffer: &mut [u8], seed: usize) {
    for (i, octet) in buffer.iter_mut().enumerate() {
        *octet = ((i % 256 * 37 + seed % 256) % 251) as u8;
    }
}

// What octet i of a buffer has to hold of an octet x, where n bits of the buffer count.
fn counted(x: u8, i: usize, n: usize) -> u8 {
    match n.saturating_sub(i % 256 * 8) {
        left @ 0..=7 => x & !(0xFF >> left),
        _ => x,
    }
}

// Whether a stream came back as it was sent, or as ones where voice was muted, and as zeros past
// the n bits that count.
fn all_back<const N: usize>(sent: &[u8; N], back: &[u8; N], n: usize, ones: bool) -> bool {
    sent.iter().zip(back).enumerate().all(|(i, (x, y))| *y
        == counted(if ones { 0xFF } else { *x }, i, n))
}

// Whether voice and data come back out of a block of this mode, into buffers that held something
// else.
fn comes_back(mode: Mode, mute: bool) -> bool {
    let mut line = [0u8; buffers::LINE];
    let mut voice = [0u8; buffers::VOICE];
    let mut lsd = [0u8; buffers::LSD];
    let mut voice_back = [85u8; buffers::VOICE];
    let mut lsd_back = [85u8; buffers::LSD];
    pattern(&mut voice, 7);
    pattern(&mut lsd, 91);
    frame::write_block(&mut line, mode, header(), mute, &voice, &lsd);
    sorter::hand_out(&line, mode, &mut voice_back, &mut lsd_back);
    let v = usize::from(mode.bits_per_frame(Owner::Voice));
    let d = usize::from(mode.bits_per_frame(Owner::Lsd));
    all_back(&voice, &voice_back, v * 2, mute) && all_back(&lsd, &lsd_back, d * 2, false)
}

// How many modes came back, and how many did not.
#[derive(Clone, Copy, Default)]
struct Tally {
    right: u64,
    wrong: u64,
}

impl Tally {
    fn count(&mut self, mode: Mode, mute: bool) {
        let kind = if comes_back(mode, mute) {
            &mut self.right
        } else {
            &mut self.wrong
        };
        *kind = kind.wrapping_add(1);
    }
}

// An audio value beside each data value, where the two are a mode.
fn each_data(t: &mut Tally, audio: u8, mute: bool) {
    for lsd in 0..32 {
        let mode = Mode::off().with_audio(audio).with_lsd(lsd);
        if mode.is_in_range() {
            t.count(mode, mute);
        }
    }
}

fn each_mode(rt: &impl Print, name: &str, mute: bool) {
    let mut t = Tally::default();
    for audio in 0..32 {
        each_data(&mut t, audio, mute);
    }
    let _ = println!(rt;
        "{name} modes that came back: {}, wrong: {}",
        t.right, t.wrong
    );
}

// What cannot be written is not told, and what follows is tried all the same: all that is written
// is compared with the file `stdout`.
fn main(rt: HostRuntime) {
    data_layouts(&rt);
    voice_layouts(&rt);
    each_mode(&rt, "open", false);
    each_mode(&rt, "muted", true);
}
