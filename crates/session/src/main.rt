// Runs one session of sending calls from a fresh state, with every rule of sending and every
// refusal number that a sending call can give. What it prints is held to the file `stdout`, which
// the model in Rust writes from the same script.
#![tactic(auto)]

use Way::{A, E, Forged, Mute, ShortLine, ShortLsd, ShortVoice, T};
use control::{Call, Went};
use numbers::BlockNumber;
use refusals::Refusal;
use sender::Sender;
use std::fmt;

// What is said with an offered code, and what is wrong with the buffers and the state that it is
// offered with.
#[derive(Clone, Copy, PartialEq, Eq)]
enum Way {
    Mute,
    A,
    E,
    T,
    ShortLine,
    ShortVoice,
    ShortLsd,
    Forged,
}

// The calls, one to a row: the offered code, and the ways in which it is offered.
const SCRIPT: [(u8, &[Way]); 52] = [
    // Idle; then voice of 7 bits, data that overlaps it, voice of 6 bits beside data, a code not
    // carried, and T in block 8.
    (0x1F, &[]),
    (0x18, &[A]),
    (0x80, &[]),
    (0x18, &[E]),
    (0x65, &[]),
    (0x14, &[A, E]),
    (0x65, &[]),
    (0x80, &[]),
    (0x18, &[]),
    (0x41, &[]),
    (0x80, &[T]),
    // An escape, a forbidden item, mute on the item, then mute's own "audio off".
    (0xF0, &[]),
    (0xE1, &[]),
    (0x18, &[Mute]),
    (0x65, &[Mute]),
    // Muted: audio commands are refused, data is judged against the chosen audio.
    (0x80, &[Mute]),
    (0x14, &[Mute]),
    (0x1F, &[Mute]),
    (0x00, &[Mute]),
    (0x68, &[Mute]),
    (0x61, &[Mute]),
    (0x80, &[Mute, T]),
    // The release holds the offered code, which is offered again.
    (0xC5, &[]),
    (0xC5, &[T]),
    (0x65, &[A]),
    // Wrong lengths and a forged state, alone and together: the smallest number answers.
    (0x80, &[ShortLine]),
    (0x80, &[ShortVoice]),
    (0x80, &[ShortLsd]),
    (0x80, &[Forged]),
    (0x41, &[ShortLine, ShortVoice, ShortLsd]),
    (0x41, &[ShortLine, ShortVoice, ShortLsd, Forged]),
    // Neutral, words without effect on the mode, data alone over all bits.
    (0x00, &[]),
    (0x80, &[]),
    (0xF8, &[A, E, T]),
    (0xF9, &[]),
    (0x20, &[]),
    (0x6E, &[]),
    (0x80, &[E, T]),
    (0x0B, &[]),
    (0x60, &[T]),
    // Voice of 7 bits, muted and released; then another voice, and data that overlaps it or not.
    (0x12, &[]),
    (0x80, &[A]),
    (0x80, &[Mute]),
    (0x1B, &[]),
    (0x1B, &[]),
    (0x6A, &[]),
    (0x67, &[E]),
    // An escape while muted; its item comes before the release, which holds a code that is not
    // carried.
    (0x80, &[Mute]),
    (0xF1, &[Mute, T]),
    (0x80, &[]),
    (0x41, &[A, E, T]),
    // Audio off by the caller, which mute's own is not: the chosen audio goes too.
    (0x1F, &[]),
];

// What became of a call, as it is printed.
#[derive(Clone, Copy)]
struct Told(Result<Went, Refusal>);

impl fmt::Display for Told {
    fn fmt<W: fmt::Write>(&self, f: &mut fmt::Formatter<W>) -> fmt::Result {
        match self.0 {
            Ok(Went::Sent) => write!(f, "sent"),
            Ok(Went::Held) => write!(f, "held"),
            Err(why) => write!(f, "refused {}", u8::from(why)),
        }
    }
}

fn digit(d: u8) -> u8 {
    let low = d % 16;
    if low < 10 {
        b'0' + low
    } else {
        b'A' - 10 + low
    }
}

// A block in hex. Its digits are made by hand: with a format for each octet, a session takes more
// than four times the instructions.
fn print_line(rt: &impl Print, line: &[u8; buffers::LINE]) {
    for octet in line {
        let _ = rt.write_all(&[digit(octet / 16), digit(*octet)]);
    }
    let _ = println!(rt);
}

// Fills a stream. No octet is numbered past 255.
fn fill<F: Fn(usize) -> u8>(buffer: &mut [u8], octet: F)
    requires { F.IsAlwaysCallable octet }
{
    for (i, x) in buffer.iter_mut().enumerate() {
        *x = octet(i % 256);
    }
}

fn call_of(code: u8, ways: &[Way]) -> Call {
    Call {
        mute: ways.contains(&Mute),
        code,
        a: ways.contains(&A),
        e: ways.contains(&E),
        t: ways.contains(&T),
    }
}

fn print_call(rt: &impl Print, k: usize, call: Call) {
    let mute = if call.mute { 'm' } else { '-' };
    let a = if call.a { 'a' } else { '-' };
    let e = if call.e { 'e' } else { '-' };
    let t = if call.t { 't' } else { '-' };
    let _ = print!(rt; "{k} {:02X} {mute}{a}{e}{t} ", call.code);
}

fn print_outcome(rt: &impl Print, told: Told, s: Sender) {
    let _ = print!(rt; "{told}: chosen {} in force {}", s.chosen, s.mode.audio);
    let _ = print!(rt; " data {} block {}", s.mode.lsd, s.block.0);
    let _ = println!(rt; " due {} remainder {}", s.due, s.remainder);
}

// The call with its buffers lent whole, or without their last octet where its ways say so.
fn lent(
    state: &mut Sender,
    call: Call,
    ways: &[Way],
    voice: &[u8; buffers::VOICE],
    lsd: &[u8; buffers::LSD],
    line: &mut [u8; buffers::LINE],
) -> Result<Went, Refusal> {
    let line_end = buffers::LINE - usize::from(ways.contains(&ShortLine));
    let voice_end = buffers::VOICE - usize::from(ways.contains(&ShortVoice));
    let lsd_end = buffers::LSD - usize::from(ways.contains(&ShortLsd));
    sending::send(
        state,
        call,
        &voice[..voice_end],
        &lsd[..lsd_end],
        &mut line[..line_end],
    )
}

// Call k, printed with the state that it leaves, and with its block where it wrote one.
fn make(rt: &impl Print, state: &mut Sender, k: usize, code: u8, ways: &[Way]) {
    let mut line = [0u8; buffers::LINE];
    let mut voice = [0u8; buffers::VOICE];
    let mut lsd = [0u8; buffers::LSD];
    let number = k % 256;
    fill(
        &mut voice,
        |i| ((i % 256 * 7 + number * 31 + 3) % 251) as u8,
    );
    fill(&mut lsd, |i| ((i % 256 * 13 + number * 17 + 5) % 241) as u8);
    let call = call_of(code, ways);
    let answer = lent(state, call, ways, &voice, &lsd, &mut line);
    print_call(rt, k, call);
    print_outcome(rt, Told(answer), *state);
    if answer.is_ok() {
        print_line(rt, &line);
    }
}

// Every call of the script. A forged state, with a block numbered 9 that no session reaches, is for
// one call alone: the session goes on with its own.
fn session(rt: &impl Print) {
    let mut state = Sender::fresh();
    for (k, (code, ways)) in (1..).zip(SCRIPT) {
        if ways.contains(&Forged) {
            let mut forged = Sender {
                block: BlockNumber(9),
                ..state
            };
            make(rt, &mut forged, k, code, ways);
        } else {
            make(rt, &mut state, k, code, ways);
        }
    }
}

// What cannot be written is not told, and what follows is tried all the same: all that is written
// is compared with the file `stdout`.
fn main(rt: HostRuntime) {
    session(&rt);
}
