// Reads a collection of recordings, each by a fresh reader, and then makes calls that every refusal
// number of a reader answers. What it prints is held to the file `stdout`, which the model in Rust
// writes from the same collection, the file `stdin`.
#![tactic(auto)]

use numbers::BlockNumber;
use reader::Reader;
use refusals::Refusal;
use std::fmt;
use std::io::Read;
use track::{Report, Standing, Verdict};
use words::Reading;

// What is wrong with a call.
#[derive(Clone, Copy, PartialEq, Eq)]
enum Fault {
    Line,
    Voice,
    Lsd,
    State,
}

// The refused calls. With several things wrong the smallest number answers.
const REFUSED: [&[Fault]; 6] = [
    &[Fault::State],
    &[Fault::Line],
    &[Fault::Voice],
    &[Fault::Lsd],
    &[Fault::Line, Fault::Voice, Fault::Lsd, Fault::State],
    &[Fault::Line, Fault::Voice, Fault::Lsd],
];

// What buffers hold before a refused call.
const FILLED: u8 = 0xAA;

// More recordings than any collection holds, so that the count of them ends.
const MOST: u64 = 0xFFFF_FFFF;

// The collection ends within a recording.
#[derive(Clone, Copy, Debug)]
struct Short;

// What a reader made of a block, as it is printed.
#[derive(Clone, Copy)]
struct Told(Result<Report, Refusal>);

impl fmt::Display for Told {
    fn fmt<W: fmt::Write>(&self, f: &mut fmt::Formatter<W>) -> fmt::Result {
        match self.0 {
            Ok(report) => {
                let standing = standing_name(report);
                let verdict = verdict_name(report);
                write!(f, "{standing} {verdict} {}", Word(report.reading))
            }
            Err(why) => write!(f, "refused {}", u8::from(why)),
        }
    }
}

fn standing_name(report: Report) -> &'static str {
    match report.standing {
        Standing::Waiting => "waiting",
        Standing::Read => "read",
        Standing::Lost => "lost",
    }
}

fn verdict_name(report: Report) -> &'static str {
    match report.verdict {
        Verdict::None => "none",
        Verdict::Good => "good",
        Verdict::Bad => "bad",
    }
}

// How a block's word was read, as it is printed.
#[derive(Clone, Copy)]
struct Word(Reading);

impl fmt::Display for Word {
    fn fmt<W: fmt::Write>(&self, f: &mut fmt::Formatter<W>) -> fmt::Result {
        match self.0 {
            Reading::Mended(code) => write!(f, "mended {code:02X}"),
            Reading::Item(code) => write!(f, "item {code:02X}"),
            Reading::MessageWord(code) => write!(f, "message {code:02X}"),
            Reading::ForbiddenItem(code) => write!(f, "forbidden {code:02X}"),
            Reading::NotFollowed(code) => write!(f, "not followed {code:02X}"),
            Reading::Unreadable => write!(f, "unreadable"),
            Reading::NotRead => write!(f, "not read"),
        }
    }
}

fn digit(d: u8) -> u8 {
    let low = d % 16;
    if low < 10 {
        b'0' + low
    } else {
        b'A' - 10 + low
    }
}

// A stream in hex without its trailing zeros. Its digits are made by hand: with a format for each
// octet a replay takes four to five times the instructions.
fn print_stream(rt: &impl Print, name: &str, octets: &[u8]) {
    let _ = print!(rt; "  {name} ");
    let used = octets
        .iter()
        .rposition(|octet| *octet != 0)
        .map_or(&[][..], |last| &octets[..=last]);
    if used.is_empty() {
        let _ = print!(rt; "-");
    }
    for octet in used {
        let _ = rt.write_all(&[digit(octet / 16), digit(*octet)]);
    }
    let _ = println!(rt);
}

fn print_state(rt: &impl Print, s: Reader) {
    let _ = print!(rt;
        "  mode {} {} kept {} {} wrong {}",
        s.mode.audio, s.mode.lsd, s.kept.audio, s.kept.lsd, s.wrong
    );
    let _ = print!(rt;
        " block {} firsts {} misses {}",
        s.block.0, s.firsts, s.misses
    );
    let _ = print!(rt; " due {} {}", s.slot.kind, s.slot.words);
    let _ = println!(rt; " before {} remainder {}", s.before, s.remainder);
}

// What cannot be written is not told, and what follows is tried all the same.
fn print_block(rt: &impl Print, k: u64, told: Told, voice: &[u8], lsd: &[u8], state: Reader) {
    let _ = println!(rt; "{k} {told}");
    print_stream(rt, "voice", voice);
    print_stream(rt, "data", lsd);
    print_state(rt, state);
}

// Takes block k of a recording off the collection, and prints it with the state that it leaves.
fn next_block(
    rt: &impl Print,
    input: &mut impl Read,
    state: &mut Reader,
    k: u64,
) -> Result<(), Short> {
    let mut line = [0u8; buffers::LINE];
    let mut voice = [0u8; buffers::VOICE];
    let mut lsd = [0u8; buffers::LSD];
    if intake::fill(input, &mut line) != Ok(buffers::LINE) {
        return Err(Short);
    }
    let answer = reading::read(state, &line, &mut voice, &mut lsd);
    print_block(rt, k, Told(answer), &voice, &lsd, *state);
    Ok(())
}

// Hands every block to one reader, also after a loss: nothing is searched for.
fn recording_read(
    rt: &impl Print,
    input: &mut impl Read,
    number: u64,
    blocks: u8,
) -> Result<(), Short> {
    if blocks == 0 {
        return Err(Short);
    }
    let _ = println!(rt; "recording {number}: {blocks} blocks");
    let mut state = Reader::fresh();
    for k in 1..=blocks {
        next_block(rt, input, &mut state, u64::from(k))?;
    }
    Ok(())
}

// How many blocks the next recording has. A collection that cannot be read on is at its end.
fn blocks_ahead(input: &mut impl Read) -> Option<u8> {
    let mut count = [0u8; 1];
    match intake::fill(input, &mut count) {
        Ok(1) => Some(count[0]),
        _ => None,
    }
}

// Reads the collection to its end.
fn collection_read(rt: &impl Print, input: &mut impl Read) -> Result<(), Short> {
    for number in 1..MOST {
        let Some(blocks) = blocks_ahead(input) else {
            break;
        };
        recording_read(rt, input, number, blocks)?;
    }
    Ok(())
}

// The call with its buffers lent whole, or without their last octet where that is its fault.
fn lent(
    state: &mut Reader,
    faults: &[Fault],
    line: &[u8; buffers::LINE],
    voice: &mut [u8; buffers::VOICE],
    lsd: &mut [u8; buffers::LSD],
) -> Result<Report, Refusal> {
    let line_end = buffers::LINE - usize::from(faults.contains(&Fault::Line));
    let voice_end = buffers::VOICE - usize::from(faults.contains(&Fault::Voice));
    let lsd_end = buffers::LSD - usize::from(faults.contains(&Fault::Lsd));
    reading::read(
        state,
        &line[..line_end],
        &mut voice[..voice_end],
        &mut lsd[..lsd_end],
    )
}

// One refused call, and whether it left the state and the buffers as they were. A wrong state has a
// block numbered 9, which no reader reaches.
fn refused(rt: &impl Print, faults: &[Fault]) {
    let line = [FILLED; buffers::LINE];
    let mut voice = [FILLED; buffers::VOICE];
    let mut lsd = [FILLED; buffers::LSD];
    let mut given = Reader::fresh();
    if faults.contains(&Fault::State) {
        given.block = BlockNumber(9);
    }
    let mut state = given;
    let answer = lent(&mut state, faults, &line, &mut voice, &mut lsd);
    let untouched = state == given && voice.iter().chain(&lsd).all(|octet| *octet == FILLED);
    let touch = if untouched { "untouched" } else { "touched" };
    let _ = println!(rt; "{} {touch}", Told(answer));
}

fn all_refused(rt: &impl Print) {
    for faults in REFUSED {
        refused(rt, faults);
    }
}

// The exit status is 0 also where the collection is not whole or what is said cannot be written:
// only the message tells of the first.
fn main(rt: HostRuntime) {
    match collection_read(&rt, &mut rt.stdin()) {
        Ok(()) => all_refused(&rt),
        Err(Short) => {
            let _ = eprintln!(rt; "reading: the collection ends within a recording");
        }
    }
}
