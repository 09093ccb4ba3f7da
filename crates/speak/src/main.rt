// Frames voice from standard input into a recording on standard output. The arguments are calls,
// made one after the other from a fresh state; each that is accepted gives a block of 160 octets,
// and standard error tells what became of each. Where a word is no call, nothing is sent.
#![tactic(auto)]

use control::{Call, Went};
use modes::{Mode, Owner};
use refusals::Refusal;
use sender::Sender;
use std::fmt;
use std::io::Input;
use std::rt::Env;
use text::Page;

const NOTATION: &str =
    "A call is HH, HH:FLAGS, HH*N or HH:FLAGS*N: the offered code in hex, letters out of m (mute), \
     a, e, t,\nand a count from 1 to 999. Voice is taken from standard input; \
     the recording goes to standard output.";

// What a word asks for: a call, and how often.
#[derive(Clone, Copy)]
struct Word {
    call: Call,
    times: u16,
}

// Why the sending ends before the last call.
#[derive(Clone, Copy, Debug)]
enum Stop {
    Unread,
    Unwritten,
}

impl fmt::Display for Stop {
    fn fmt<W: fmt::Write>(&self, f: &mut fmt::Formatter<W>) -> fmt::Result {
        match self {
            Stop::Unread => write!(f, "standard input cannot be read"),
            Stop::Unwritten => write!(f, "standard output cannot be written"),
        }
    }
}

// How far the sending is: the state that the next call finds, and its number.
#[derive(Clone, Copy)]
struct Session {
    state: Sender,
    number: usize,
}

// What became of a call that found this block number; `audio` is in force after it.
#[derive(Clone, Copy)]
struct Told {
    answer: Result<Went, Refusal>,
    block: u8,
    audio: u8,
}

// A call's line is written by the crates that are proved for it (DECISIONS F18).
impl Told {
    fn put(self, page: &mut Page) {
        match self.answer {
            Ok(Went::Sent) => {
                page.put_all(b" sent");
                self.put_in_block(page);
            }
            Ok(Went::Held) => {
                page.put_all(b" held, ");
                digits::put_hex(page, self.audio);
                page.put_all(b" went");
                self.put_in_block(page);
            }
            Err(why) => {
                page.put_all(b" refused ");
                digits::put_decimal(page, usize::from(u8::from(why)));
            }
        }
    }

    fn put_in_block(self, page: &mut Page) {
        page.put_all(b" in block ");
        digits::put_decimal(page, usize::from(self.block));
    }
}

// Argument i, named as far as it has room here. What cannot be told to standard error can be told
// nowhere.
fn tell_wrong(rt: &impl Env, err: &impl Print, i: usize) {
    let mut octets = [0u8; 64];
    let (n, rest) = match rt.arg(i, &mut octets) {
        Ok(n) => (n, ""),
        Err(_) => (64, "..."),
    };
    let _ = err.print("speak: \"");
    let _ = err.write_all(&octets[..n]);
    let _ = println!(err; "{rest}\" is no call\n{NOTATION}");
}

// A code is two digits in hex. They are looked at first, since a sign is no part of a code.
fn read_code(code: &str) -> Option<u8> {
    if code.len() == 2 && code.bytes().all(|c| c.is_ascii_hexdigit()) {
        u8::from_str_radix(code, 16).ok()
    } else {
        None
    }
}

// A count is 1 to 999, in decimal digits and without a sign.
fn read_count(count: &str) -> Option<u16> {
    if count.bytes().all(|c| c.is_ascii_digit()) {
        count.parse().ok().filter(|n| matches!(n, 1..=999))
    } else {
        None
    }
}

fn read_call(code: u8, flags: &str) -> Option<Call> {
    let mut call = Call {
        mute: false,
        code,
        a: false,
        e: false,
        t: false,
    };
    for flag in flags.bytes() {
        match flag {
            b'm' => call.mute = true,
            b'a' => call.a = true,
            b'e' => call.e = true,
            b't' => call.t = true,
            _ => return None,
        }
    }
    Some(call)
}

fn read_word(word: &str) -> Option<Word> {
    let (head, times) = match word.split_once('*') {
        Some((head, count)) => (head, read_count(count)?),
        None => (word, 1),
    };
    let (code, flags) = head.split_once(':').unwrap_or((head, ""));
    let call = read_call(read_code(code)?, flags)?;
    Some(Word { call, times })
}

// Argument i, where it is a call. One that has no room here is none.
fn word_at(rt: &impl Env, i: usize) -> Option<Word> {
    let mut octets = [0u8; 64];
    let n = rt.arg(i, &mut octets).ok()?;
    read_word(str::from_utf8(&octets[..n]).ok()?)
}

// The voice of the next block: 20 octets for each bit that the audio in force holds, from standard
// input. What is missing is zero.
fn voice_under(rt: &impl Input, mode: Mode, mute: bool) -> Result<[u8; buffers::VOICE], Stop> {
    let mut voice = [0u8; buffers::VOICE];
    let octets = usize::from(mode.bits_per_frame(Owner::Voice) / 4);
    if !mute && octets <= buffers::VOICE {
        intake::fill(&mut rt.reader(), &mut voice[..octets]).map_err(|_| Stop::Unread)?;
    }
    Ok(voice)
}

impl Session {
    // The line of a call that was made and found this block number. It is written at once, so that
    // it stays whole beside those of another program. The next call has the next number.
    fn tell(&mut self, err: &impl Print, code: u8, block: u8, answer: Result<Went, Refusal>) {
        let told = Told {
            answer,
            block,
            audio: self.state.mode.audio,
        };
        let mut line = [0u8; 64];
        let mut page = Page::new(&mut line);
        page.put_all(b"call ");
        digits::put_decimal(&mut page, self.number);
        page.put_all(b": ");
        digits::put_hex(&mut page, code);
        told.put(&mut page);
        page.put(b'\n');
        let end = page.end();
        if let Some(text) = line.get(..end) {
            let _ = err.write_all(text);
        }
        self.number = self.number.wrapping_add(1);
    }

    // A call that is accepted: its voice is taken, and its block written. Where its voice cannot be
    // read, nothing is written.
    fn frame(
        &mut self,
        rt: &(impl Input + Print),
        err: &impl Print,
        call: Call,
    ) -> Result<(), Stop> {
        let mut line = [0u8; buffers::LINE];
        let lsd = [0u8; buffers::LSD];
        let block = self.state.block.0;
        let voice = voice_under(rt, self.state.mode, call.mute)?;
        let answer = sending::send(&mut self.state, call, &voice, &lsd, &mut line);
        rt.write_all(&line).map_err(|_| Stop::Unwritten)?;
        self.tell(err, call.code, block, answer);
        Ok(())
    }

    // One call. It is tried with silence first, since a refused one takes no voice.
    fn make(
        &mut self,
        rt: &(impl Input + Print),
        err: &impl Print,
        call: Call,
    ) -> Result<(), Stop> {
        let mut line = [0u8; buffers::LINE];
        let silence = [0u8; buffers::VOICE];
        let lsd = [0u8; buffers::LSD];
        let mut trial = self.state;
        let answer = sending::send(&mut trial, call, &silence, &lsd, &mut line);
        if answer.is_ok() {
            return self.frame(rt, err, call);
        }
        self.tell(err, call.code, trial.block.0, answer);
        Ok(())
    }

    // A call, repeated as its word says.
    fn repeat(
        &mut self,
        rt: &(impl Input + Print),
        err: &impl Print,
        word: Word,
    ) -> Result<(), Stop> {
        for _ in 0..word.times {
            self.make(rt, err, word.call)?;
        }
        Ok(())
    }
}

// Makes every call of the arguments. The first blocks may have no voice: a standard input that
// cannot be read is told before one of them is written.
fn all_sent(rt: &(impl Env + Input + Print), err: &impl Print, count: usize) -> Result<(), Stop> {
    if !intake::is_open(&mut rt.reader()) {
        return Err(Stop::Unread);
    }
    let mut session = Session {
        state: Sender::fresh(),
        number: 1,
    };
    for word in (1..count).filter_map(|i| word_at(rt, i)) {
        session.repeat(rt, err, word)?;
    }
    Ok(())
}

fn main(rt: HostRuntime) {
    let count = intake::arg_count(&rt);
    if count < 2 {
        let _ = eprintln!(rt; "speak: no call is given\n{NOTATION}");
        return;
    }
    // every argument has to be a call; the first that is none is told
    if let Some(i) = (1..count).find(|i| word_at(&rt, *i).is_none()) {
        tell_wrong(&rt, &rt.stderr(), i);
    } else if let Err(stop) = all_sent(&rt, &rt.stderr(), count) {
        let _ = eprintln!(rt; "speak: {stop}");
    }
}
