// A short lesson as a table, with a row for each call: voice on, page cues on, mute pressed where
// an escape has made the next word an item, mute held, mute released. Every block goes into a
// recording, which is listed as the far end reads it. The last line says what the far end got of
// the microphone while mute was set.
#![tactic(auto)]

use control::{Call, Went};
use modes::{AUDIO_OFF, Mode, Owner};
use reader::Reader;
use refusals::Refusal;
use sender::Sender;
use std::fmt;
use track::Report;
use words::Reading;

// The code of each call, up to the press. In the first six nothing happens, so that the far end
// finds its place. Then audio of 6 bits, page cues beside it, and an escape.
const BEFORE: [u8; 9] = [0x80, 0x80, 0x80, 0x80, 0x80, 0x80, 0x14, 0x65, 0xF0];

// The calls that find mute set: the item after the escape, two calls more, and an audio command,
// which mute refuses.
const MUTED: [u8; 4] = [0x25, 0x80, 0x80, 0x14];

const RELEASED: [u8; 2] = [0x80, 0x80];

// What the microphone says: zeros. A muted place carries ones, so every bit of the microphone
// shows.
const MICROPHONE: u8 = 0;

// How far the lesson is: the state that the next call finds, and the blocks that are recorded. They
// lie in room for a block of each call, and not in a Vec, so that no memory can run out.
#[derive(Clone, Copy)]
struct Lesson {
    state: Sender,
    blocks: usize,
    room: [u8; 2400],
}

// The far end, and what it got so far: bits of the microphone, and in which block "audio off" first
// came as a command.
#[derive(Clone, Copy)]
struct Heard {
    reader: Reader,
    bits: u64,
    off: Option<usize>,
}

// The word that a line says, as it is printed.
#[derive(Clone, Copy)]
struct Said(Option<u8>);

impl fmt::Display for Said {
    fn fmt<W: fmt::Write>(&self, f: &mut fmt::Formatter<W>) -> fmt::Result {
        match self.0 {
            Some(code) => write!(f, "{code:02X}"),
            None => write!(f, "--"),
        }
    }
}

// How many octets of voice a block has under a mode: 20 for each bit that the audio in force holds.
fn voice_octets(mode: Mode) -> usize {
    usize::from(mode.bits_per_frame(Owner::Voice) / 4)
}

// How many bits of the first octets of a stream are zero.
fn zeros(stream: &[u8], octets: usize) -> u64 {
    stream.iter().take(octets).fold(
        0,
        |bits, octet| bits.wrapping_add(u64::from(octet.count_zeros())),
    )
}

// What a block's voice places carry, taken out of the octets.
fn voice_places(mode: Mode, line: &[u8]) -> &'static str {
    let mut voice = [0u8; buffers::VOICE];
    let mut lsd = [0u8; buffers::LSD];
    let octets = voice_octets(mode);
    sorter::hand_out(line, mode, &mut voice, &mut lsd);
    if octets == 0 {
        "none"
    } else if zeros(&voice, octets) == 0 {
        "ones"
    } else {
        "voice"
    }
}

// A call's row: what it found, what became of it, and its block with the word in it, read back as
// the far end reads it.
fn tell(
    rt: &impl Print,
    block: usize,
    found: Sender,
    call: Call,
    answer: Result<Went, Refusal>,
    line: &[u8],
) {
    let code = call.code;
    let mute = if call.mute { "set" } else { "clear" };
    let became = match answer {
        Ok(Went::Sent) if found.due != 0 => "sent as item",
        Ok(Went::Sent) => "sent as command",
        Ok(Went::Held) => "held",
        Err(why) => {
            let number = u8::from(why);
            let _ = println!(rt;
                "    -  {mute:<7}{code:02X}       refused {number}        --           --"
            );
            return;
        }
    };
    let word = Said(bas::read_word(service::bas_word(line)));
    let places = voice_places(found.mode, line);
    let _ = println!(rt;
        "{block:>5}  {mute:<7}{code:02X}       {became:<17}{word}           {places}"
    );
}

impl Lesson {
    fn begun() -> Lesson {
        Lesson {
            state: Sender::fresh(),
            blocks: 0,
            room: [0; 2400],
        }
    }

    fn recording(&self) -> &[u8] {
        let end = self.blocks.wrapping_mul(buffers::LINE);
        self.room.get(..end).unwrap_or(&self.room)
    }

    // A block goes behind those that are recorded.
    fn record(&mut self, line: &[u8; buffers::LINE]) {
        let end = self.blocks.wrapping_mul(buffers::LINE);
        if let Some(place) = self
            .room
            .get_mut(end..)
            .and_then(|rest| rest.first_chunk_mut())
        {
            *place = *line;
            self.blocks = self.blocks.wrapping_add(1);
        }
    }

    // One call, made with the same voice and data each time, and told; a refused one writes no
    // block.
    fn step(&mut self, rt: &impl Print, mute: bool, code: u8) {
        let mut line = [0u8; buffers::LINE];
        let voice = [MICROPHONE; buffers::VOICE];
        let lsd = [51u8; buffers::LSD];
        let found = self.state;
        let call = Call {
            mute,
            code,
            a: false,
            e: false,
            t: false,
        };
        let answer = sending::send(&mut self.state, call, &voice, &lsd, &mut line);
        tell(rt, self.blocks, found, call, answer, &line);
        if answer.is_ok() {
            self.record(&line);
        }
    }

    // Calls one after the other, mute set or clear in all of them. How many blocks there are then.
    fn steps(&mut self, rt: &impl Print, mute: bool, codes: &[u8]) -> usize {
        for code in codes {
            self.step(rt, mute, *code);
        }
        self.blocks
    }
}

// What the far end makes of the recording.
fn tell_listing(rt: &impl Print, recording: &[u8]) {
    let mut listing = [0u8; 1024];
    let end = scribe::list(recording, &mut listing);
    if let Some(text) = listing.get(..end) {
        let _ = rt.write_all(text);
    }
}

impl Heard {
    // One block, read by the far end.
    fn hear(&mut self, block: usize, line: &[u8]) {
        let mut voice = [0u8; buffers::VOICE];
        let mut lsd = [0u8; buffers::LSD];
        let octets = voice_octets(self.reader.mode);
        let answer = reading::read(&mut self.reader, line, &mut voice, &mut lsd);
        let is_off = matches!(
            answer,
            Ok(Report {
                reading: Reading::Mended(AUDIO_OFF),
                ..
            })
        );
        self.bits = self.bits.wrapping_add(zeros(&voice, octets));
        if is_off && self.off.is_none() {
            self.off = Some(block);
        }
    }
}

// What a reader hears of the blocks from one number up to another.
fn listened(recording: &[u8], reader: Reader, from: usize, to: usize) -> Heard {
    let mut heard = Heard {
        reader,
        bits: 0,
        off: None,
    };
    let blocks = recording.chunks_exact(buffers::LINE).enumerate();
    for (block, line) in blocks.take(to).skip(from) {
        heard.hear(block, line);
    }
    heard
}

// What was seen of the blocks with mute set. The panel's mute is true where no bit of the
// microphone went, and the far end was told.
fn tell_seen(rt: &impl Print, blocks: usize, heard: Heard) {
    let bits = heard.bits;
    let _ = print!(rt; "after the press: {blocks} blocks with mute set, ");
    let _ = print!(rt; "{bits} bits of the microphone on the line, audio off ");
    let _ = match heard.off {
        Some(block) => print!(rt; "read as a command in block {block}"),
        None => print!(rt; "not read as a command"),
    };
    let _ = if heard.off.is_some() && bits == 0 {
        println!(rt; ": the panel's mute is true")
    } else {
        println!(rt; ": THE PANEL'S MUTE IS NOT TRUE")
    };
}

// What cannot be written is not told, and what follows is tried all the same: all that is written
// is compared with the file `stdout`.
fn main(rt: HostRuntime) {
    let mut lesson = Lesson::begun();
    let _ = println!(rt; "block  mute   offered  became of it     on the line  voice places");
    let from = lesson.steps(&rt, false, &BEFORE);
    let to = lesson.steps(&rt, true, &MUTED);
    lesson.steps(&rt, false, &RELEASED);
    let _ = println!(rt; "\nthe lesson, listed as the far end reads it:");
    tell_listing(&rt, lesson.recording());
    let _ = println!(rt);
    // the far end reads the blocks before the press first
    let before = listened(lesson.recording(), Reader::fresh(), 0, from);
    let heard = listened(lesson.recording(), before.reader, from, to);
    tell_seen(&rt, to.wrapping_sub(from), heard);
}
