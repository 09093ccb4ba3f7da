// Takes the voice out of a recording: standard input is searched for alignment and walked over, and
// the voice of each block that is read goes to standard output. The listing of the recording goes
// to standard error.
#![tactic(auto)]

use modes::{Mode, Owner};
use reader::Reader;
use recording::{Met, Stand};
use std::io;
use track::{Report, Standing};

// What cannot be told to standard error can be told nowhere. The buffers are arrays, since memory
// that is set aside from the start cannot run out.
fn tell_listing(err: &impl Print, recording: &[u8]) {
    // More than a listing of 409 blocks takes.
    let mut listing = [0u8; 16_384];
    let end = scribe::list(recording, &mut listing);
    if let Some(text) = listing.get(..end) {
        let _ = err.write_all(text);
    }
}

// Writes the octets of a block's voice that count: 20 for each bit that the audio in force held.
fn write_voice(out: &impl Print, mode: Mode, voice: &[u8; buffers::VOICE]) -> io::Result<()> {
    let octets = usize::from(mode.bits_per_frame(Owner::Voice) / 4);
    match voice.get(..octets) {
        Some(counted) => out.write_all(counted),
        None => Ok(()),
    }
}

// Walks from a place that was found. A recording has more octets than a walk over it has steps.
fn walked(out: &impl Print, recording: &[u8], start: usize) -> io::Result<()> {
    let mut stand = Stand {
        place: start,
        lost: false,
    };
    let mut reader = Reader::fresh();
    for _ in recording {
        let mut voice = [0u8; buffers::VOICE];
        let mut lsd = [0u8; buffers::LSD];
        let mode = reader.mode;
        match walk::step_from(recording, &mut stand, &mut reader, &mut voice, &mut lsd) {
            Ok(
                Met::Block(
                    Report {
                        standing: Standing::Read,
                        ..
                    },
                ),
            ) => write_voice(out, mode, &voice)?,
            Ok(Met::Block(_) | Met::Place(_)) => {}
            Ok(Met::End(_)) | Err(_) => break,
        }
    }
    Ok(())
}

fn heard(out: &impl Print, err: &impl Print, recording: &[u8]) {
    tell_listing(err, recording);
    if let Ok(start) = search::search(recording, 0)
        && walked(out, recording, start).is_err()
    {
        let _ = err.println("hear: standard output cannot be written");
    }
}

const USE: &str = "hear: takes no arguments. It reads a recording from standard input, \
     writes the voice in it to standard output,\nand lists its blocks on standard error.";

fn main(rt: HostRuntime) {
    let err = rt.stderr();
    // One octet more than a recording may have, so that a longer input is known for too long.
    let mut recording = [0u8; 65_537];
    if 1 < intake::arg_count(&rt) {
        let _ = err.println(USE);
        return;
    }
    match intake::fill(&mut rt.stdin(), &mut recording) {
        Ok(n) => heard(&rt, &err, &recording[..n]),
        Err(_) => {
            let _ = err.println("hear: standard input cannot be read");
        }
    }
}
