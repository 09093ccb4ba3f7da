// What comes to a program. Of standard input: octets up to a buffer's end or the input's, and
// whether a read failed, which is no end of the input. Of the arguments: how many there are.
#![tactic(auto)]

ghost use Rattle.std.specs.Prelude.{◌<◌, IfErr, IfOk, length, take};
ghost use Rattle.std.specs.Io.KnownBytes.{Consumes, IsAtEnd, Keeps};
ghost use Rattle.intake.specs.Counts.{IsPrefixLen};

use std::env::FillError;
use std::io::Read;
use std::rt::Env;

// A read failed, after so many octets had come to the start of the buffer.
#[derive(Clone, Copy, Debug, PartialEq, Eq)]
pub struct Cut {
    pub octets: usize,
}

// Reads until the buffer is full, the input ends or a read fails. How many octets came, at the
// start of the buffer.
pub fn fill<R: Read>(input: &mut R, buffer: &mut [u8]) -> Result<usize, Cut>
    ensures count { IfOk result (λ n. IsPrefixLen n buffer.new) }
    ensures taken { IfOk result (λ n.
        Consumes (R.remaining input.old) (R.remaining input.new) (take n buffer.new)) }
    ensures end { IfOk result (λ n. n < length buffer.new → IsAtEnd (R.remaining input.new)) }
    ensures cut_count { IfErr result (λ cut. IsPrefixLen cut.octets buffer.new) }
    ensures cut_taken { IfErr result (λ cut.
        Consumes (R.remaining input.old) (R.remaining input.new) (take cut.octets buffer.new)) }
{
    let mut n = 0;
    while n < buffer.len() {
        match input.read(&mut buffer[n..]) {
            Ok(0) => return Ok(n),
            Ok(more) => n += more,
            Err(_) => return Err(Cut { octets: n }),
        }
    }
    Ok(n)
}

// Whether an input can be read at all. A read of no octets takes nothing, and fails where it
// cannot, as for a folder.
pub fn is_open<R: Read>(input: &mut R) -> bool
    ensures { Keeps (R.remaining input.old) (R.remaining input.new) }
{
    input.read(&mut []).is_ok()
}

// How many arguments the program was started with, its own name among them. One that has no room
// here is there all the same.
pub fn arg_count(rt: &impl Env) -> usize {
    (0..usize::MAX)
        .find(|i| matches!(rt.arg(*i, &mut []), Err(FillError::NotPresent)))
        .unwrap_or(usize::MAX)
}
