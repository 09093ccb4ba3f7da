// The buffers that calls are lent: how many octets each has, and the rows of a call that look at them (document 01, 'Codes and bit places'
// and 'Refusal numbers').
#![tactic(auto)]

ghost use Rattle.std.specs.Prelude.{◌≡◌};
ghost use Rattle.buffers.specs.Buffers.{each};
ghost use Rattle.buffers.specs.Lengths.{fitting, line_row, stream_rows};

use refusals::{Refusal, Row};

// The octets of a line block, of a voice buffer and of a data buffer.
pub const LINE: usize = 160;

pub const VOICE: usize = 140;

pub const LSD: usize = 156;

// Whether a line block, a voice buffer and a data buffer have these lengths.
pub fn lengths_fit(line: usize, voice: usize, lsd: usize) -> bool
    ensures { result ≡ fitting line (each voice lsd) }
{
    (line == LINE) & (voice == VOICE) & (lsd == LSD)
}

// Row 2, which looks at the length of a line block.
pub fn line_row(line: usize) -> Row
    ensures { result ≡ line_row line }
{
    Refusal::LineLength.row(line != LINE)
}

// Rows 3 and 4, which look at the lengths of the two streams' buffers.
pub fn stream_rows(voice: usize, lsd: usize) -> [Row; 2]
    ensures { result ≡ stream_rows (each voice lsd) }
{
    [
        Refusal::VoiceLength.row(voice != VOICE),
        Refusal::LsdLength.row(lsd != LSD),
    ]
}
