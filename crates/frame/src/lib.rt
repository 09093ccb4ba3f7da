// The writer: both frames of a block, from its header, voice and data (document 01, 'Codes and bit places' and 'Sending a block').
#![tactic(auto)]

ghost use Rattle.std.specs.Prelude.{◌≡◌, ◌++◌, ◌+◌, ◌-◌, ◌*◌, ◌/◌, ◌%◌, length};
ghost use Rattle.bits.specs.Bits.{odd, bits_of, low_bits, octet_bits, octets};
ghost use Rattle.places.specs.Streams.{fill};
ghost use Rattle.frame.specs.Block.{service_bits, line_after};
ghost use Rattle.halves.specs.Sources.{heard, by_owner};
ghost use Rattle.buffers.specs.Buffers.{each, lengths};
ghost use Rattle.buffers.specs.Lengths.{line_octets, fitting};
ghost use Rattle.places.specs.Layout.{rows_by};
ghost use Rattle.halves.specs.Frame.{Ready};

use modes::Mode;
use numbers::BlockNumber;
use places::Layout;

// What stands in the service channel of a block, beside its alignment: A, E and T, the block's number, the remainder of the block before and the BAS code.
#[derive(Clone, Copy)]
pub struct Header {
    pub a: bool,
    pub e: bool,
    pub t: bool,
    pub block: BlockNumber,
    pub remainder: u8,
    pub code: u8,
}

// A frame's sixteen service bits as a number: its row, and its half of the BAS word.
fn service_word(row: [bool; 8], half: u8) -> u16
    ensures { low_bits 16 result ≡ row ++ octet_bits half }
{
    let first = bits::octet(row);
    (first as u16) * 256 + (half as u16)
}

// The service bits of a block's two frames.
#[derive(Clone, Copy)]
struct Service {
    even: u16,
    odd: u16,
}

fn service_of(header: Header) -> Service
    ensures { low_bits 16 result.even ++ low_bits 16 result.odd ≡ service_bits header }
{
    let rows = service::service_rows(header.a, header.e, header.t, header.remainder);
    let block = header.block;
    let i = block.even_frame().0 as usize;
    let j = block.odd_frame().0 as usize;
    let word = bas::line_order(bas::word_of(header.code));
    let even = rows[i];
    let odd = rows[j];
    Service {
        even: service_word(even, (word / 256) as u8),
        odd: service_word(odd, (word % 256) as u8),
    }
}

// Both frames of a block: the odd half is filled apart from the even half, and goes on in voice and data where that ended.
fn fill_block(line: &mut [u8], p: Layout, service: Service, mute: bool, voice: &[u8], lsd: &[u8])
    requires line_len { length line.old ≡ line_octets }
    requires ready { Ready p voice.now 0 lsd.now 0 }
    ensures { line.new ≡ octets line_octets (fill (rows_by p 80 ++ rows_by p 80) (by_owner (low_bits 16 service.even ++ low_bits 16 service.odd) (heard mute (bits_of voice.now)) (bits_of lsd.now))) }
{
    let w = p.width as usize;
    let c = p.columns as usize;
    let d = 80 * c + (p.last as usize + 1 - p.first as usize);
    let (even, rest) = line.split_first_chunk_mut().unwrap();
    let odd = rest.as_mut_array().unwrap();
    halves::write_frame(even, p, service.even, mute, voice, 0, lsd, 0);
    halves::write_frame(odd, p, service.odd, mute, voice, 80 * w, lsd, d);
}

// Writes a block into a line of 160 octets, from 140 octets of voice and 156 of data. Where a length is wrong nothing is written,
// and the answer is false (DECISIONS F11).
pub fn write_block(
    line: &mut [u8],
    mode: Mode,
    header: Header,
    mute: bool,
    voice: &[u8],
    lsd: &[u8],
) -> bool
    ensures { (result ≡ fitting (length line.old) (lengths (each voice.now lsd.now)))
        × (line.new ≡ line_after mode header mute (each voice.now lsd.now) line.old) }
{
    if !buffers::lengths_fit(line.len(), voice.len(), lsd.len()) {
        return false;
    }
    let p = places::layout_of(mode);
    fill_block(line, p, service_of(header), mute, voice, lsd);
    true
}
