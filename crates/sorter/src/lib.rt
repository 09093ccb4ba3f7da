// Voice and data sorted out of a block's octets, each into a buffer of its own (document 01, 'Reading a block').
#![tactic(auto)]

ghost use Rattle.std.specs.Prelude.{◌≡◌, true, ◌++◌, ◌+◌, ◌-◌, ◌*◌, ◌%◌, ◌≤◌, length};
ghost use Rattle.bits.specs.Bits.{bits_of, octets};
ghost use Rattle.packing.specs.Filled.{runs, Filled};
ghost use Rattle.places.specs.Streams.{sort};
ghost use Rattle.buffers.specs.Buffers.{each, lengths};
ghost use Rattle.buffers.specs.Lengths.{line_octets, fitting};
ghost use Rattle.places.specs.Layout.{Apart, rows_by, in_eights};
ghost use Rattle.modes.specs.declared.Owner.TheVariants.{Voice, Lsd};
ghost use Rattle.sorter.specs.Sofar.{sofar};
ghost use Rattle.sorter.specs.Sorting.{buffers_after};

use buffers::LINE;
use modes::Mode;
use packing::Run;
use places::Layout;

// A stream that has one run in every octet of a block.
fn sort_columns(line: &[u8; LINE], run: Run, out: &mut [u8])
    ensures { out.new ≡ octets (length out.old) (runs run.start run.bits line.now 0 line_octets) }
{
    out.fill(0);
    packing::sort_run(line, 0, LINE, run, out, 0);
}

// Voice out of a block.
fn sort_voice(line: &[u8; LINE], p: Layout, out: &mut [u8])
    requires apart { Apart p }
    ensures { out.new ≡ octets (length out.old) (sort Voice (rows_by p 80 ++ rows_by p 80) (bits_of line.now)) }
{
    let run = Run {
        start: 0,
        bits: p.width as usize,
    };
    sort_columns(line, run, out);
}

// Data out of the frame that follows octet `from`, where its SC octets are whole eights: in these the run goes on into the SC bit, which is
// an octet's last, and in the octets before and after them it does not. The answer is how many octets the buffer then has.
fn sort_frame(line: &[u8; LINE], p: Layout, from: usize, out: &mut [u8], start: usize) -> usize
    requires apart { Apart p }
    requires p_value { (in_eights p ≡ true) × (from % 80 ≡ 0) × (from + 80 ≤ line_octets) × (start ≤ from) }
    ensures { (result ≤ from + 80) × (Filled (sofar p Lsd line.now from) (start * 8) out.old → Filled (sofar p Lsd line.now (from + 80)) (result * 8) out.new) }
{
    let c = p.columns as usize;
    let first = p.first as usize;
    let last = p.last as usize;
    let bit = 7 - c;
    let without = Run {
        start: bit,
        bits: c,
    };
    let with_sc = Run {
        start: bit,
        bits: c + 1,
    };
    let before = packing::sort_run(line, from, from + (first - 1), without, out, start);
    let inside = packing::sort_run(line, from + (first - 1), from + last, with_sc, out, before);
    packing::sort_run(line, from + last, from + 80, without, out, inside)
}

// Data that has SC octets, out of a block: by runs, or, where they are no whole eights and so are all that it has, bit by bit.
fn sort_with_sc(line: &[u8; LINE], p: Layout, lsd: &mut [u8])
    requires apart { Apart p }
    requires lsd_len { 20 ≤ length lsd.old }
    ensures { lsd.new ≡ octets (length lsd.old) (sort Lsd (rows_by p 80 ++ rows_by p 80) (bits_of line.now)) }
{
    lsd.fill(0);
    if places::in_eights(p) {
        let half = sort_frame(line, p, 0, lsd, 0);
        sort_frame(line, p, 80, lsd, half);
        return;
    }
    let first = p.first as usize;
    let last = p.last as usize;
    let half = packing::sort_bits(line, first - 1, last, lsd, 0);
    packing::sort_bits(line, first + 79, last + 80, lsd, half);
}

// Data out of a block: where it has no SC octets, one run in every octet is all.
fn sort_lsd(line: &[u8; LINE], p: Layout, out: &mut [u8])
    requires apart { Apart p }
    requires out_len { 20 ≤ length out.old }
    ensures { out.new ≡ octets (length out.old) (sort Lsd (rows_by p 80 ++ rows_by p 80) (bits_of line.now)) }
{
    let c = p.columns as usize;
    let run = Run {
        start: 7 - c,
        bits: c,
    };
    if p.last < p.first {
        sort_columns(line, run, out);
        return;
    }
    sort_with_sc(line, p, out);
}

// Voice and data of a block under a mode, each into its own buffer, which is zero past the stream's end.
// Where one of the three lengths is wrong, nothing is written and the answer is false.
pub fn hand_out(line: &[u8], mode: Mode, voice: &mut [u8], lsd: &mut [u8]) -> bool
    ensures { (result ≡ fitting (length line.now) (lengths (each voice.old lsd.old)))
        × (each voice.new lsd.new ≡ buffers_after mode line.now (each voice.old lsd.old)) }
{
    if !buffers::lengths_fit(line.len(), voice.len(), lsd.len()) {
        return false;
    }
    let block = line.as_array().unwrap();
    let p = places::layout_of(mode);
    sort_voice(block, p, voice);
    sort_lsd(block, p, lsd);
    true
}
