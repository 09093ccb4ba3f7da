// The ten eights of a frame: fields of a buffer laid into them, single bits cut into them, and their octets written.
#![tactic(auto)]

ghost use Rattle.std.specs.Prelude.{◌≡◌, true, ℕ, ◌+◌, ◌-◌, ◌*◌, ◌^◌, ◌<◌, ◌≤◌, length, get_or, drop};
ghost use Rattle.std.proofs.Math.Seq.{paste};
ghost use Rattle.bits.specs.Bits.{nexts, bits_of, digit, number};
ghost use Rattle.eights.specs.Eight.{eights, own_at, raised_by, octets_in, all_octets, Laid};

use eights::Fields;
use std::ops::Range;

// A run of a frame's ten eights is set to a number. The eights before are as they were.
fn fill_eights(lanes: &mut [usize; 10], run: Range<usize>, word: usize)
    requires { (run.start ≤ run.end) × (run.end ≤ 10) }
    ensures { Laid lanes.old lanes.new run.start run.end (λ k. word) }
{
    eights::set_eights(lanes, run, |_, _| word);
}

// A run of a frame's ten eights is set to octets, n of them each. The eights before are as they were.
fn load_eights(lanes: &mut [usize; 10], run: Range<usize>, octets: &[u8], n: usize)
    requires run_in { (run.start ≤ run.end) × (run.end ≤ 10) }
    requires n_in_bounds { (0 < n) × (n ≤ 8) × ((run.end - run.start) * n ≤ length octets.now) }
    ensures { Laid lanes.old lanes.new run.start run.end (λ k. number (nexts (8 * n) (drop (8 * ((k - run.start) * n)) (bits_of octets.now)))) }
{
    let first = run.start;
    eights::set_eights(
        lanes,
        run,
        |k, _| eights::octets_at(octets, (k - first) * n, n),
    );
}

// The same as `lay`, where there are fields.
fn lay_fields(lanes: &mut [usize; 10], run: Range<usize>, octets: &[u8], fields: Fields)
    requires run_in { (run.start ≤ run.end) × (run.end ≤ 10) }
    requires n_in_bounds { (0 < fields.bits) × ((run.end - run.start) * fields.bits ≤ length octets.now) }
    ensures { Laid lanes.old lanes.new run.start run.end (λ k. raised_by fields.bits fields.up fields.below (drop (8 * ((k - run.start) * fields.bits)) (bits_of octets.now))) }
{
    load_eights(lanes, run.start..run.end, octets, fields.bits);
    eights::spread_by_width(lanes, run, fields);
}

// A run of a frame's ten eights: fields of the bits of some octets. Where they have no bits there is what is below them alone. The eights
// before are as they were.
pub fn lay(lanes: &mut [usize; 10], run: Range<usize>, octets: &[u8], fields: Fields)
    requires run_in { (run.start ≤ run.end) × (run.end ≤ 10) }
    requires n_in_bounds { (run.end - run.start) * fields.bits ≤ length octets.now }
    ensures { Laid lanes.old lanes.new run.start run.end (λ k. raised_by fields.bits fields.up fields.below (drop (8 * ((k - run.start) * fields.bits)) (bits_of octets.now))) }
{
    if fields.bits == 0 {
        fill_eights(lanes, run, eights::alike(fields.below));
        return;
    }
    lay_fields(lanes, run, octets, fields);
}

// n ones above `up` bits, as an octet.
fn ones_above(n: usize, up: usize) -> usize
    requires { n + up ≤ 8 }
    ensures { result ≡ (2 ^ n - 1) * 2 ^ up }
{
    ((1 << n) - 1) << up
}

// The ten eights of a frame: fields of w bits, of the bits of some octets, at the top of theirs, and below them ones. The last c + 1 bits of
// each octet are zeros. It calls `lay_fields` itself, not `lay`: with two callers `lay_fields` is compiled apart from them, and where there are
// no fields a loop alone is left.
pub fn lay_top(lanes: &mut [usize; 10], w: usize, c: usize, octets: &[u8])
    requires { (w + c ≤ 7) × (10 * w ≤ length octets.now) }
    ensures { (k : ℕ) → k < 10 → get_or lanes.new k 0 ≡ raised_by w (8 - w) ((2 ^ (7 - (w + c)) - 1) * 2 ^ (c + 1)) (drop (8 * (k * w)) (bits_of octets.now)) }
{
    let below = ones_above(7 - (w + c), c + 1);
    if w == 0 {
        fill_eights(lanes, 0..10, eights::alike(below));
        return;
    }
    let up = 8 - w;
    lay_fields(lanes, 0..10, octets, Fields { bits: w, up, below });
}

// Bit `at` of a buffer.
fn bit_at(buffer: &[u8], at: usize) -> usize
    requires { at < 8 * length buffer.now }
    ensures { result ≡ digit (get_or (drop at (bits_of buffer.now)) 0 true) }
{
    ((buffer[at / 8] as usize) >> (7 - at % 8)) % 2
}

// The last bit of octet o + 1, where octets `first` to `last` have the bits of a buffer from bit d on: the next of them, or 1.
fn own_bit(buffer: &[u8], d: usize, first: usize, last: usize, o: usize) -> usize
    requires { (o < 80) × (d < 2 ^ 16) × (d + 80 < 8 * length buffer.now) }
    ensures { result ≡ own_at first last (drop d (bits_of buffer.now)) o }
{
    if o + 1 < first {
        return 1;
    }
    if last < o + 1 {
        return 1;
    }
    bit_at(buffer, d + (o + 1 - first))
}

// Those of the eight octets from o + 1 on, one by one.
fn cut_eight(buffer: &[u8], d: usize, first: usize, last: usize, o: usize) -> usize
    requires { (o + 8 ≤ 80) × (d < 2 ^ 16) × (d + 80 < 8 * length buffer.now) }
    ensures { result ≡ eights (λ j. own_at first last (drop d (bits_of buffer.now)) (o + j)) }
{
    let mut eight = 0;
    for j in 0..8 {
        eight = eight * 256 + own_bit(buffer, d, first, last, o + j);
    }
    eight
}

// A run of a frame's ten eights, octet by octet: a buffer's bits from bit d on are the last bits of octets `first` to `last`, one in each, and
// the others end in a 1. The eights before are as they were.
pub fn cut(
    lanes: &mut [usize; 10],
    run: Range<usize>,
    buffer: &[u8],
    d: usize,
    first: usize,
    last: usize,
)
    requires { (run.start ≤ run.end) × (run.end ≤ 10) × (d < 2 ^ 16) × (d + 80 < 8 * length buffer.now) }
    ensures { Laid lanes.old lanes.new run.start run.end (λ k. eights (λ j. own_at first last (drop d (bits_of buffer.now)) (8 * k + j))) }
{
    eights::set_eights(lanes, run, |k, _| cut_eight(buffer, d, first, last, 8 * k));
}

// The eight octets of a number, written from octet o of a frame on, counted from 0.
fn write_word(frame: &mut [u8; 80], o: usize, word: usize)
    requires { o + 8 ≤ 80 }
    ensures { frame.new ≡ paste frame.old o (octets_in word) 8 }
{
    frame[o..o + 8].copy_from_slice(&word.to_be_bytes());
}

// A frame, whole: the octets of its ten eights, each the sum of two. By index: after `chunks_mut` a proof knows the frame's length alone.
pub fn write_sums(frame: &mut [u8; 80], tops: &[usize; 10], ends: &[usize; 10])
    requires { (k : ℕ) → k < 10 → get_or tops.now k 0 + get_or ends.now k 0 < 2 ^ 64 }
    ensures { frame.new ≡ all_octets (λ k. get_or tops.now k 0 + get_or ends.now k 0) 10 }
{
    for k in 0..10 {
        write_word(frame, 8 * k, tops[k] + ends[k]);
    }
}
