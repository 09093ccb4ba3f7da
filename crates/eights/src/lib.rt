// Eight octets as one number of 64 bits: read from a buffer, and its fields spread over the octets.
#![tactic(auto)]

ghost use Rattle.std.specs.Prelude.{◌≡◌, ℕ, ◌+◌, ◌-◌, ◌*◌, ◌^◌, ◌<◌, ◌≤◌, length, get_or, drop};
ghost use Rattle.bits.specs.Bits.{nexts, bits_of, number};
ghost use Rattle.eights.specs.Eight.{parted_by, eights, ended_by, field_of, spread_by, Laid};

mod fields;

pub use fields::Fields;
use std::ops::Range;

// n octets of a buffer from octet i on, as one number: eight are read at once, and those past the n are let go. At the buffer's end there may
// be fewer.
pub fn octets_at(buffer: &[u8], i: usize, n: usize) -> usize
    requires { (0 < n) × (n ≤ 8) × (i + n ≤ length buffer.now) }
    ensures { result ≡ number (nexts (8 * n) (drop (8 * i) (bits_of buffer.now))) }
{
    if 8 <= buffer.len() - i {
        return bits::whole_eight_at(buffer, i) >> (8 * (8 - n));
    }
    bits::eight_at(buffer, i) >> (8 * (8 - n))
}

// A number's lanes parted in two: what the mask covers stays, and the rest moves up.
fn parted(x: usize, mask: usize, up: usize) -> usize
    requires { (up < 64) × (parted_by x mask up < 2 ^ 64) }
    ensures { result ≡ parted_by x mask up }
{
    let low = x & mask;
    ((x - low) << up) + low
}

// The eight fields of a number, each of n bits, as the low bits of eight octets. Three steps do it, for all fields at once: the number is
// parted in two, each half in two, and each of those.
fn spread(x: usize, n: usize) -> usize
    requires { (n ≤ 8) × (x < 2 ^ (8 * n)) }
    ensures { result ≡ eights (field_of x n) }
{
    let two = parted(x, (1 << (4 * n)) - 1, 32 - 4 * n);
    let four = parted(two, ((1 << (2 * n)) - 1) * 0x1_0000_0001, 16 - 2 * n);
    parted(four, ((1 << n) - 1) * 0x1_0001_0001_0001, 8 - n)
}

// A number in each of eight octets.
pub fn alike(octet: usize) -> usize
    requires { octet < 256 }
    ensures { result ≡ eights (λ k. octet) }
{
    octet * 0x0101_0101_0101_0101
}

// A run of a frame's ten eights is set, each by a rule of its place and of what stood there. The eights before are as they were.
// A loop by index: of a slice lent out of it by `iter_mut` a proof knows its length alone.
pub fn set_eights<F: Fn(usize, usize) -> usize>(lanes: &mut [usize; 10], run: Range<usize>, rule: F)
    requires run_in { (run.start ≤ run.end) × (run.end ≤ 10) }
    requires callable { (k : ℕ) → run.start ≤ k → k < run.end → F.pre rule k (get_or lanes.old k 0) }
    ensures before { (k : ℕ) → k < run.start → get_or lanes.new k 0 ≡ get_or lanes.old k 0 }
    ensures within { (k : ℕ) → run.start ≤ k → k < run.end → F.post rule k (get_or lanes.old k 0) (get_or lanes.new k 0) }
{
    for k in run.start..run.end {
        lanes[k] = rule(k, lanes[k]);
    }
}

// A run of a frame's ten eights is spread: of the N octets of each, eight fields of N bits. The octets are all loaded before, so that several
// eights are spread at once.
fn spread_eights<const N: usize>(lanes: &mut [usize; 10], run: Range<usize>, fields: Fields)
    requires run_in { (run.start ≤ run.end) × (run.end ≤ 10) }
    requires width { fields.bits ≡ N }
    requires by_index { (k : ℕ) → run.start ≤ k → k < run.end → get_or lanes.old k 0 < 2 ^ (8 * N) }
    ensures { Laid lanes.old lanes.new run.start run.end (λ k. spread_by N fields.up fields.below (get_or lanes.old k 0)) }
{
    set_eights(
        lanes,
        run,
        |_, x|
            requires { (N + fields.up ≤ 8) × (fields.below < 2 ^ fields.up) × (x < 2 ^ (8 * N)) }
            ensures { result ≡ spread_by N fields.up fields.below x }
        { (spread(x, N) << fields.up) + alike(fields.below) },
    );
}

// The same by the fields' own width, one to eight. Each has an arm, so that its masks and shifts are compiled as constants.
pub fn spread_by_width(lanes: &mut [usize; 10], run: Range<usize>, fields: Fields)
    requires run_in { (run.start ≤ run.end) × (run.end ≤ 10) }
    requires some { 0 < fields.bits }
    requires by_index { (k : ℕ) → run.start ≤ k → k < run.end → get_or lanes.old k 0 < 2 ^ (8 * fields.bits) }
    ensures { Laid lanes.old lanes.new run.start run.end (λ k. spread_by fields.bits fields.up fields.below (get_or lanes.old k 0)) }
{
    match fields.bits {
        1 => spread_eights::<1>(lanes, run, fields),
        2 => spread_eights::<2>(lanes, run, fields),
        3 => spread_eights::<3>(lanes, run, fields),
        4 => spread_eights::<4>(lanes, run, fields),
        5 => spread_eights::<5>(lanes, run, fields),
        6 => spread_eights::<6>(lanes, run, fields),
        7 => spread_eights::<7>(lanes, run, fields),
        _ => spread_eights::<8>(lanes, run, fields),
    }
}

// Eight octets that end in ones, with the eight bits of an octet in the place of those.
pub fn ended(eight: usize, octet: usize) -> usize
    requires { (octet < 256) × (eights (λ k. 1) ≤ eight) × (ended_by eight octet < 2 ^ 64) }
    ensures { result ≡ ended_by eight octet }
{
    eight - alike(1) + spread(octet, 1)
}
