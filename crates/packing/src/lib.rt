// Runs of bits taken out of a block's octets, eight octets at a time, and packed from the front of a buffer.
#![tactic(auto)]

ghost use Rattle.std.specs.Prelude.{◌≡◌, Bool, List, ◌++◌, ℕ, ◌+◌, ◌-◌, ◌*◌, ◌%◌, ◌^◌, ◌<◌, ◌≤◌, length, take};
ghost use Rattle.bits.specs.Bits.{octets, number, eight_at};
ghost use Rattle.packing.specs.Filled.{runs, Filled};
ghost use Rattle.packing.specs.Lanes.{picked, units};

// The bits of an octet that a stream holds, which stand together: `bits` of them after the first `start`.
#[derive(Clone, Copy)]
pub struct Run {
    pub start: usize,
    pub bits: usize,
    ghost within_octet: { start + bits ≤ 8 },
}

// n ones.
fn ones(n: usize) -> usize
    requires { n < 64 }
    ensures { result ≡ 2 ^ n - 1 }
{
    (1 << n) - 1
}

// Each two neighbouring lanes made one, in all lanes at once: the n low bits of the higher go before those of the lower.
// `each` has a one at the end of every lane that comes out.
fn joined(x: usize, each: usize, lane: usize, n: usize) -> usize
    requires { (lane < 64) × (n ≤ lane) × ((2 ^ (n + n) - 1) * each < 2 ^ 64) }
    ensures { (result ≤ (2 ^ (n + n) - 1) * each) × ((k : ℕ) → each ≡ units (lane + lane) k → picked (lane + lane) (n + n) k result ≡ picked lane n (k + k) x) }
{
    let mask = ones(n) * each;
    (((x >> lane) & mask) << n) + (x & mask)
}

// The number that the runs of eight octets spell, one after the other: they are joined to twos, to fours, and all.
fn gathered(eight: usize, run: Run) -> usize
    ensures { (line : List ℕ) (o : ℕ) → eight ≡ eight_at line o → result ≡ number (runs run.start run.bits line o 8) }
{
    let one = run.bits;
    let two = one + one;
    let four = two + two;
    let octets = eight >> (8 - (run.start + one));
    let twos = joined(octets, 0x0001000100010001, 8, one);
    let fours = joined(twos, 0x0000000100000001, 16, two);
    joined(fours, 1, 32, four)
}

// The first n of a number's eight octets, the highest first. The loop has a fixed length, so that it is compiled without one: all eight are
// written at once.
fn put(out: &mut [u8], at: usize, n: usize, x: usize)
    requires { (n ≤ 8) × (at + n ≤ length out.old) }
    ensures { (bs xs : List Bool) → length xs ≡ 64 → number xs ≡ x → Filled bs (at * 8) out.old → out.new ≡ octets (length out.old) (bs ++ take (8 * n) xs) }
{
    for k in 0..8 {
        if k < n {
            out[at + k] = ((x >> (8 * (7 - k))) % 256) as u8;
        }
    }
}

// n octets more, as the number x, behind the first `at`. All eight from there on are written: those after the n are zero, as they were, and
// those past the buffer's end are left out.
fn append(out: &mut [u8], at: usize, n: usize, x: usize)
    requires { (at ≤ 160) × (0 < n) × (n ≤ 8) }
    ensures { (bs xs : List Bool) → length xs ≡ 8 * n → number xs ≡ x → Filled bs (at * 8) out.old → Filled (bs ++ xs) ((at + n) * 8) out.new }
{
    let eight = x << (8 * (8 - n));
    if at + 8 <= out.len() {
        put(out, at, 8, eight);
        return;
    }
    if at < out.len() {
        put(out, at, out.len() - at, eight);
    }
}

// One bit more behind the first `done`.
fn append_bit(out: &mut [u8], done: usize, bit: usize)
    requires { (done < length out.old * 8) × (bit < 2) }
    ensures { (bs xs : List Bool) → length xs ≡ 1 → number xs ≡ bit → Filled bs done out.old → Filled (bs ++ xs) (done + 1) out.new }
{
    let i = done / 8;
    out[i] = ((out[i] as usize + (bit << (7 - done % 8))) % 256) as u8;
}

// The runs of a part's octets, N bits each, packed behind the first `start` octets of the buffer, eight octets at a time: their runs are N octets.
// N is a constant, so that the masks and shifts are. The answer is how many octets the buffer then has.
fn sort_width<const N: usize>(part: &[u8], first: usize, out: &mut [u8], start: usize) -> usize
    requires { (first + N ≤ 8) × (0 < N) × (length part.now % 8 ≡ 0) × (start + length part.now ≤ 160) }
    ensures { (result ≤ start + length part.now) × ((bs : List Bool) → Filled bs (start * 8) out.old → Filled (bs ++ runs first N part.now 0 (length part.now)) (result * 8) out.new) }
{
    let run = Run {
        start: first,
        bits: N,
    };
    let (eights, _) = part.as_chunks();
    let mut at = start;
    for eight in eights {
        append(out, at, N, gathered(usize::from_be_bytes(*eight), run));
        at += N;
    }
    at
}

// Octets from + 1 to `to` of a block, eight by eight: in all of them the stream has one run, and eight runs of n bits are n octets.
// The answer is how many octets the buffer then has. The width is told apart once, before the loop: over 40 pairs of modes, 3,000 blocks each,
// that makes 82.1 million instructions, and telling it apart at each eight made 102.8.
pub fn sort_run(
    line: &[u8],
    from: usize,
    to: usize,
    run: Run,
    out: &mut [u8],
    start: usize,
) -> usize
    requires { (from ≤ to) × (to ≤ length line.now) × (to ≤ 160) × ((to - from) % 8 ≡ 0) × (start ≤ from) }
    ensures { (result ≤ to) × ((bs : List Bool) → Filled bs (start * 8) out.old → Filled (bs ++ runs run.start run.bits line.now from (to - from)) (result * 8) out.new) }
{
    let part = &line[from..to];
    match run.bits {
        0 => start,
        1 => sort_width::<1>(part, run.start, out, start),
        2 => sort_width::<2>(part, run.start, out, start),
        3 => sort_width::<3>(part, run.start, out, start),
        4 => sort_width::<4>(part, run.start, out, start),
        5 => sort_width::<5>(part, run.start, out, start),
        6 => sort_width::<6>(part, run.start, out, start),
        7 => sort_width::<7>(part, run.start, out, start),
        _ => sort_width::<8>(part, run.start, out, start),
    }
}

// The last bit of each of octets from + 1 to `to` of a block, its SC bit, one by one (DECISIONS F53). The answer is how many bits the buffer then has.
pub fn sort_bits(line: &[u8], from: usize, to: usize, out: &mut [u8], start: usize) -> usize
    requires { (from ≤ to) × (to ≤ length line.now) × (to ≤ length out.old * 8) × (to ≤ 160) × (start ≤ from) }
    ensures { (result ≤ to) × ((bs : List Bool) → Filled bs start out.old → Filled (bs ++ runs 7 1 line.now from (to - from)) result out.new) }
{
    let mut done = start;
    for octet in &line[from..to] {
        append_bit(out, done, *octet as usize % 2);
        done += 1;
    }
    done
}
