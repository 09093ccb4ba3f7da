// The search for alignment in a recording of the line (document 01, 'Finding alignment').
#![tactic(auto)]

ghost use Rattle.std.specs.Prelude.{◌≡◌, not, ℕ, ◌+◌, ◌-◌, ◌*◌, ◌/◌, ◌^◌, ◌≤◌, ◌<◌, length, get_or, drop};
ghost use Rattle.bits.specs.Bits.{odd, sc_bit};
ghost use Rattle.search.specs.Finding.{spells, aligned, search_of};
ghost use Rattle.search.specs.Groups.{plane, EachBit, Folded, none_of, first_from};

use refusals::Refusal;

// Where the seven octets from an offset on do not spell 0011011, each of their eight bits by itself: bit 0 is SC.
fn wrong_word(part: &[u8], at: usize) -> u8
    requires { at + 7 ≤ length part.now }
    ensures { EachBit result (λ k. not (spells at (plane k part.now))) }
{
    part[at]
        | part[at + 1]
        | part[at + 4]
        | ((part[at + 2] & part[at + 3] & part[at + 5] & part[at + 6]) ^ 255)
}

// Where alignment does not stand at a place, each bit by itself. It has no branch, so that the compiler can test many places at once.
fn wrong_at(part: &[u8], at: usize) -> u8
    requires { at + 168 ≤ length part.now }
    ensures { EachBit result (λ k. not (aligned (drop at (plane k part.now)))) }
{
    wrong_word(part, at + 1) | (part[at + 81] ^ 255) | wrong_word(part, at + 161)
}

// The test of one place, on the recording from that place on. Most places fail at the first word.
fn is_aligned(part: &[u8]) -> bool
    ensures { result ≡ aligned part.now }
{
    if part.len() < 168 {
        return false;
    }
    if wrong_word(part, 1) % 2 == 1 {
        return false;
    }
    wrong_at(part, 0) % 2 == 0
}

// Where alignment stands at none of the first places, each bit by itself. All are tested, whatever the first ones say: a loop without a
// way out is what the compiler tests together.
fn none_of(part: &[u8], places: usize) -> u8
    requires { places + 167 ≤ length part.now }
    ensures { EachBit result (λ k. none_of places (plane k part.now)) }
{
    let mut all: u8 = 255;
    for i in 0..places {
        all = all & wrong_at(part, i);
    }
    all
}

// The bits of an octet go up by one, and below them comes the SC bit of another octet.
fn followed(bits: u8, octet: u8) -> u8
    ensures { (odd result ≡ sc_bit octet) × ((k : ℕ) → k < 7 → odd (result / 2 ^ (k + 1)) ≡ odd (bits / 2 ^ k)) }
{
    bits % 128 * 2 + octet % 2
}

// The SC bits of eight octets that stand 256 apart, the first of them lowest.
fn folded_at(part: &[u8], at: usize) -> u8
    requires { at + 1793 ≤ length part.now }
    ensures { EachBit result (λ k. sc_bit (get_or part.now (256 * k + at) 0)) }
{
    let mut bits: u8 = 0;
    for k in 0..8 {
        bits = followed(bits, part[256 * (7 - k) + at]);
    }
    bits
}

// The bits of an octet go down by one, and above them comes the SC bit of another octet.
fn one_part_on(bits: u8, octet: u8) -> u8
    ensures { (odd (result / 2 ^ 7) ≡ sc_bit octet) × ((k : ℕ) → k < 7 → odd (result / 2 ^ k) ≡ odd (bits / 2 ^ (k + 1))) }
{
    bits / 2 + octet % 2 * 128
}

// Eight parts of 256 places laid over one another, the SC of each in a bit of its own. There is room for the 168 octets that follow.
// By index: an entry is made of octets that stand 256 apart, so there is no part to go over.
fn laid_over(part: &[u8]) -> [u8; 424]
    requires { 2048 ≤ length part.now }
    ensures { Folded 256 result part.now }
{
    let mut bits: [u8; 424] = [0; 424];
    for i in 0..256 {
        bits[i] = folded_at(part, i);
    }
    bits
}

// The same with the 168 octets that follow each part. These begin the next part and are laid over already, one bit higher; only what follows
// the last part is new. By index: an entry stands 256 places after the one that it is made of, in one array.
fn folded(part: &[u8]) -> [u8; 424]
    requires { 2216 ≤ length part.now }
    ensures { Folded 424 result part.now }
{
    let mut bits = laid_over(part);
    for i in 0..168 {
        bits[i + 256] = one_part_on(bits[i], part[i + 2048]);
    }
    bits
}

// Alignment stands at none of the first places. 2,048 are tested eight at a time, which costs more than it brings where they are few.
fn none_of_group(part: &[u8], places: usize) -> bool
    requires { places + 168 ≤ length part.now }
    ensures { result ≡ none_of places part.now }
{
    if places == 2048 {
        let bits = folded(part);
        return none_of(&bits, 256) == 255;
    }
    none_of(part, places) % 2 == 1
}

// Where the search goes on after at most `groups` groups of `places` places: as far as they are whole and without alignment.
fn after_groups(recording: &[u8], start: usize, places: usize, groups: usize) -> usize
    requires { places ≤ 2048 }
    ensures { first_from result recording.now ≡ first_from start recording.now }
{
    let all = recording.len();
    let mut at = start;
    for k in 0..groups {
        if all.saturating_sub(at) < places + 168 {
            return at;
        }
        if !none_of_group(&recording[at..], places) {
            return at;
        }
        at = at + places;
    }
    at
}

// Where the search goes on after the last 2,048 places, if it has come to one of them and alignment stands at none. Those before the start
// are tested once more: that takes less time than small groups for the others.
fn after_last_group(recording: &[u8], start: usize) -> usize
    ensures { first_from result recording.now ≡ first_from start recording.now }
{
    let all = recording.len();
    if all < 2216 {
        return start;
    }
    let last = all - 2216;
    if start < last {
        return start;
    }
    if last + 2048 < start {
        return start;
    }
    if !none_of_group(&recording[last..], 2048) {
        return start;
    }
    last + 2048
}

// Where the test of one place after the other has to begin. Small groups come first, since the next place is often near; then large
// ones, over 65,536 octets if need be, and small ones in the large one that has alignment, or in what is left.
fn after_all_groups(recording: &[u8], start: usize) -> usize
    ensures { first_from result recording.now ≡ first_from start recording.now }
{
    let near = after_groups(recording, start, 64, 4);
    if near.saturating_sub(start) < 256 {
        return near;
    }
    let far = after_groups(recording, near, 2048, 32);
    let end = after_last_group(recording, far);
    after_groups(recording, end, 64, 64)
}

// The smallest place from a given one on where alignment stands, by the test of one place after the other, as far as 168 octets are left
// (DECISIONS F39).
fn first_from(recording: &[u8], from: usize) -> Result<usize, Refusal>
    ensures { result ≡ first_from from recording.now }
{
    let end = recording.len().saturating_sub(167);
    for at in from..end {
        if is_aligned(&recording[at..]) {
            return Ok(at);
        }
    }
    Err(Refusal::NoPlace)
}

// The smallest place from the start on where alignment stands: an octet of the whole recording, counted from 0. Any start and any length
// may be given.
pub fn search(recording: &[u8], start: usize) -> Result<usize, Refusal>
    ensures { result ≡ search_of recording.now start }
{
    let all = recording.len();
    if (65_536 < all) | (all.saturating_sub(start) < 168) {
        return Err(Refusal::BadRecording);
    }
    first_from(recording, after_all_groups(recording, start))
}
