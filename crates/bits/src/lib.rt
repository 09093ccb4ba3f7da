// Bits as a number, and octets as one number (document 01, 'What the unit carries').
#![tactic(auto)]

ghost use Rattle.std.specs.Prelude.{◌≡◌, cond, ◌+◌, ◌≤◌, leb, length};
ghost use Rattle.bits.specs.Bits.{number, eight_at};

// Eight octets that are all there: compiled, they are read at once. Other crates call it where the
// length is known, since the test of `whole_eight_at` is then not compiled.
pub fn eight_within(octets: &[u8], at: usize) -> usize
    requires { at + 8 ≤ length octets.now }
    ensures { result ≡ eight_at octets.now at }
{
    let eight = octets[at..].first_chunk::<8>().unwrap();
    usize::from_be_bytes(*eight)
}

// Eight octets of which some may be past the end: those that are there, and zeros after them.
fn eight_in_turn(octets: &[u8], at: usize) -> usize
    ensures { result ≡ eight_at octets.now at }
{
    let rest = &octets[at.min(octets.len())..];
    let n = rest.len().min(8);
    let mut eight = [0; 8];
    eight[..n].copy_from_slice(&rest[..n]);
    usize::from_be_bytes(eight)
}

// Eight octets from a place on as one number, the first highest; octets past the end count as 0.
pub fn eight_at(octets: &[u8], at: usize) -> usize
    ensures { result ≡ eight_at octets.now at }
{
    if 8 <= octets.len() && at <= octets.len() - 8 {
        return eight_within(octets, at);
    }
    eight_in_turn(octets, at)
}

// The same where all eight are there, and else 0. It is so short that it is compiled into its callers' loops.
pub fn whole_eight_at(octets: &[u8], at: usize) -> usize
    ensures { result ≡ cond (leb (at + 8) (length octets.now)) (eight_at octets.now at) 0 }
{
    if octets.len() < 8 || octets.len() - 8 < at {
        return 0;
    }
    eight_within(octets, at)
}

// The octet that eight bits spell, first bit highest.
pub fn octet(bits: [bool; 8]) -> u8
    ensures { result ≡ number bits }
{
    let mut octet = 0;
    for bit in bits {
        octet = octet * 2 + u8::from(bit);
    }
    octet
}
