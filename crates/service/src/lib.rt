// The service channel: the sixteen rows that are sent, and what the SC bits of a block say (document 01, 'Service bits 1 to 8 of each frame').
#![tactic(auto)]

ghost use Rattle.std.specs.Prelude.{◌≡◌, ◌≤◌, get_or};
ghost use Rattle.bits.specs.Bits.{sc_bit, digit, number};
ghost use Rattle.service.specs.Service.{service_rows};
ghost use Rattle.service.specs.Channel.{channel_bits, wrong_bits, odd_first, c_bits, bas_word};

// The sixteen rows of eight service bits, frames 0 to 15. Of the remainder the low four bits count (DECISIONS G3).
pub fn service_rows(a: bool, e: bool, t: bool, remainder: u8) -> [[bool; 8]; 16]
    ensures { result ≡ service_rows a e t remainder }
{
    let c1 = remainder / 8 % 2 == 1;
    let c2 = remainder / 4 % 2 == 1;
    let c3 = remainder / 2 % 2 == 1;
    let c4 = remainder % 2 == 1;
    let even = [false, false, false, true, true, false, true, true];
    let channel = [true, false, false, true, true, false, true, true];
    let alarm = [t, false, false, true, true, false, true, true];
    let odd = [false, true, a, e, c1, c2, c3, c4];
    let marked = [true, true, a, e, c1, c2, c3, c4];
    [
        even, odd, even, odd, even, marked, even, odd, even, marked, channel, marked, even, odd,
        alarm, odd,
    ]
}

// The SC bit of the octet at a place, counted from 0; 0 past the end.
fn sc_bit(line: &[u8], at: usize) -> u8
    ensures { (result ≡ digit (sc_bit (get_or line.now at 0))) × (result ≤ 1) }
{
    match line.get(at) {
        Some(octet) => octet % 2,
        None => 0,
    }
}

// The SC bits of eight octets from a place on as one number, the first highest, one by one.
fn row_in_turn(line: &[u8], at: usize) -> u8
    requires { at ≤ 88 }
    ensures { result ≡ number (channel_bits 8 at line.now) }
{
    let mut row: u8 = 0;
    for i in 0..8 {
        row = row * 2 + sc_bit(line, at + i);
    }
    row
}

// The same, at once where all eight are there: a product of their bits with ones at every ninth place has all eight in its highest octet,
// and nothing is carried. The octets are read the first lowest: compiled, the other order takes more than half as long again.
fn row_at(line: &[u8], at: usize) -> u8
    requires { at ≤ 88 }
    ensures { result ≡ number (channel_bits 8 at line.now) }
{
    match line[at.min(line.len())..].first_chunk() {
        Some(eight) => {
            let ones = usize::from_le_bytes(*eight) & 0x0101_0101_0101_0101;
            (ones.wrapping_mul(0x8040_2010_0804_0201) >> 56) as u8
        }
        None => row_in_turn(line, at),
    }
}

// How many of the eight bits of a block's alignment word are wrong: 0011011 in the even frame and 1 in the odd one.
pub fn wrong_bits(line: &[u8]) -> u8
    ensures { result ≡ wrong_bits line.now }
{
    let word = row_at(line, 1) / 2 * 2 + sc_bit(line, 81);
    (word ^ 0b0011_0111).count_ones() as u8
}

// The odd frame's first bit.
pub fn odd_first(line: &[u8]) -> bool
    ensures { result ≡ odd_first line.now }
{
    sc_bit(line, 80) == 1
}

// C1 to C4, C1 highest.
pub fn c_bits(line: &[u8]) -> u8
    ensures { result ≡ c_bits line.now }
{
    row_at(line, 80) % 16
}

// The BAS word, back in its natural order.
pub fn bas_word(line: &[u8]) -> u16
    ensures { result ≡ bas_word line.now }
{
    let even = row_at(line, 8);
    let odd = row_at(line, 88);
    bas::line_order(u16::from_be_bytes([even, odd]))
}
