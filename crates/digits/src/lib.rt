// Numbers as text, in hex and in decimal, written on a page of `text`.
#![tactic(auto)]

ghost use Rattle.std.specs.Prelude.{◌≡◌, ◌<◌, ◌^◌};
ghost use Rattle.text.specs.Pages.{Wrote};
ghost use Rattle.digits.specs.Digits.{digit_of, hex_of, digit_at, digits_from, decimal_of};

use text::Page;

// The character of a hex digit, and so of a decimal one.
fn digit(d: u8) -> u8
    requires { d < 16 }
    ensures { result ≡ digit_of d }
{
    if d < 10 {
        return 48 + d;
    }
    55 + d
}

// An octet as two hex digits.
pub fn put_hex(page: &mut Page, x: u8)
    ensures { Wrote page.old (hex_of x) page.new }
{
    page.put(digit(x / 16));
    page.put(digit(x % 16));
}

// The digit of a power of ten in a number, where the power is not larger than the number, and else nothing.
fn put_digit_at(page: &mut Page, power: usize, n: usize)
    requires { 0 < power }
    ensures { Wrote page.old (digit_at power n) page.new }
{
    if power <= n {
        page.put(digit((n / power % 10) as u8));
        return;
    }
    page.put_all(b"");
}

// The digits of a number from that of 10 ^ first on.
fn put_digits(page: &mut Page, power: usize, first: usize, n: usize)
    requires { power ≡ 10 ^ first }
    ensures { Wrote page.old (digits_from first n) page.new }
{
    let mut here = power;
    for i in 0..first {
        put_digit_at(page, here, n);
        here /= 10;
    }
    page.put(digit((n % 10) as u8));
}

// A number in decimal, without leading zeros. Most are small, and the powers above them need no look.
pub fn put_decimal(page: &mut Page, n: usize)
    ensures { Wrote page.old (decimal_of n) page.new }
{
    if n < 100_000 {
        put_digits(page, 10_000, 4, n);
        return;
    }
    put_digits(page, 10_000_000_000_000_000_000, 19, n);
}
