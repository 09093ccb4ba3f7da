// Where a field stands in its octet.
ghost use Rattle.std.specs.Prelude.{◌+◌, ◌^◌, ◌<◌, ◌≤◌};

// Eight fields in eight octets: each of so many bits, `up` bits up in its octet, and below it the bits of `below`.
#[derive(Clone, Copy)]
pub struct Fields {
    pub bits: usize,
    pub up: usize,
    pub below: usize,
    ghost in_octet: { bits + up ≤ 8 },
    ghost below_it: { below < 2 ^ up },
}
