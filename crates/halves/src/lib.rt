// One half of a block, which is a frame, as the writer fills it by the four numbers of a layout, eight octets at a time.
#![tactic(auto)]

ghost use Rattle.std.specs.Prelude.{◌≡◌, true, [], ℕ, ◌+◌, ◌-◌, ◌*◌, ◌/◌, ◌%◌, ◌<◌, ◌≤◌, length, get_or, drop};
ghost use Rattle.bits.specs.Bits.{bits_of, low_bits};
ghost use Rattle.eights.specs.Eight.{Laid};
ghost use Rattle.buffers.specs.Lengths.{stream_octets};
ghost use Rattle.places.specs.Layout.{in_eights, Apart};
ghost use Rattle.halves.specs.Sources.{heard};
ghost use Rattle.halves.specs.Frame.{frame_sources, frame_by, Ready};
ghost use Rattle.halves.specs.Parts.{word_at, head_at, tail_at};

use eights::Fields;
use places::Layout;
use std::ops::Range;

// Voice and nobody's ones in the ten eights of a frame, voice from its bit v on. Where it is muted there are ones alone.
fn heads(lanes: &mut [usize; 10], p: Layout, mute: bool, voice: &[u8], v: usize)
    requires { (p.width + p.columns ≤ 7) × (length voice.now ≡ stream_octets.voice) × (v ≤ 560) × (v % 8 ≡ 0) }
    ensures { (k : ℕ) → k < 10 → get_or lanes.new k 0 ≡ word_at (head_at p (drop v (heard mute (bits_of voice.now)))) k }
{
    let c = p.columns as usize;
    let octets = &voice[v / 8..];
    if mute {
        lanes::lay_top(lanes, 0, c, octets);
        return;
    }
    lanes::lay_top(lanes, p.width as usize, c, octets);
}

// Those of a frame's ten eights that hold data's SC octets: in a run where they are its own whole, and else each by itself.
fn own_eights(lanes: &mut [usize; 10], run: Range<usize>, p: Layout, lsd: &[u8], d: usize)
    requires run_is { (run.start ≡ (p.first - 1) / 8) × (run.end ≡ (p.last + 7) / 8) }
    requires apart { Apart p }
    requires lsd_len { (length lsd.now ≡ stream_octets.lsd) × (d ≤ 624) × (in_eights p ≡ true → d % 8 ≡ 0) }
    ensures { Laid lanes.old lanes.new run.start run.end (word_at (tail_at p [] (drop d (bits_of lsd.now)))) }
{
    let c = p.columns as usize;
    if places::in_eights(p) {
        let octets = &lsd[d / 8 + run.start * c..];
        lanes::lay(
            lanes,
            run,
            octets,
            Fields {
                bits: c + 1,
                up: 0,
                below: 0,
            },
        );
        return;
    }
    lanes::cut(lanes, run, lsd, d, p.first as usize, p.last as usize);
}

// Data's columns and SC bits in the ten eights of a frame, data from its bit d on: in one run where it has no SC octets, and else in three.
// The SC bits that are not its own are ones.
fn data_eights(lanes: &mut [usize; 10], p: Layout, lsd: &[u8], d: usize)
    requires apart { Apart p }
    requires lsd_len { (length lsd.now ≡ stream_octets.lsd) × (d ≤ 624) × (in_eights p ≡ true → d % 8 ≡ 0) }
    ensures { (k : ℕ) → k < 10 → get_or lanes.new k 0 ≡ word_at (tail_at p [] (drop d (bits_of lsd.now))) k }
{
    let c = p.columns as usize;
    let columns = Fields {
        bits: c,
        up: 1,
        below: 1,
    };
    let j = d / 8;
    let octets = &lsd[j..];
    if p.last < p.first {
        lanes::lay(lanes, 0..10, octets, columns);
        return;
    }
    let a = (p.first as usize - 1) / 8;
    let b = (p.last as usize + 7) / 8;
    lanes::lay(lanes, 0..a, octets, columns);
    own_eights(lanes, a..b, p, lsd, d);
    lanes::lay(lanes, b..10, &lsd[j + b * c + (b - a)..], columns);
}

// Data's columns and the SC bits in the ten eights of a frame. In the first two the service bits take the place of ones.
fn tails(lanes: &mut [usize; 10], p: Layout, service: u16, lsd: &[u8], d: usize)
    requires apart { Apart p }
    requires lsd_len { (length lsd.now ≡ stream_octets.lsd) × (d ≤ 624) × (in_eights p ≡ true → d % 8 ≡ 0) }
    ensures { (k : ℕ) → k < 10 → get_or lanes.new k 0 ≡ word_at (tail_at p (low_bits 16 service) (drop d (bits_of lsd.now))) k }
{
    data_eights(lanes, p, lsd, d);
    let first = eights::ended(lanes[0], (service / 256) as usize);
    let second = eights::ended(lanes[1], (service % 256) as usize);
    lanes[0] = first;
    lanes[1] = second;
}

// One frame, whole: ten times eight octets, both parts of them added. A buffer and its bit stay two: of a struct that holds a slice a clause
// has to say its value at entry, at each use.
pub fn write_frame(
    frame: &mut [u8; 80],
    p: Layout,
    service: u16,
    mute: bool,
    voice: &[u8],
    v: usize,
    lsd: &[u8],
    d: usize,
)
    requires { Ready p voice.now v lsd.now d }
    ensures { frame.new ≡ frame_by p (frame_sources service mute voice.now v lsd.now d) }
{
    let mut voiced = [0; 10];
    let mut ends = [0; 10];
    heads(&mut voiced, p, mute, voice, v);
    tails(&mut ends, p, service, lsd, d);
    lanes::write_sums(frame, &voiced, &ends);
}
