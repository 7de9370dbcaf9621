// The columns of sixteen parts of a text, sixteen bytes on. A lane is a part's column. It stands above an offset, a multiple of
// eight, until a line feed comes: so the largest tells of what stands before the first line feed. Bytes serve for sixteen steps,
// with 120 for the offset; between them a lane is wider, with 32768. What begins and ends within sixteen bytes has at most 120
// columns, and is passed over: a line as wide is known.
#![tactic(auto)]

ghost use Rattle.std.specs.Prelude.{if◌then◌else◌, ◌≡◌, ◌+◌, ◌-◌, ◌*◌, ◌%◌, ◌≤◌, max, ltb, length, get_or};
ghost use Rattle.std.specs.Int.Bits.{bit_and};
ghost use Rattle.steps.specs.Steps.{Below, Mapped};
ghost use Rattle.lanes.specs.Lanes.{Over, Ready, OnSixteen};

use narrow::sixteen_on;
use steps::{add, coded};

// ---- from wide lanes to bytes and back

fn phases(c: &mut [u8; 16], at: &[u16; 16])
    ensures { Mapped 16 (λ k x. get_or at.now k 0 % 8 + 120) c.old c.new }
{
    for k in 0..16 {
        c[k] = (at[k] & 7) as u8 + 120;
    }
}

// Where each part's first line ends, or these bytes do.
fn heads(at: &mut [u16; 16], h: &[u8; 16])
    requires { Below at.old 65280 × Over h.now }
    ensures { Mapped 16 (λ k x. x - x % 8 + (get_or h.now k 0 - 120)) at.old at.new }
{
    for k in 0..16 {
        at[k] = at[k] - (at[k] & 7) + u16::from(h[k] - 120);
    }
}

fn tops(to: &mut [u16; 16], at: &[u16; 16], mask: u16)
    ensures { Mapped 16 (λ k x. max (bit_and (get_or at.now k 0) mask) x) to.old to.new }
{
    for k in 0..16 {
        to[k] = (at[k] & mask).max(to[k]);
    }
}

// A lane below the offset has met a line feed.
fn end_of(at: u16, c: u8) -> u16
    ensures { result ≡ (if ltb c 128 then c else at) }
{
    if c < 128 { u16::from(c) } else { at }
}

fn ends(at: &mut [u16; 16], c: &[u8; 16])
    ensures { Mapped 16 (λ k x. if ltb (get_or c.now k 0) 128 then get_or c.now k 0 else x) at.old at.new }
{
    for k in 0..16 {
        at[k] = end_of(at[k], c[k]);
    }
}

// ---- sixteen bytes on

// Sixteen bytes of each part: its column, the largest, the largest without the offset, and the line feeds.
pub fn block(
    at: &mut [u16; 16],
    head: &mut [u16; 16],
    best: &mut [u16; 16],
    feeds: &mut [u16; 16],
    text: &[u8],
    start: usize,
    far: usize,
)
    requires { (start + 15 * far + 16 ≤ length text.now) × Ready at.old head.old best.old feeds.old }
    ensures { OnSixteen text.now start far at.old head.old best.old feeds.old at.new head.new best.new feeds.new }
{
    let t = coded(text, start, far);
    let u = coded(text, start + 8, far);
    let mut c: [u8; 16] = [0; 16];
    phases(&mut c, at);
    let mut h = c;
    let mut g: [u8; 16] = [0; 16];
    let mut n: [u8; 16] = [0; 16];
    sixteen_on(&mut c, &mut h, &mut g, &mut n, &t, &u);
    heads(at, &h);
    tops(head, at, 65535);
    tops(best, at, 32767);
    ends(at, &c);
    add(feeds, &n);
}
