// The columns of sixteen parts of a text, sixteen bytes on, where no line has 120 columns: then a byte serves for a lane all along,
// with 128 for the offset above which it stands until a line feed comes.
#![tactic(auto)]

ghost use Rattle.std.specs.Prelude.{◌≡◌, ◌+◌, ◌*◌, ◌≤◌, ◌<◌, length};
ghost use Rattle.steps.specs.Steps.{Below, down};
ghost use Rattle.narrow.specs.Narrow.{lane_on, Laned, NarrowOn};

use steps::{add, coded, feed, on};

// A part's column, the largest, the largest without the offset, and the line feeds.
#[derive(Drop)]
pub struct Lane {
    pub at: u8,
    pub top: u8,
    pub inner: u8,
    pub feeds: u8,
}

fn lane_on(t: &[u8; 128], k: usize, from: Lane) -> Lane
    requires { (k < 16) × (from.feeds ≤ 8) }
    ensures { (result ≡ lane_on from (down t.now k 0 8)) × (result.feeds ≤ from.feeds + 8) }
{
    let mut lane = from;
    for i in 0..8 {
        let x = t[16 * i + k];
        lane.at = on(lane.at, x);
        lane.top = lane.at.max(lane.top);
        lane.inner = (lane.at & 127).max(lane.inner);
        lane.feeds += feed(x);
    }
    lane
}

// A lane at a time, so that the compiler takes all sixteen at once.
// In line for both callers: 1.7 of the time of a text with tabs else.
#[inline(always)]
pub fn sixteen_on(
    c: &mut [u8; 16],
    h: &mut [u8; 16],
    g: &mut [u8; 16],
    n: &mut [u8; 16],
    t: &[u8; 128],
    u: &[u8; 128],
)
    ensures { Laned t.now u.now 16 c.old h.old g.old n.old c.new h.new g.new n.new }
{
    for k in 0..16 {
        let from = Lane {
            at: c[k],
            top: h[k],
            inner: g[k],
            feeds: 0,
        };
        let half = lane_on(t, k, from);
        let r = lane_on(u, k, half);
        c[k] = r.at;
        h[k] = r.top;
        g[k] = r.inner;
        n[k] = r.feeds;
    }
}

// Sixteen bytes of each part.
pub fn narrow_block(
    at: &mut [u8; 16],
    head: &mut [u8; 16],
    best: &mut [u8; 16],
    feeds: &mut [u16; 16],
    text: &[u8],
    start: usize,
    far: usize,
)
    requires { (start + 15 * far + 16 ≤ length text.now) × Below feeds.old 65280 }
    ensures { NarrowOn text.now start far at.old head.old best.old feeds.old at.new head.new best.new feeds.new }
{
    let t = coded(text, start, far);
    let u = coded(text, start + 8, far);
    let mut n: [u8; 16] = [0; 16];
    sixteen_on(at, head, best, &mut n, &t, &u);
    add(feeds, &n);
}
