// The line feeds and columns of a text in sixteen parts side by side: each part by itself first, then one after the other.
#![tactic(auto)]

ghost use Rattle.std.specs.Prelude.{◌≡◌, ◌+◌, ◌*◌, ◌%◌, ◌^◌, ◌≤◌, ◌<◌, ℕ, length, get_or, MatchOption};
ghost use Rattle.ascii.specs.Part.{part, before};
ghost use Rattle.columns.specs.Measured.{count, measure};
ghost use Rattle.steps.specs.Steps.{Mapped};
ghost use Rattle.parts.specs.Parts.{Told, ToldAll, counted_of, above_of};

use ascii::find;
use columns::{Measure, by_columns};
use lanes::block;
use narrow::narrow_block;

#[derive(Drop)]
pub struct Counted {
    pub feeds: usize,
    pub columns: Measure,
}

// ---- the parts one after the other

// Where a part's first line ends. A column above the offset has met no line feed.
#[tactic(auto, using(crate::proofs::JoinLaws::by_above))]
fn first_line(text: &[u8], start: usize, n: usize, at: u16) -> usize
    requires n_in_bounds { (start + n ≤ length text.now) × (n ≤ 4064) }
    requires at_value { at ≡ (measure (count 32768 32768) (part text.now start n)).at }
    ensures { (result ≡ before 10 (part text.now start n)) × (result ≤ n) }
{
    if 32768 <= at {
        return n;
    }
    find(text, start, n, 10)
}

// A part after all that stands before it. What is told of the part by itself is told for a column of 0 before it; another one
// moves the part's first line alone, and from its first tab on by eights.
fn joined(text: &[u8], start: usize, n: usize, m: Measure, at: u16, head: u16, best: u16) -> Measure
    requires n_in_bounds { (start + n ≤ length text.now) × (n ≤ 4064) × (m.at ≤ m.best) × (m.at + 8 * n < 2 ^ 63) }
    requires told { Told (part text.now start n) m.best at head best }
    ensures { result ≡ measure m (part text.now start n) }
{
    let line = first_line(text, start, n, at);
    let tab = find(text, start, line, 9);
    let mut end = m.at + line;
    if tab < line {
        end = usize::from(head & 32767) + ((m.at + tab) / 8 - tab / 8) * 8;
    }
    let wide = end.max(m.best);
    if line == n {
        return Measure {
            at: end,
            best: wide,
        };
    }
    Measure {
        at: usize::from(at),
        best: usize::from(best).max(wide),
    }
}

fn join(
    text: &[u8],
    start: usize,
    far: usize,
    from: Measure,
    at: &[u16; 16],
    head: &[u16; 16],
    best: &[u16; 16],
    feeds: &[u16; 16],
) -> Counted
    requires far_in_bounds { (start + 16 * far ≤ length text.now) × (far % 16 ≡ 0) × (far ≤ 4064) }
    requires at_le_best { (from.at ≤ from.best) × (from.at + 8 * (16 * far) < 2 ^ 63) }
    requires told_all { ToldAll text.now start far far from.best at.now head.now best.now feeds.now }
    ensures { result ≡ counted_of from (part text.now start (16 * far)) }
{
    let mut m = from;
    let mut n = 0;
    for k in 0..16 {
        m = joined(text, start + k * far, far, m, at[k], head[k], best[k]);
        n += usize::from(feeds[k]);
    }
    Counted {
        feeds: n,
        columns: m,
    }
}

// ---- each part by itself

// Where a line of 120 columns is known.
fn long(text: &[u8], start: usize, far: usize, from: Measure) -> Counted
    requires far_in_bounds { (start + 16 * far ≤ length text.now) × (far % 16 ≡ 0) × (far ≤ 4064) }
    requires at_le_best { (from.at ≤ from.best) × (from.at + 8 * (16 * far) < 2 ^ 63) × (120 ≤ from.best) }
    ensures { result ≡ counted_of from (part text.now start (16 * far)) }
{
    let mut at: [u16; 16] = [32768; 16];
    let mut head: [u16; 16] = [32768; 16];
    let mut best: [u16; 16] = [120; 16];
    let mut feeds: [u16; 16] = [0; 16];
    // By `(0..far).step_by(16)`: 1.1 of the time of a text with tabs.
    let mut j = 0;
    while j < far {
        block(
            &mut at,
            &mut head,
            &mut best,
            &mut feeds,
            text,
            start + j,
            far,
        );
        j += 16;
    }
    join(text, start, far, from, &at, &head, &best, &feeds)
}

// The first lane that has reached 120 columns.
fn first_wide(g: &[u8; 16]) -> Option<usize>
    ensures { MatchOption result ((k : ℕ) → k < 16 → get_or g.now k 0 < 120) (λ k. (k < 16) × (120 ≤ get_or g.now k 0)) }
{
    g.iter().position(|c| 120 <= *c)
}

// The offset of a byte is 128, that of a wide lane 32768.
fn above(c: u8) -> u16
    ensures { result ≡ above_of c }
{
    if c < 128 {
        return u16::from(c);
    }
    u16::from(c) + 32640
}

// By `map` of the array: 1.05 of the time of a text of 4 KB with tabs.
fn raise(to: &mut [u16; 16], c: &[u8; 16])
    ensures { Mapped 16 (λ k x. above_of (get_or c.now k 0)) to.old to.new }
{
    for k in 0..16 {
        to[k] = above(c[k]);
    }
}

// Where no line of 120 columns is known. If there turns out to be one, it may as well be known.
fn short(text: &[u8], start: usize, far: usize, from: Measure) -> Counted
    requires far_in_bounds { (start + 16 * far ≤ length text.now) × (far % 16 ≡ 0) × (far ≤ 4064) }
    requires at_le_best { (from.at ≤ from.best) × (from.at + 8 * (16 * far) < 2 ^ 63) }
    ensures { result ≡ counted_of from (part text.now start (16 * far)) }
{
    let mut c: [u8; 16] = [128; 16];
    let mut h: [u8; 16] = [128; 16];
    let mut g: [u8; 16] = [0; 16];
    let mut feeds: [u16; 16] = [0; 16];
    // A `while` as above, for the same reason.
    let mut j = 0;
    while j < far {
        narrow_block(&mut c, &mut h, &mut g, &mut feeds, text, start + j, far);
        j += 16;
    }
    if first_wide(&g).is_some() {
        let known = Measure {
            at: from.at,
            best: from.best.max(120),
        };
        return long(text, start, far, known);
    }
    let mut at: [u16; 16] = [0; 16];
    let mut head: [u16; 16] = [0; 16];
    let mut best: [u16; 16] = [0; 16];
    raise(&mut at, &c);
    raise(&mut head, &h);
    raise(&mut best, &g);
    join(text, start, far, from, &at, &head, &best, &feeds)
}

// ---- the whole

// Sixteen parts of `far` bytes each.
pub fn sixteen(text: &[u8], start: usize, far: usize, from: Measure) -> Counted
    requires far_in_bounds { (start + 16 * far ≤ length text.now) × (far % 16 ≡ 0) × (far ≤ 4064) }
    requires at_le_best { (from.at ≤ from.best) × (from.at + 8 * (16 * far) < 2 ^ 63) }
    ensures { result ≡ counted_of from (part text.now start (16 * far)) }
{
    if from.best < 120 {
        return short(text, start, far, from);
    }
    long(text, start, far, from)
}

// Few bytes are counted sooner one by one.
pub fn by_parts(text: &[u8], start: usize, n: usize, from: Measure) -> Measure
    requires { (start + n ≤ length text.now) × (from.at ≤ from.best) × (from.at + 8 * n < 2 ^ 63) }
    ensures { result ≡ measure from (part text.now start n) }
{
    if n < 512 {
        return by_columns(text, start, n, from);
    }
    let far = (n / 256).min(254) * 16;
    let s = sixteen(text, start, far, from);
    by_columns(text, start + 16 * far, n - 16 * far, s.columns)
}
