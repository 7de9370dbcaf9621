// The longest line in bytes. Where a line of `best` bytes is known, one of at most `best` bytes changes nothing: if a line feed
// stands among the next best + 1 bytes, all up to it may be passed. Where lines are short a whole stretch is passed at once, else
// all up to the last such line feed; a line that has none is measured.
#![tactic(auto)]

ghost use Rattle.std.specs.Prelude.{◌≡◌, true, ◌+◌, ◌*◌, ◌^◌, ◌≤◌, ◌<◌, length, replicate};
ghost use Rattle.rules.specs.Base.{same};
ghost use Rattle.rules.specs.Columns.{longest_from};
ghost use Rattle.ascii.specs.Part.{part};
ghost use Rattle.longest.specs.Short.{Passed, Last};
ghost use Rattle.longest.specs.Flags.{Flags, Flagged, Widened, Reached, AllSet};

use ascii::find;
use memchr::memrchr;

pub fn all_are(text: &[u8], start: usize, n: usize, b: u8) -> bool
    requires { start + n ≤ length text.now }
    ensures { result ≡ same (part text.now start n) (replicate n b) }
{
    // No branch for each byte.
    text[start..start + n]
        .iter()
        .fold(0, |all, x| all | (x ^ b))
        == 0
}

// ---- a line feed in every window

// Eight flags: bit k tells of the byte k * far on.
fn flags(text: &[u8], at: usize, far: usize) -> u8
    requires { at + 7 * far < length text.now }
    ensures { Flags text.now at far result }
{
    let mut bits: u8 = 0;
    for k in (0..8).rev() {
        bits = bits + bits + u8::from(text[at + k * far] == 10);
    }
    bits
}

// The flags of n bytes.
fn flag(to: &mut [u8], text: &[u8], start: usize, far: usize, n: usize)
    requires { (n ≤ length to.old) × (start + 7 * far + n ≤ length text.now) }
    ensures { Flagged text.now start far n to.old to.new }
{
    for j in 0..n {
        to[j] = flags(text, start + j, far);
    }
}

// Each flag or the one `by` bytes on.
fn widen(to: &mut [u8], n: usize, by: usize)
    requires { n + by ≤ length to.old }
    ensures { Widened to.old n by to.new }
{
    for j in 0..n {
        to[j] |= to[j + by];
    }
}

// Flags that tell of h bytes tell of `by` more, unless that is more than w.
fn reach(to: &mut [u8], n: usize, h: usize, by: usize, w: usize) -> usize
    requires { (n + by ≤ length to.old) × (h ≤ w) × (w ≤ 128) × (by ≤ 32) }
    ensures { (result ≤ w) × Reached to.old h result to.new }
{
    if w < h + by {
        return h;
    }
    widen(to, n, by);
    h + by
}

// Each flag and those of the next bytes, as many as the result tells. A distance that is a plain number lets the compiler take many
// bytes at a time.
fn reached(to: &mut [u8], n: usize, w: usize) -> usize
    requires { (n + 32 ≤ length to.old) × (0 < w) × (w ≤ 128) }
    ensures { (result ≤ w) × Reached to.old 1 result to.new }
{
    let two = reach(to, n, 1, 1, w);
    let four = reach(to, n, two, 2, w);
    let eight = reach(to, n, four, 4, w);
    let sixteen = reach(to, n, eight, 8, w);
    let more = reach(to, n, sixteen, 16, w);
    reach(to, n, more, 32, w)
}

// Whether of n bytes each flag is set, in the byte or in the one `by` on.
#[tactic(auto, using(crate::proofs::FlagLaws::by_set))]
fn all_flagged(flagged: &[u8], n: usize, by: usize) -> bool
    requires { n + by ≤ length flagged.now }
    ensures { result ≡ true → AllSet flagged.now n by }
{
    let mut unset: u8 = 0;
    for j in 0..n {
        unset |= (flagged[j] | flagged[j + by]) ^ 255;
    }
    unset == 0
}

// Short lines: a line feed is in each window of best + 1 bytes. Eight parts of the text are looked at together, a bit for each. Few
// bytes and long lines are passed sooner line by line, and the first bytes of a text tell little of its longest line.
fn short_lines(text: &[u8], start: usize, n: usize, best: usize) -> usize
    requires { start + n ≤ length text.now }
    ensures { Passed text.now start n best result }
{
    if 127 < best {
        return 0;
    }
    if start + n < 3072 {
        return 0;
    }
    if n < 512 {
        return 0;
    }
    let more = (best / 16 + 1) * 16;
    let far = ((n - more) / 128 * 16).min(512);
    let mut flagged: [u8; 704] = [0; 704];
    flag(&mut flagged, text, start, far, far + more);
    let h = reached(&mut flagged, far + more, best + 1);
    if all_flagged(&flagged, far, best + 1 - h) {
        return 8 * far;
    }
    0
}

// ---- a line feed far on

// How many bytes there are up to the last line feed, and with it: looked for from the end, it is the farthest.
pub fn past_last(text: &[u8], start: usize, n: usize) -> usize
    requires { start + n ≤ length text.now }
    ensures { Last text.now start n result }
{
    memrchr(10, &text[start..start + n]).map_or(0, |i| i + 1)
}

// ---- the whole

#[tactic(auto, using(crate::proofs::LongestLaws::passed_rest, crate::proofs::LongestLaws::by_last))]
fn passed_lines(text: &[u8], start: usize, n: usize, best: usize) -> usize
    requires { start + n ≤ length text.now }
    ensures { Passed text.now start n best result }
{
    if n <= best {
        return n;
    }
    past_last(text, start, best + 1)
}

#[tactic(auto, using(crate::proofs::LongestLaws::by_run, crate::proofs::LongestLaws::by_line, crate::proofs::LongestLaws::by_end))]
pub fn longest_line(text: &[u8], start: usize, n: usize, known: usize) -> usize
    requires { (start + n ≤ length text.now) × (n < 2 ^ 63) }
    ensures { result ≡ longest_from 0 known (part text.now start n) }
{
    let mut best = known;
    let mut i = short_lines(text, start, n, known);
    // Steps of no fixed length: a `while`.
    while i < n {
        let run = passed_lines(text, start + i, n - i, best);
        if run != 0 {
            i += run;
            continue;
        }
        let line = find(text, start + i, n - i, 10);
        best = best.max(line);
        i += line + 1;
    }
    best
}
