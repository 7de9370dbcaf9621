// The lines of a text and its width, counted a stretch at a time.
#![tactic(auto)]

ghost use Rattle.std.specs.Prelude.{◌≡◌, false, ◌+◌, ◌*◌, ◌%◌, ◌^◌, ◌≤◌, ◌<◌, length, take, IfSome};
ghost use Rattle.rules.specs.Columns.{longest_from};
ghost use Rattle.ascii.specs.Part.{part, has};
ghost use Rattle.columns.specs.Measured.{measure};
ghost use Rattle.lines.specs.Marked.{Marked, size_of};

use ascii::find;
use columns::{Measure, by_columns, passed};
use longest::{longest_line, past_last};
use parts::{by_parts, sixteen};

#[derive(Drop)]
pub struct Size {
    pub lines: usize,
    pub width: usize,
}

// ---- line feeds and tabs

// The line feeds, and whether a tab stands there.
#[derive(Clone, Copy)]
pub struct Marks {
    pub feeds: usize,
    pub tab: bool,
}

// No branch for each byte, and so few bytes that their line feeds, summed, fit in one: a block of a fixed length is counted many
// bytes at a time.
fn marks_in(text: &[u8], start: usize, n: usize) -> Marks
    requires { (start + n ≤ length text.now) × (n ≤ 192) }
    ensures { Marked (part text.now start n) result × (result.feeds ≤ n) }
{
    let mut feeds: u8 = 0;
    let mut tab = false;
    for i in 0..n {
        let b = text[start + i];
        feeds += u8::from(b == 10);
        tab |= b == 9;
    }
    Marks {
        feeds: usize::from(feeds),
        tab,
    }
}

fn all_marks(text: &[u8], start: usize, n: usize) -> Marks
    requires { start + n ≤ length text.now }
    ensures { Marked (part text.now start n) result × (result.feeds ≤ n) }
{
    let mut feeds = 0;
    let mut tab = false;
    for k in 0..n / 192 {
        let m = marks_in(text, start + 192 * k, 192);
        feeds += m.feeds;
        tab |= m.tab;
    }
    let last = 192 * (n / 192);
    let m = marks_in(text, start + last, n - last);
    Marks {
        feeds: feeds + m.feeds,
        tab: tab | m.tab,
    }
}

// ---- without tabs a column is a byte

// The longest line, `at` bytes of the first standing before.
#[tactic(auto, using(crate::proofs::StretchLaws::by_known, crate::proofs::StretchLaws::by_one_line, crate::proofs::StretchLaws::by_more))]
fn longest_from(text: &[u8], start: usize, n: usize, m: Measure) -> usize
    requires { (start + n ≤ length text.now) × (m.at + n < 2 ^ 63) }
    ensures { result ≡ longest_from m.at m.best (part text.now start n) }
{
    let at = m.at;
    // A line that cannot be the longest is not looked for.
    if at + n <= m.best {
        return m.best;
    }
    if at == 0 {
        return longest_line(text, start, n, m.best);
    }
    let first = find(text, start, n, 10);
    let best = (at + first).max(m.best);
    if first == n {
        return best;
    }
    longest_line(text, start + first + 1, n - first - 1, best)
}

#[tactic(auto, using(crate::proofs::StretchLaws::by_no_feed, crate::proofs::StretchLaws::by_lines, crate::proofs::StretchLaws::by_past))]
fn without_tabs(text: &[u8], start: usize, n: usize, m: Measure) -> Measure
    requires n_in_bounds { (start + n ≤ length text.now) × (m.at ≤ m.best) × (m.at + n < 2 ^ 63) }
    requires n_value { has 9 9 (part text.now start n) ≡ false }
    ensures { result ≡ measure m (part text.now start n) }
{
    let last = past_last(text, start, n);
    if last == 0 {
        return passed(m, n);
    }
    Measure {
        at: n - last,
        best: longest_from(text, start, n, m),
    }
}

// ---- with tabs

// A tab far on costs its own line: what stands before the line has none. Where they stand close all is counted by parts.
fn with_tabs(text: &[u8], start: usize, n: usize, from: Measure) -> Measure
    requires { (start + n ≤ length text.now) × (from.at ≤ from.best) × (from.at + 8 * n < 2 ^ 63) }
    ensures { result ≡ measure from (part text.now start n) }
{
    let mut m = from;
    let mut i = 0;
    // Steps of no fixed length: a `while`.
    while i < n {
        let tab = find(text, start + i, n - i, 9);
        if tab < 1024 {
            break;
        }
        let before = past_last(text, start + i, tab);
        let lines = without_tabs(text, start + i, before, m);
        let line = tab - before + find(text, start + i + tab, n - i - tab, 10);
        m = by_columns(text, start + i + before, line, lines);
        i += before + line;
    }
    by_parts(text, start + i, n - i, m)
}

// ---- lines and width

// A stretch is counted by the cheapest way that its marks allow.
fn stretch(text: &[u8], start: usize, n: usize, k: Marks, m: Measure) -> Measure
    requires n_in_bounds { (start + n ≤ length text.now) × (m.at ≤ m.best) × (m.at + 8 * n < 2 ^ 63) }
    requires marked { Marked (part text.now start n) k }
    ensures { result ≡ measure m (part text.now start n) }
{
    if k.tab {
        return with_tabs(text, start, n, m);
    }
    if k.feeds == 0 {
        return passed(m, n);
    }
    without_tabs(text, start, n, m)
}

// The last one: nobody asks for the column at its end.
#[tactic(auto, using(crate::proofs::StretchLaws::by_last_lines, crate::proofs::MarkLaws::no_tab))]
fn last_stretch(text: &[u8], start: usize, n: usize, k: Marks, m: Measure) -> usize
    requires n_in_bounds { (start + n ≤ length text.now) × (m.at ≤ m.best) × (m.at + 8 * n < 2 ^ 63) }
    requires marked { Marked (part text.now start n) k }
    ensures { result ≡ (measure m (part text.now start n)).best }
{
    if k.tab {
        let all = with_tabs(text, start, n, m);
        return all.best;
    }
    longest_from(text, start, n, m)
}

// How long each of sixteen parts of the next bytes is, where tabs stand close. There line feeds and columns are counted in one pass.
fn close(text: &[u8], start: usize, n: usize, tab: bool) -> Option<usize>
    requires { start + n ≤ length text.now }
    ensures { IfSome result (λ far. (16 * far ≤ n) × (far % 16 ≡ 0) × (far ≤ 4064) × (0 < far)) }
{
    if !tab {
        return None;
    }
    if n < 4224 {
        return None;
    }
    if find(text, start, 1024, 9) == 1024 {
        return None;
    }
    Some((n / 256).min(254) * 16)
}

pub fn lines_width(text: &[u8], len: usize) -> Size
    requires { (len ≤ length text.now) × (len < 2 ^ 60) }
    ensures { result ≡ size_of (take len text.now) }
{
    if len == 0 {
        return Size { lines: 0, width: 0 };
    }
    let mut m = Measure { at: 0, best: 0 };
    let mut lines = 1;
    let mut i = 0;
    let mut tab = false;
    // 22 blocks of marks: so short that they are still near when they are read again, and longer than a page of memory, so that the
    // next bytes are fetched while these are counted. Any length gives the same numbers. Steps of no fixed length: a `while`.
    while 4224 < len - i {
        if let Some(far) = close(text, i, len - i, tab) {
            let s = sixteen(text, i, far, m);
            m = s.columns;
            lines += s.feeds;
            i += 16 * far;
            continue;
        }
        let k = all_marks(text, i, 4224);
        m = stretch(text, i, 4224, k, m);
        lines += k.feeds;
        tab = k.tab;
        i += 4224;
    }
    let k = all_marks(text, i, len - i);
    Size {
        lines: lines + k.feeds,
        width: last_stretch(text, i, len - i, k, m),
    }
}
