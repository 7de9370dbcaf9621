// The column that bytes lead to, and the largest on the way: a tab goes to the next multiple of eight.
#![tactic(auto)]

ghost use Rattle.std.specs.Prelude.{if◌then◌else◌, ◌≡◌, false, ◌+◌, ◌-◌, ◌*◌, ◌^◌, ◌≤◌, ◌<◌, eqb, length};
ghost use Rattle.rules.specs.Text.{column_after};
ghost use Rattle.ascii.specs.Part.{part, has};
ghost use Rattle.columns.specs.Measured.{measure, onward, tabs};

use ascii::in_run;
use longest::all_are;

// The column, and the largest column so far.
#[derive(Clone, Copy)]
pub struct Measure {
    pub at: usize,
    pub best: usize,
}

// The bits that a tab sets before it goes on by one.
fn stop(b: u8) -> usize
    ensures { result ≡ (if eqb b 9 then 7 else 0) }
{
    if b == 9 { 7 } else { 0 }
}

// The bits that are kept: none after a line feed.
fn kept(b: u8) -> usize
    ensures { result ≡ (if eqb b 10 then 0 else 2 ^ 64 - 1) }
{
    if b == 10 { 0 } else { usize::MAX }
}

// No branch, for bytes in no order.
fn column_after(at: usize, b: u8) -> usize
    requires { at < 2 ^ 63 }
    ensures { result ≡ column_after at b }
{
    ((at | stop(b)) + 1) & kept(b)
}

// A byte at a time: each column hangs on the one before it.
#[tactic(auto, using(crate::proofs::MeasureLaws::by_byte))]
fn measured(text: &[u8], start: usize, n: usize, m: Measure) -> Measure
    requires { (start + n ≤ length text.now) × (m.at + 8 * n < 2 ^ 63) }
    ensures { result ≡ measure m (part text.now start n) }
{
    let mut at = m.at;
    let mut best = m.best;
    for i in 0..n {
        at = column_after(at, text[start + i]);
        best = best.max(at);
    }
    Measure { at, best }
}

// A number of bytes without a tab or a line feed; none are looked for unless the line `goes on`.
fn plain_run(text: &[u8], start: usize, n: usize, goes_on: bool) -> usize
    requires { start + n ≤ length text.now }
    ensures { (result ≤ n) × (has 9 10 (part text.now start result) ≡ false) }
{
    if !goes_on {
        return 0;
    }
    for k in 0..n / 16 {
        if in_run(text, start + 16 * k, 16, 9, 10) {
            return 16 * k;
        }
    }
    16 * (n / 16)
}

pub fn passed(m: Measure, run: usize) -> Measure
    requires { m.at + run < 2 ^ 63 }
    ensures { result ≡ onward m run }
{
    let at = m.at + run;
    Measure {
        at,
        best: at.max(m.best),
    }
}

// A number of tabs; none are looked for unless the line `goes on` in tabs.
// Not one function with `plain_run`: with a closure for the test both laws stay, and a contract for the closure comes to them.
fn tab_run(text: &[u8], start: usize, n: usize, goes_on: bool) -> usize
    requires { start + n ≤ length text.now }
    ensures { (result ≤ n) × (part text.now start result ≡ tabs result) }
{
    if !goes_on {
        return 0;
    }
    for k in 0..n / 16 {
        if !all_are(text, start + 16 * k, 16, 9) {
            return 16 * k;
        }
    }
    16 * (n / 16)
}

#[tactic(auto, using(crate::proofs::MeasureLaws::by_tabbed))]
fn tabbed(m: Measure, run: usize) -> Measure
    requires { m.at + 8 * run < 2 ^ 63 }
    ensures { result ≡ measure m (tabs run) }
{
    if run == 0 {
        return m;
    }
    let at = (m.at / 8 + run) * 8;
    Measure {
        at,
        best: at.max(m.best),
    }
}

// Eight columns in eight bytes: the line goes on, and is passed many bytes at a time. For a short line that would be dear. Eight
// columns for each of the eight: the same with tabs.
pub fn by_columns(text: &[u8], start: usize, n: usize, from: Measure) -> Measure
    requires { (start + n ≤ length text.now) × (from.at ≤ from.best) × (from.at + 8 * n < 2 ^ 63) }
    ensures { result ≡ measure from (part text.now start n) }
{
    let mut m = from;
    let mut i = 0;
    // Steps of no fixed length: a `while`.
    while 8 <= n - i {
        let eight = measured(text, start + i, 8, m);
        i += 8;
        let run = plain_run(text, start + i, n - i, eight.at == m.at + 8);
        i += run;
        let past = passed(eight, run);
        let tabs = tab_run(text, start + i, n - i, past.at == m.at + 64);
        i += tabs;
        m = tabbed(past, tabs);
    }
    measured(text, start + i, n - i, m)
}
