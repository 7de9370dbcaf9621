// Wish 2: the rows of the placeholders that were laid out, in a lent list of words: five for each row, and zero after them.
#![tactic(auto)]

ghost use Rattle.std.specs.Prelude.{◌≡◌, true, map, ◌∷◌, ◌+◌, ◌-◌, ◌*◌, ◌≤◌, ◌<◌, ◌^◌, ◌/◌, ◌%◌, min, leb, length, replicate};
ghost use Rattle.rules.specs.Base.{◌▹◌, when};
ghost use Rattle.rules.specs.Rows.{clip as clip_to, shift};
ghost use Rattle.rows.specs.Listing.{start_at, len_at, with_span, row_of, rows_in, count_after, listing, Words, Listed};

use tokens::to_usize;

// The bytes before a row, and how many bytes it has.
#[derive(Clone, Copy)]
pub struct Span {
    pub start: usize,
    pub len: usize,
}

// ---- numbers

fn low_word(n: usize) -> u32
    ensures { result ≡ n % 2 ^ 32 }
{
    (n % 4294967296) as u32
}

fn high_word(n: usize) -> u32
    ensures { result ≡ n / 2 ^ 32 }
{
    (n / 4294967296) as u32
}

// Where a span ends, or `low` where it goes further.
fn end_by(s: Span, low: usize) -> usize
    ensures { result ≡ min low (s.start + s.len) }
{
    s.start.saturating_add(s.len).min(low)
}

// ---- the words of one row, which stand from `at` on

#[tactic(auto, unfolding(crate::specs::Listing::start_at, crate::specs::Listing::len_at))]
fn span_at(rows: &[u32], at: usize) -> Span
    requires { at + 5 ≤ length rows.now }
    ensures { (result.start ≡ start_at rows.now at) × (result.len ≡ len_at rows.now at) × (result.len < 2 ^ 32) }
{
    Span {
        start: to_usize(rows[at + 2]) + to_usize(rows[at + 3]) * 4294967296,
        len: to_usize(rows[at + 4]),
    }
}

#[tactic(auto, unfolding(crate::specs::Listing::with_span))]
fn put_span(rows: &mut [u32], at: usize, start: usize, len: u32)
    requires { at + 5 ≤ length rows.old }
    ensures { rows.new ≡ with_span rows.old at start len }
{
    rows[at + 2] = low_word(start);
    rows[at + 3] = high_word(start);
    rows[at + 4] = len;
}

// ---- the list

pub fn clear(rows: &mut [u32])
    ensures { rows.new ≡ replicate (length rows.old) 0 }
{
    rows.fill(0);
}

// From the last row back to the first that starts at or below: those before it end where it starts.
#[tactic(auto, using(crate::proofs::RowLaws::clip_begins))]
pub fn clip(rows: &mut [u32], count: usize, low: usize)
    requires { Listed rows.old count }
    ensures { rows.new ≡ listing (length rows.old) (map (clip_to low) (rows_in count rows.old)) }
{
    for i in (0..count).rev() {
        let at = 5 * i;
        let s = span_at(rows, at);
        if s.start <= low {
            let left = low - s.start;
            if left < s.len {
                put_span(rows, at, s.start, left as u32);
            }
            return;
        }
        put_span(rows, at, low, 0);
    }
}

#[tactic(auto, using(crate::proofs::RowLaws::row_added))]
pub fn add(rows: &mut [u32], count: usize, token: u32, entry: u32, start: usize, len: u32)
    requires words { Words rows.old count }
    requires count_in_bounds { 5 * count + 5 ≤ length rows.old }
    ensures { rows.new ≡ listing (length rows.old) (row_of token entry start len ∷ rows_in count rows.old) }
{
    let at = 5 * count;
    rows[at] = token;
    rows[at + 1] = entry;
    put_span(rows, at, start, len);
}

// A token was taken: how many rows there are now.
#[tactic(auto, using(crate::proofs::Back::clip_words, crate::proofs::Back::clip_rows), unfolding(rules::specs::Base::when, crate::specs::Listing::count_after))]
pub fn after(
    rows: &mut [u32],
    count: usize,
    low: usize,
    lays_out: bool,
    token: u32,
    entry: u32,
    start: usize,
    len: u32,
) -> usize
    requires listed { Listed rows.old count }
    requires count_in_bounds { lays_out ≡ true → 5 * count + 5 ≤ length rows.old }
    ensures value { result ≡ count_after lays_out count }
    ensures rows_after { rows.new ≡ listing (length rows.old) (map (clip_to low) (rows_in count rows.old) ▹ when lays_out (λ qs. row_of token entry start len ∷ qs)) }
{
    clip(rows, count, low);
    if lays_out {
        add(rows, count, token, entry, start, len);
        return count + 1;
    }
    count
}

fn trimmed(s: Span, end: usize, lead: usize) -> Span
    ensures { (result.start ≡ min end s.start - lead) × (result.len ≡ min end (s.start + s.len) - lead - (min end s.start - lead)) × (result.len ≤ s.len) }
{
    let start = s.start.min(end).saturating_sub(lead);
    let stop = end_by(s, end).saturating_sub(lead);
    Span {
        start,
        len: stop - start,
    }
}

// Each row anew, from the last one back.
#[tactic(auto, using(crate::proofs::RowLaws::trim_begins, crate::proofs::RowLaws::trim_on))]
fn trim_each(rows: &mut [u32], count: usize, end: usize, lead: usize)
    requires { Words rows.old count }
    ensures { rows.new ≡ listing (length rows.old) (map (λ q. q ▹ clip_to end ▹ shift lead) (rows_in count rows.old)) }
{
    for i in (0..count).rev() {
        let at = 5 * i;
        let s = span_at(rows, at);
        let t = trimmed(s, end, lead);
        put_span(rows, at, t.start, t.len as u32);
    }
}

// The trim at both ends: the text ends at `end`, and `lead` bytes go from its start. Where none go, only rows at the end are touched.
pub fn trim(rows: &mut [u32], count: usize, end: usize, lead: usize)
    requires { Listed rows.old count }
    ensures { rows.new ≡ listing (length rows.old) (map (λ q. q ▹ clip_to end ▹ shift lead) (rows_in count rows.old)) }
{
    if lead == 0 {
        clip(rows, count, end);
        return;
    }
    trim_each(rows, count, end, lead);
}
