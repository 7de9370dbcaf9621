// The table's words of the top-level words: one pass from the last token to the first (docs/ahead.md).
#![tactic(auto)]

ghost use Rattle.std.specs.Prelude.{◌≡◌, ◌+◌, ◌*◌, ◌≤◌, ◌<◌, length};
ghost use Rattle.around.specs.Readable.{Readable};
ghost use Rattle.table.specs.Table.{Spans, SameBlocks};
ghost use Rattle.table_spans.specs.Back.{back_in, span_in, other_in, close_in, ended, front_in, under_in, through_in, Few, FewRests};
ghost use Rattle.table_spans.specs.Rows.{counts_of, marks_of, rest_in, row_in, past_in, with_row};
ghost use Rattle.table_spans.specs.Filling.{ReadFrom, Rows};

use ahead::sort_at;
use around::value_len;
use rules::Sort;
use table::put_two;
use tokens::to_usize;

// What the reading gives of the tokens from one on, started at their own level. Its arguments are the commas of that level, and one more where
// `first` says that an argument, at any level, comes before them.
#[derive(Clone, Copy)]
pub struct Rest {
    pub full: u32,
    pub blocks: u32,
    pub commas: u32,
    pub first: bool,
}

impl Rest {
    const NOTHING: Rest = Rest {
        full: 0,
        blocks: 0,
        commas: 0,
        first: false,
    };
}

// The two cases: the open level is above 0, or it is 0. And of all these tokens the length, how many of them are arguments, and the index of the
// bracket that closes their level, or n.
#[derive(Clone, Copy)]
pub struct Rests {
    pub inner: Rest,
    pub outer: Rest,
    pub total: u32,
    pub others: u32,
    pub close: usize,
}

// ---- one token more, in front

// White counts 1 however long it is.
fn span(sort: Sort, len: u32) -> u32
    requires { len ≤ 65536 }
    ensures { (result ≡ span_in sort len) × (result ≤ 65536) }
{
    if matches!(sort, Sort::White) { 1 } else { len }
}

fn other(sort: Sort) -> u32
    ensures { (result ≡ other_in sort) × (result ≤ 1) }
{
    if matches!(sort, Sort::Other) { 1 } else { 0 }
}

fn close_after(sort: Sort, i: usize, close: usize) -> usize
    ensures { result ≡ close_in sort i close }
{
    if matches!(sort, Sort::Close) {
        i
    } else {
        close
    }
}

// At an opening bracket rest is what is read under it. A stray close does not stop at the open level 0.
fn back(outer: bool, sort: Sort, len: u32, rest: Rest) -> Rest
    requires few { Few rest }
    requires len_bound { len ≤ 65536 }
    ensures { result ≡ back_in outer 0 sort len rest }
{
    match sort {
        Sort::Head | Sort::Semicolon => Rest::NOTHING,
        Sort::Close if !outer => Rest::NOTHING,
        Sort::Close => Rest {
            full: rest.full + len,
            ..rest
        },
        Sort::White => Rest {
            full: rest.full + 1,
            ..rest
        },
        Sort::Open => Rest {
            full: rest.full + len,
            blocks: rest.blocks + 1,
            ..rest
        },
        Sort::Comma => Rest {
            full: rest.full + len,
            commas: rest.commas + 1,
            first: false,
            ..rest
        },
        Sort::Other => Rest {
            full: rest.full + len,
            first: true,
            ..rest
        },
    }
}

fn in_front(sort: Sort, len: u32, i: usize, f: Rests) -> Rests
    requires few_rests { FewRests f }
    requires len_bound { len ≤ 65536 }
    ensures { result ≡ front_in sort len i f }
{
    Rests {
        inner: back(false, sort, len, f.inner),
        outer: back(true, sort, len, f.outer),
        total: f.total + span(sort, len),
        others: f.others + other(sort),
        close: close_after(sort, i, f.close),
    }
}

// Of no token.
fn end_of(n: usize) -> Rests
    ensures { result ≡ ended n }
{
    Rests {
        inner: Rest::NOTHING,
        outer: Rest::NOTHING,
        total: 0,
        others: 0,
        close: n,
    }
}

// ---- the row of a token

fn counts(rest: Rest) -> u32
    requires { Few rest }
    ensures { result ≡ counts_of rest }
{
    rest.blocks * 65536 + rest.commas + u32::from(rest.first)
}

fn marks(f: Rests) -> u32
    requires { FewRests f }
    ensures { result ≡ marks_of f }
{
    let firsts = u32::from(f.inner.first) * 2 + u32::from(f.outer.first);
    (f.others * 4 + firsts) * 2048 + f.close as u32
}

#[tactic(auto, using(crate::proofs::RowLaws::row_put))]
fn put_row(table: &mut [u32], i: usize, f: Rests)
    requires few_rests { FewRests f }
    requires i_in_bounds { 6 * i + 6 ≤ length table.old }
    ensures { table.new ≡ with_row table.old i f }
{
    put_two(table, i, 0, f.inner.full, counts(f.inner));
    put_two(table, i, 2, f.outer.full, counts(f.outer));
    put_two(table, i, 4, f.total, marks(f));
}

fn rest_of(full: u32, counts: u32, first: u32) -> Rest
    ensures { result ≡ rest_in full counts first }
{
    Rest {
        full,
        blocks: counts / 65536,
        commas: (counts % 65536).saturating_sub(first),
        first: first == 1,
    }
}

#[tactic(auto, unfolding(crate::specs::Rows::row_in))]
fn row_at(table: &[u32], i: usize) -> Rests
    requires { 6 * i + 6 ≤ length table.now }
    ensures { result ≡ row_in table.now i }
{
    let at = 6 * i;
    let m = table[at + 5];
    Rests {
        inner: rest_of(table[at], table[at + 1], m / 4096 % 2),
        outer: rest_of(table[at + 2], table[at + 3], m / 2048 % 2),
        total: table[at + 4],
        others: m / 8192,
        close: to_usize(m % 2048),
    }
}

// ---- an opening bracket

// What is read under an opening bracket: `within` bytes up to its close, and the rest after that.
fn under(within: u32, argument: bool, rest: Rest) -> Rest
    requires few { Few rest }
    requires within_bound { within ≤ 67108864 }
    ensures { result ≡ under_in within argument rest }
{
    Rest {
        full: rest.full + within,
        first: argument || rest.first,
        ..rest
    }
}

// What was kept of the tokens after the close of a level.
#[tactic(auto, unfolding(crate::specs::Rows::past_in))]
fn past(table: &[u32], n: usize, close: usize) -> Rests
    requires { (close ≤ n) × (6 * n ≤ length table.now) }
    ensures { result ≡ past_in table.now n close }
{
    if close == n {
        end_of(n)
    } else {
        row_at(table, close)
    }
}

// All that an opening bracket has after it, read from its close on.
fn through(f: Rests, p: Rests) -> Rests
    requires few_rests { FewRests f }
    requires few_rests_2 { FewRests p }
    requires total_le_total { p.total ≤ f.total }
    ensures { result ≡ through_in f p }
{
    let within = f.total - p.total;
    let argument = p.others < f.others;
    Rests {
        inner: under(within, argument, p.inner),
        outer: under(within, argument, p.outer),
        total: f.total,
        others: f.others,
        close: p.close,
    }
}

// ---- the pass

// Token i, f being what is read after it.
fn turn(table: &mut [u32], sheet: &[u8], base: usize, n: usize, i: usize, f: Rests) -> Rests
    requires readable { Readable sheet.now base n }
    requires i_lt_n { (i < n) × (6 * n ≤ length table.old) }
    requires read_from { ReadFrom 0 sheet.now base n (i + 1) f }
    requires rows { Rows sheet.now base n (i + 1) table.old }
    ensures read_from_2 { ReadFrom 0 sheet.now base n i result }
    ensures rows_2 { Rows sheet.now base n i table.new }
    ensures same_blocks { SameBlocks sheet.now base n table.old table.new }
{
    let sort = sort_at(sheet, base, i);
    let len = value_len(sheet, base, i);
    match sort {
        Sort::Open => {
            let after = past(table, n, f.close);
            in_front(sort, len, i, through(f, after))
        }
        // A top-level word has its facts in the table, a closing bracket what comes after it.
        Sort::Head | Sort::Close => {
            put_row(table, i, f);
            in_front(sort, len, i, f)
        }
        Sort::White | Sort::Semicolon | Sort::Comma | Sort::Other => in_front(sort, len, i, f),
    }
}

// The words of every top-level word of n tokens. Those of the opening brackets stay.
pub fn fill(table: &mut [u32], sheet: &[u8], base: usize, n: usize)
    requires readable { Readable sheet.now base n }
    requires n_in_bounds { 6 * n ≤ length table.old }
    ensures table_len_unchanged { length table.new ≡ length table.old }
    ensures spans { Spans sheet.now base n table.new }
    ensures same_blocks { SameBlocks sheet.now base n table.old table.new }
{
    let mut f = end_of(n);
    for i in (0..n).rev() {
        f = turn(table, sheet, base, n, i, f);
    }
}
