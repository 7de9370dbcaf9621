// The blocks of the table: the facts of every opening bracket, each token read once. First from the left the depth before each token, then from the
// right the rows. Row d also says where the depth d goes on: the first top-level word of that depth, and the first close that leaves it.
// The index n stands for a token that is not there, in a row as well: one comparison with a cut then asks both.
#![tactic(auto)]

ghost use Rattle.std.specs.Prelude.{if◌then◌else◌, ◌≡◌, true, ◌+◌, ◌*◌, ◌/◌, ◌%◌, ◌≤◌, ◌<◌, length as length_of};
ghost use Rattle.rules.specs.Words.{token_at};
ghost use Rattle.rules.specs.Sheet.{token_of};
ghost use Rattle.rules.specs.InlineBlock.{part_of};
ghost use Rattle.rules.specs.declared.Part.TheVariants.{Top as is_atop, Close as is_aclose, Open as is_an_open};
ghost use Rattle.around.specs.Readable.{Readable};
ghost use Rattle.table.specs.Table.{with_words, Blocks};
ghost use Rattle.table_blocks.specs.Sums.{part_at, depth, size};
ghost use Rattle.table_blocks.specs.First.{First, top_at, top_of, close_to};
ghost use Rattle.table_blocks.specs.Spans.{span_from};
ghost use Rattle.table_blocks.specs.Rows.{CountedFrom, Segment, step_words, top_words, top_in, counted_words, counted_in, onward_words, onward_in, Written, Rows, Stepped, Walked, EndedAt};

use around::value_len;
use blocks::{is_forbidden_token, is_newline, level_after, part_of};
use rules::Part;
use table::put_two;
use tokens::kind_at;

// What is counted from a token on: the bytes, the newline words and the forbidden tokens. In the row of a close the bytes are those after it.
#[derive(Clone, Copy)]
struct Counted {
    length: u32,
    newlines: usize,
    forbidden: usize,
}

impl Counted {
    const NOTHING: Counted = Counted {
        length: 0,
        newlines: 0,
        forbidden: 0,
    };
}

// A part of the chain of top-level words: its longest span, its last word, and the word where the chain goes on.
#[derive(Clone, Copy)]
struct Step {
    best: u32,
    last: usize,
    resume: usize,
}

// A top-level word: the length after it, the next of its depth, the next of any, and a part of the chain from it on.
#[derive(Clone, Copy)]
struct Top {
    length: u32,
    next: usize,
    after: usize,
    step: Step,
}

// Where a depth goes on, and beside that the depth before the token of this row.
#[derive(Clone, Copy)]
struct Onward {
    top: usize,
    depth: usize,
    close: usize,
}

// ---- two numbers in a word

fn pair(high: usize, low: usize) -> u32
    requires { (high ≤ 1024) × (low ≤ 1024) }
    ensures { result ≡ high * 65536 + low }
{
    (high * 65536 + low) as u32
}

fn halves(w: u32) -> (usize, usize)
    ensures { (result.0 ≡ w / 65536) × (result.1 ≡ w % 65536) }
{
    ((w / 65536) as usize, (w % 65536) as usize)
}

// ---- the words of a row

fn put_step(table: &mut [u32], t: usize, step: Step)
    requires t_in_bounds { 6 * t + 6 ≤ length_of table.old }
    requires few { (step.last ≤ 1024) × (step.resume ≤ 1024) }
    ensures { table.new ≡ with_words table.old t 2 (step_words step) }
{
    put_two(table, t, 2, step.best, pair(step.last, step.resume));
}

#[tactic(auto, using(table::proofs::Words::more_put))]
fn put_word(table: &mut [u32], t: usize, word: Top)
    requires t_in_bounds { 6 * t + 6 ≤ length_of table.old }
    requires few { (word.next ≤ 1024) × (word.after ≤ 1024) × (word.step.last ≤ 1024) × (word.step.resume ≤ 1024) }
    ensures { table.new ≡ with_words table.old t 0 (top_words word) }
{
    put_two(table, t, 0, word.length, pair(word.next, word.after));
    put_step(table, t, word.step);
}

fn word_at(table: &[u32], t: usize) -> Top
    requires { 6 * t + 6 ≤ length_of table.now }
    ensures { result ≡ top_in table.now t }
{
    let at = 6 * t;
    let (next, after) = halves(table[at + 1]);
    let (last, resume) = halves(table[at + 3]);
    Top {
        length: table[at],
        next,
        after,
        step: Step {
            best: table[at + 2],
            last,
            resume,
        },
    }
}

fn put_counted(table: &mut [u32], k: usize, counted: Counted)
    requires k_in_bounds { 6 * k + 6 ≤ length_of table.old }
    requires few { (counted.newlines ≤ 1024) × (counted.forbidden ≤ 1024) }
    ensures { table.new ≡ with_words table.old k 0 (counted_words counted) }
{
    put_two(
        table,
        k,
        0,
        counted.length,
        pair(counted.newlines, counted.forbidden),
    );
}

fn counted_at(table: &[u32], k: usize) -> Counted
    requires { 6 * k + 6 ≤ length_of table.now }
    ensures { result ≡ counted_in table.now k }
{
    let at = 6 * k;
    let (newlines, forbidden) = halves(table[at + 1]);
    Counted {
        length: table[at],
        newlines,
        forbidden,
    }
}

fn put_onward(table: &mut [u32], d: usize, onward: Onward)
    requires d_in_bounds { 6 * d + 6 ≤ length_of table.old }
    requires few { (onward.top ≤ 1024) × (onward.depth ≤ 1024) × (onward.close ≤ 1024) }
    ensures { table.new ≡ with_words table.old d 4 (onward_words onward) }
{
    put_two(
        table,
        d,
        4,
        pair(onward.top, onward.depth),
        onward.close as u32,
    );
}

fn onward_at(table: &[u32], d: usize) -> Onward
    requires { 6 * d + 6 ≤ length_of table.now }
    ensures { result ≡ onward_in table.now d }
{
    let (top, depth) = halves(table[6 * d + 4]);
    Onward {
        top,
        depth,
        close: table[6 * d + 5] as usize,
    }
}

// The facts of a block.
fn facts(span: u32, forbidden: bool, reserved: bool) -> u32
    requires { span ≤ 67108864 }
    ensures { result ≡ span * 4 + (if forbidden then 2 else 0) + (if reserved then 1 else 0) }
{
    span * 4 + u32::from(forbidden) * 2 + u32::from(reserved)
}

// ---- from the left

// The depth before each token. No top-level word and no close is known yet.
fn put_depths(table: &mut [u32], sheet: &[u8], base: usize, n: usize)
    requires readable { Readable sheet.now base n }
    requires n_in_bounds { 6 * n ≤ length_of table.old }
    ensures { Rows (token_of sheet.now base) n n table.new }
{
    let mut level = 0;
    for j in 0..n {
        let onward = Onward {
            top: n,
            depth: level as usize,
            close: n,
        };
        put_onward(table, j, onward);
        level = level_after(part_of(kind_at(sheet, j)), level);
    }
}

// ---- the chain of top-level words. Here the sheet only names the tokens in the contracts: no function reads it.

// The step from the word t to the next of its depth, u, which may be n: then there is none. length is what is counted after t.
fn one_step(
    table: &[u32],
    sheet: &[u8],
    base: usize,
    n: usize,
    t: usize,
    u: usize,
    length: u32,
) -> Step
    requires written { Written (token_of sheet.now base) n (t + 1) table.now }
    requires t_len { (length + size (token_of sheet.now base) (t + 1) ≡ size (token_of sheet.now base) n) × (top_at (token_of sheet.now base) t ≡ true) }
    requires first { First (top_of (token_of sheet.now base) (depth (token_of sheet.now base) t)) (t + 1) n u }
    ensures segment { u < n → Segment (token_of sheet.now base) n t result }
    ensures last_value { (result.last ≡ u) × (result.resume ≤ n) }
{
    if u < n {
        let next = word_at(table, u);
        Step {
            best: length - next.length,
            last: u,
            resume: next.after,
        }
    } else {
        Step {
            best: 0,
            last: n,
            resume: n,
        }
    }
}

// The part of the chain that the row of the word t has, if it ends before the cut e; else one step, if that does; else none.
fn step_before(
    table: &[u32],
    sheet: &[u8],
    base: usize,
    n: usize,
    t: usize,
    e: usize,
) -> Option<Step>
    requires written { Written (token_of sheet.now base) n t table.now }
    requires t_lt_e { (t < e) × (e ≤ n) × (top_at (token_of sheet.now base) t ≡ true) }
    ensures { Stepped (token_of sheet.now base) n t e result }
{
    let word = word_at(table, t);
    if word.step.last < e {
        Some(word.step)
    } else if word.next < e {
        Some(one_step(table, sheet, base, n, t, word.next, word.length))
    } else {
        None
    }
}

// From the word t to the cut e. No two words go on at the same one, and a block lies in its outer block or behind it: so all walks together take
// each word about once.
fn walk(table: &[u32], sheet: &[u8], base: usize, n: usize, t: usize, e: usize) -> Option<Step>
    requires written { Written (token_of sheet.now base) n t table.now }
    requires e_le_n { (e ≤ n) × First (top_at (token_of sheet.now base)) t n t }
    ensures { Walked (token_of sheet.now base) n t e result }
{
    if e <= t {
        return None;
    }
    let mut walked = step_before(table, sheet, base, n, t, e)?;
    while walked.resume < e {
        let Some(step) = step_before(table, sheet, base, n, walked.resume, e) else {
            break;
        };
        walked = Step {
            best: walked.best.max(step.best),
            ..step
        };
    }
    Some(walked)
}

// The longest span from the first word t on before the cut e. What was walked is in t's row from now on: a block around this one, that starts at
// the same word, does not walk it again.
fn span_before(
    table: &mut [u32],
    sheet: &[u8],
    base: usize,
    n: usize,
    j: usize,
    t: usize,
    e: usize,
) -> u32
    requires rows { Rows (token_of sheet.now base) n j table.old }
    requires j_le_e { (j ≤ e) × (e ≤ n) × First (top_at (token_of sheet.now base)) j n t }
    ensures rows_2 { Rows (token_of sheet.now base) n j table.new }
    ensures value { (result ≡ span_from (token_of sheet.now base) j e 0) × (result ≤ 67108864) }
{
    let Some(walked) = walk(table, sheet, base, n, t, e) else {
        return 0;
    };
    put_step(table, t, walked);
    walked.best
}

// ---- the rows, from the right

// The row of a top-level word t; length is counted after it, and top is the next such word.
fn put_top(
    table: &mut [u32],
    sheet: &[u8],
    base: usize,
    n: usize,
    t: usize,
    length: u32,
    top: usize,
)
    requires rows { Rows (token_of sheet.now base) n (t + 1) table.old }
    requires t_lt_n { (t < n) × (length + size (token_of sheet.now base) (t + 1) ≡ size (token_of sheet.now base) n) × First (top_at (token_of sheet.now base)) (t + 1) n top }
    requires t_value { part_at (token_of sheet.now base) t ≡ is_atop }
    ensures { Rows (token_of sheet.now base) n t table.new }
{
    let depth = onward_at(table, t).depth;
    let onward = onward_at(table, depth);
    let next = onward.top;
    let step = one_step(table, sheet, base, n, t, next, length);
    let word = Top {
        length,
        next,
        after: top,
        step,
    };
    put_word(table, t, word);
    put_onward(table, depth, Onward { top: t, ..onward });
}

// The row of a close k; length is counted after it, and s from it on.
fn put_close(
    table: &mut [u32],
    sheet: &[u8],
    base: usize,
    n: usize,
    k: usize,
    length: u32,
    s: Counted,
)
    requires rows { Rows (token_of sheet.now base) n (k + 1) table.old }
    requires k_lt_n { (k < n) × CountedFrom (token_of sheet.now base) n k s × (length + size (token_of sheet.now base) (k + 1) ≡ size (token_of sheet.now base) n) }
    requires k_value { part_at (token_of sheet.now base) k ≡ is_aclose }
    ensures { Rows (token_of sheet.now base) n k table.new }
{
    let depth = onward_at(table, k).depth;
    put_counted(table, k, Counted { length, ..s });
    if 0 < depth {
        let onward = onward_at(table, depth - 1);
        put_onward(table, depth - 1, Onward { close: k, ..onward });
    }
}

// What is counted from the end of a block on, m being its close: that is measured, and not tested for `;`.
fn end_at(table: &[u32], sheet: &[u8], base: usize, n: usize, d: usize, m: usize) -> Counted
    requires written { Written (token_of sheet.now base) n m table.now }
    requires first { First (close_to (token_of sheet.now base) d) m n m }
    ensures { EndedAt (token_of sheet.now base) n m result }
{
    if m < n {
        counted_at(table, m)
    } else {
        Counted::NOTHING
    }
}

// The row of an opening bracket i; s is counted from it on, and top is the first top-level word after it.
fn put_open(
    table: &mut [u32],
    sheet: &[u8],
    base: usize,
    n: usize,
    i: usize,
    top: usize,
    s: Counted,
)
    requires rows { Rows (token_of sheet.now base) n (i + 1) table.old }
    requires i_lt_n { (i < n) × CountedFrom (token_of sheet.now base) n i s × First (top_at (token_of sheet.now base)) (i + 1) n top }
    requires i_value { part_at (token_of sheet.now base) i ≡ is_an_open }
    ensures { Rows (token_of sheet.now base) n i table.new }
{
    let depth = onward_at(table, i).depth;
    let close = onward_at(table, depth).close;
    let end = end_at(table, sheet, base, n, depth, close);
    let span = span_before(table, sheet, base, n, i + 1, top, close);
    let facts = facts(span, end.forbidden < s.forbidden, end.newlines < s.newlines);
    put_two(table, i, 0, s.length - end.length, facts);
}

// ---- all tokens

// s is counted after token j.
fn count_in(sheet: &[u8], base: usize, n: usize, j: usize, part: Part, s: Counted) -> Counted
    requires readable { Readable sheet.now base n }
    requires j_lt_n { (j < n) × CountedFrom (token_of sheet.now base) n (j + 1) s }
    requires part_value { part ≡ part_of (token_at sheet.now j).kind }
    ensures { CountedFrom (token_of sheet.now base) n j result }
{
    Counted {
        length: s.length + value_len(sheet, base, j),
        newlines: s.newlines + usize::from(is_newline(part)),
        forbidden: s.forbidden + usize::from(is_forbidden_token(sheet, base, j, part)),
    }
}

pub fn fill(table: &mut [u32], sheet: &[u8], base: usize, n: usize)
    requires readable { Readable sheet.now base n }
    requires n_in_bounds { 6 * n ≤ length_of table.old }
    ensures table_unchanged { length_of table.new ≡ length_of table.old }
    ensures blocks { Blocks sheet.now base n table.new }
{
    put_depths(table, sheet, base, n);
    let mut counted = Counted::NOTHING;
    let mut top = n;
    for j in (0..n).rev() {
        let part = part_of(kind_at(sheet, j));
        let after = counted;
        counted = count_in(sheet, base, n, j, part, after);
        match part {
            Part::Top => {
                put_top(table, sheet, base, n, j, after.length, top);
                top = j;
            }
            Part::Close => put_close(table, sheet, base, n, j, after.length, counted),
            Part::Open => put_open(table, sheet, base, n, j, top, counted),
            Part::Newline | Part::Comment | Part::Rest => {}
        }
    }
}
