// formatter.rs, `top_level_tokens_info`: the span of a top-level word, read from the tokens after it.
#![tactic(auto)]

ghost use Rattle.std.specs.Prelude.{◌≡◌, ◌-◌, ◌≤◌, ◌<◌};
ghost use Rattle.rules.specs.Bytes.{bytes};
ghost use Rattle.rules.specs.Base.{same};
ghost use Rattle.rules.specs.Sheet.{token_of, here_at};
ghost use Rattle.rules.specs.Span.{operator_sort, sort_in, stops_at, one_more, counted_in, scan, unread, span_limit, breaks_before, span_of, top_level_tokens_info};
ghost use Rattle.tokens.specs.Placed.{Within};
ghost use Rattle.around.specs.Readable.{Readable};
ghost use Rattle.ahead.specs.Small.{Small};

use around::{is_byte, value_len};
use rules::{FormatOptions, Scan, Sort, SpanInfo, TokenKind};
use tokens::kind_at;

// One more at the open level o.
fn one_more(level: u32, o: u32, n: u16) -> u16
    requires { n < 65535 }
    ensures { result ≡ one_more level o n }
{
    if level == o { n + 1 } else { n }
}

// ---- one token

fn operator_sort(sheet: &[u8], base: usize, i: usize) -> Sort
    requires { Within sheet.now base i }
    ensures { result ≡ operator_sort (same (token_of sheet.now base i).value (bytes ";")) (same (token_of sheet.now base i).value (bytes ",")) }
{
    if is_byte(sheet, base, i, b';') {
        Sort::Semicolon
    } else if is_byte(sheet, base, i, b',') {
        Sort::Comma
    } else {
        Sort::Other
    }
}

// Only an operator's value is looked at.
#[tactic(auto, unfolding(rules::specs::Span::sort_in))]
pub fn sort_at(sheet: &[u8], base: usize, i: usize) -> Sort
    requires { Within sheet.now base i }
    ensures { result ≡ sort_in (token_of sheet.now base i) }
{
    match kind_at(sheet, i) {
        TokenKind::Whitespace => Sort::White,
        TokenKind::ReservedTopLevel
        | TokenKind::ReservedTopLevelNoIndent
        | TokenKind::ReservedNewlineAfter => Sort::Head,
        TokenKind::Operator => operator_sort(sheet, base, i),
        TokenKind::OpenParen => Sort::Open,
        TokenKind::CloseParen => Sort::Close,
        _ => Sort::Other,
    }
}

fn stops(o: u32, sort: Sort, level: u32) -> bool
    ensures { result ≡ stops_at o sort level }
{
    match sort {
        Sort::Close => level.saturating_sub(1) < o,
        Sort::Head | Sort::Semicolon => level == o,
        Sort::Open | Sort::White | Sort::Comma | Sort::Other => false,
    }
}

// White counts 1 however long it is.
fn counted(o: u32, sort: Sort, len: u32, a: Scan) -> Scan
    requires small { Small 1024 1024 a }
    requires len_bound { len ≤ 65536 }
    ensures { result ≡ counted_in o sort len a }
{
    match sort {
        Sort::White => Scan {
            full_span: a.full_span + 1,
            ..a
        },
        Sort::Open => Scan {
            level: a.level + 1,
            full_span: a.full_span + len,
            blocks: one_more(a.level, o, a.blocks),
            ..a
        },
        Sort::Close => Scan {
            level: a.level.saturating_sub(1),
            full_span: a.full_span + len,
            ..a
        },
        Sort::Comma => Scan {
            full_span: a.full_span + len,
            arguments: one_more(a.level, o, a.arguments),
            ..a
        },
        Sort::Other => Scan {
            full_span: a.full_span + len,
            arguments: a.arguments.max(1),
            ..a
        },
        Sort::Head | Sort::Semicolon => Scan {
            full_span: a.full_span + len,
            ..a
        },
    }
}

// ---- all tokens after one

// The tokens after token i of n, o being the open level.
#[tactic(auto, using(crate::proofs::Laws::reading_ends, crate::proofs::Laws::reading_stops))]
fn read_on(sheet: &[u8], base: usize, n: usize, i: usize, o: u32) -> Scan
    requires readable { Readable sheet.now base n }
    requires i_lt_n { (i < n) × (o ≤ 1024) }
    ensures { result ≡ scan o (here_at sheet.now base n i).after (unread o) }
{
    let mut a = Scan {
        level: o,
        full_span: 0,
        blocks: 0,
        arguments: 0,
    };
    for j in i + 1..n {
        let sort = sort_at(sheet, base, j);
        if stops(o, sort, a.level) {
            return a;
        }
        a = counted(o, sort, value_len(sheet, base, j), a);
    }
    a
}

fn span_limit(limit: u32, arguments_limit: u32, arguments: u16) -> u32
    ensures { result ≡ span_limit limit arguments_limit arguments }
{
    if arguments <= 1 || arguments_limit == 0 {
        limit
    } else {
        arguments_limit.min(limit)
    }
}

fn breaks_before(limit: u32, block_len: u32) -> bool
    ensures { result ≡ breaks_before limit block_len }
{
    block_len == 0 || limit < block_len
}

pub fn span_of(options: FormatOptions, block_len: u32, a: Scan) -> SpanInfo
    ensures { result ≡ span_of options block_len a }
{
    let limit = options.max_inline_top_level.unwrap_or(0);
    let most = options.max_inline_arguments.unwrap_or(0);
    SpanInfo {
        full_span: a.full_span,
        blocks: a.blocks,
        newline_before: breaks_before(limit, block_len),
        newline_after: span_limit(limit, most, a.arguments) < a.full_span,
        arguments: a.arguments,
    }
}

// Token i of n is a top-level word; block_len is the length of the innermost inline block, or 0.
#[tactic(auto, unfolding(rules::specs::Span::top_level_tokens_info))]
pub fn top_level_tokens_info(
    sheet: &[u8],
    base: usize,
    n: usize,
    i: usize,
    level: u32,
    options: FormatOptions,
    block_len: u32,
) -> SpanInfo
    requires readable { Readable sheet.now base n }
    requires i_lt_n { (i < n) × (level ≤ 1024) }
    ensures { result ≡ top_level_tokens_info options level block_len (here_at sheet.now base n i).after }
{
    span_of(options, block_len, read_on(sheet, base, n, i, level))
}
