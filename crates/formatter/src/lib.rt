// formatter.rs, `format`: every token in turn, by the fmt switch and its kind.
#![tactic(auto)]

ghost use Rattle.std.specs.Prelude.{◌≡◌, true, false, ◌∷◌, map, ℕ, ◌*◌, ◌^◌, ◌≤◌, ◌<◌, length};
ghost use Rattle.rules.specs.Text.{bytes_in, trimmed};
ghost use Rattle.rules.specs.declared.TokenKind.TheVariants as kind;
ghost use Rattle.rules.specs.declared.Sort.TheVariants as sort;
ghost use Rattle.rules.specs.Sheet.{token_of, tokens_of};
ghost use Rattle.rules.specs.Rows.{trim_row, placeholders};
ghost use Rattle.rows.specs.Listing.{rows_in, listing, Listed};
ghost use Rattle.rules.specs.Span.{sort_in, top_level_tokens_info};
ghost use Rattle.rules.specs.InlineBlock.{build_info};
ghost use Rattle.table.specs.Table.{Filled};
ghost use Rattle.table.specs.Facts.{SameFacts};
ghost use Rattle.rules.specs.Answer.{taken_as};
ghost use Rattle.state.specs.Of.{Known, Ready, Handled, with_text, here_in};
ghost use Rattle.formatter.specs.Run.{token_rule, changes_kind, changes_in, Begun, answer_in, list_in, kind_in};
ghost use Rattle.values.specs.On.{separates};
ghost use Rattle.rules.specs.Answer.{report_of, buffer_of, finish as finish_of};
ghost use Rattle.text.specs.Held.{text_of, Held};

use ahead::top_level_tokens_info;
use around::is_byte;
use fmt_switch::Switch;
use indentation::Indentation;
use inline_block::InlineBlock;
use rules::{BlockInfo, Report, SpanInfo, TokenKind, Turn};
use state::{Context, State, value_of};
use switched::lays_out;
use text::Text;

// Whether a token that is laid out changes more of the state than the text.
fn changes_state(sheet: &[u8], x: Context, i: usize, kind: TokenKind) -> bool
    requires { (Known sheet.now x) × (i < x.counts.tokens) }
    ensures { result ≡ changes_kind kind (separates sheet.now x i) }
{
    match kind {
        TokenKind::Whitespace => false,
        TokenKind::LineComment => false,
        TokenKind::BlockComment => false,
        TokenKind::TypeSpecifier => false,
        TokenKind::String => is_byte(sheet, x.base, i, b';'),
        TokenKind::Operator => is_byte(sheet, x.base, i, b';'),
        TokenKind::Number => is_byte(sheet, x.base, i, b';'),
        TokenKind::Word => is_byte(sheet, x.base, i, b';'),
        TokenKind::Join => is_byte(sheet, x.base, i, b';'),
        _ => true,
    }
}

fn changes(sheet: &[u8], x: Context, i: usize, kind: TokenKind, turn: Turn) -> bool
    requires { (Known sheet.now x) × (i < x.counts.tokens) }
    ensures { result ≡ changes_in turn kind (separates sheet.now x i) }
{
    match turn {
        Turn::LaidOut => changes_state(sheet, x, i, kind),
        _ => false,
    }
}

// A token that changes the text alone.
fn format_text(
    query: &mut [u8],
    s: State,
    sheet: &[u8],
    x: Context,
    i: usize,
    kind: TokenKind,
) -> Text
    requires ready { Ready sheet.now x i s query.old }
    requires kind_value { kind ≡ kind_in sheet.now x i }
    requires i_value { changes_kind kind (separates sheet.now x i) ≡ false }
    ensures { Handled sheet.now x i token_rule s query.old (with_text s result) query.new }
{
    let t = s.text;
    match kind {
        TokenKind::Whitespace => t,
        TokenKind::LineComment => comments::format_line_comment(query, s, sheet, x, i),
        TokenKind::BlockComment => comments::format_block_comment(query, s, sheet, x, i),
        TokenKind::TypeSpecifier => comments::format_type_specifier(query, s, sheet, x, i),
        _ => values::format_by_value(query, s, sheet, x, i),
    }
}

// A switch comment and a dropped token do nothing else.
fn text_taken_as(
    query: &mut [u8],
    s: State,
    sheet: &[u8],
    x: Context,
    i: usize,
    kind: TokenKind,
    turn: Turn,
) -> Text
    requires ready { Ready sheet.now x i s query.old }
    requires kind_value { kind ≡ kind_in sheet.now x i }
    requires i_value { changes_in turn kind (separates sheet.now x i) ≡ false }
    ensures { Handled sheet.now x i (taken_as turn) s query.old (with_text s result) query.new }
{
    let t = s.text;
    match turn {
        Turn::Dropped => t,
        Turn::Switches(_) => t,
        Turn::LaidOut => format_text(query, s, sheet, x, i, kind),
        Turn::Copied => values::format_no_change(query, s, sheet, x, i),
    }
}

fn begin(query: &mut [u8]) -> State
    ensures { Begun result (length query.old) query.new }
{
    let text = text::begin(query);
    State {
        text,
        indentation: Indentation::new(),
        inline_block: InlineBlock::new(),
        block_level: 0,
        index: 0,
    }
}

// The report of a text that is done; the rows are trimmed with it.
fn finish(query: &mut [u8], rows: &mut [u32], count: usize, t: Text) -> Report
    requires held { Held t query.old }
    requires fault_value { t.fault ≡ 0 }
    requires query_len_bound { length (trimmed (bytes_in (text_of t query.old))) < 2 ^ 60 }
    requires listed { Listed rows.old count }
    ensures by_index { (i : ℕ) → result ≡ report_of (finish_of i (text_of t query.old)) }
    ensures by_index_2 { (i : ℕ) → query.new ≡ buffer_of (length query.old) (finish_of i (text_of t query.old)) }
    ensures rows_after { rows.new ≡ listing (length rows.old) (map (trim_row (bytes_in (text_of t query.old))) (rows_in count rows.old)) }
{
    let done = report::finish(query, t);
    let end = done.end;
    rows::trim(rows, count, end, end - done.len);
    Report {
        refusal: 0,
        place: 0,
        length: done.len as u64,
        lines: done.lines as u64,
        width: done.width as u64,
    }
}

// The span of a top-level word, block_len being the length of the inline block around it. A filled table has it; else it is read ahead.
fn span_info(
    sheet: &[u8],
    x: Context,
    i: usize,
    level: u32,
    block_len: u32,
    table: &[u32],
    with_table: bool,
) -> SpanInfo
    requires known { (Known sheet.now x) × (i < x.counts.tokens) × (level ≤ i) }
    requires i_value { sort_in (token_of sheet.now x.base i) ≡ sort.Head }
    requires filled { with_table ≡ true → Filled sheet.now x.base x.counts.tokens table.now }
    ensures { result ≡ top_level_tokens_info x.options level block_len (here_in sheet.now x i).after }
{
    let c = x.counts;
    let o = x.options;
    let n = c.tokens;
    if with_table {
        return table::top_level_tokens_info(table, sheet, x.base, n, i, level, o, block_len);
    }
    top_level_tokens_info(sheet, x.base, n, i, level, o, block_len)
}

// The same for the block of an opening bracket.
fn block_info(sheet: &[u8], x: Context, i: usize, table: &[u32], with_table: bool) -> BlockInfo
    requires known { (Known sheet.now x) × (i < x.counts.tokens) }
    requires i_value { kind_in sheet.now x i ≡ kind.OpenParen }
    requires filled { with_table ≡ true → Filled sheet.now x.base x.counts.tokens table.now }
    ensures { SameFacts result (build_info ((here_in sheet.now x i).token ∷ (here_in sheet.now x i).after)) }
{
    let c = x.counts;
    let n = c.tokens;
    if with_table {
        return table::build_info(table, sheet, x.base, n, i);
    }
    blocks::build_info(sheet, x.base, n, i)
}

// Without `with_rows` no row is kept. With `with_table` what is read ahead comes from the table.
pub fn format(
    query: &mut [u8],
    rows: &mut [u32],
    with_rows: bool,
    sheet: &[u8],
    x: Context,
    table: &[u32],
    with_table: bool,
) -> Report
    requires known { Known sheet.now x }
    requires counts_in_bounds { with_rows ≡ true → 5 * placeholders (tokens_of sheet.now x.counts) ≤ length rows.old }
    requires filled { with_table ≡ true → Filled sheet.now x.base x.counts.tokens table.now }
    ensures value { result ≡ report_of (answer_in sheet.now x (length query.old)) }
    ensures query_after { query.new ≡ buffer_of (length query.old) (answer_in sheet.now x (length query.old)) }
    ensures rows_after { rows.new ≡ list_in sheet.now x (length query.old) with_rows (length rows.old) }
{
    let c = x.counts;
    let n = c.tokens;
    rows::clear(rows);
    let mut s = begin(query);
    let mut switch = Switch::new();
    let mut entry: u32 = 0;
    let mut shown: u32 = 0;
    let mut count: usize = 0;
    let mut i: usize = 0;
    while i < n {
        let u = s.text;
        s.text = text::mark(u);
        let kind = tokens::kind_at(sheet, i);
        let v = value_of(sheet, x, i);
        let turn = switch.turn_of(kind, sheet, v.start, v.len);
        switch = switch.after(turn);
        if changes(sheet, x, i, kind, turn) {
            match kind {
                TokenKind::ReservedTopLevel => {
                    let inline = s.inline_block;
                    let len = inline.cur_len();
                    let span = span_info(sheet, x, i, s.block_level, len, table, with_table);
                    s = top_level::format_top_level_reserved_word(query, s, sheet, x, i, span);
                }
                TokenKind::ReservedTopLevelNoIndent => {
                    let inline = s.inline_block;
                    let len = inline.cur_len();
                    let span = span_info(sheet, x, i, s.block_level, len, table, with_table);
                    s = top_level::format_top_level_reserved_word_no_indent(
                        query, s, sheet, x, i, span,
                    );
                }
                TokenKind::ReservedNewlineAfter => {
                    let inline = s.inline_block;
                    let len = inline.cur_len();
                    let span = span_info(sheet, x, i, s.block_level, len, table, with_table);
                    s = top_level::format_newline_after_reserved_word(query, s, sheet, x, i, span);
                }
                TokenKind::ReservedNewline => {
                    s = reserved::format_newline_reserved_word(query, s, sheet, x, i);
                }
                TokenKind::Reserved => {
                    s = reserved::format_reserved(query, s, sheet, x, i);
                }
                TokenKind::OpenParen => {
                    let info = block_info(sheet, x, i, table, with_table);
                    s = brackets::format_opening_parentheses(query, s, sheet, x, i, info);
                }
                TokenKind::CloseParen => {
                    s = brackets::format_closing_parentheses(query, s, sheet, x, i);
                }
                TokenKind::Placeholder => {
                    let f = values::format_placeholder(query, s, sheet, x, i);
                    let u = f.text;
                    s.text = u;
                    s.index = f.index;
                    entry = f.entry;
                    shown = f.len;
                }
                _ => {
                    s = values::format_query_separator(query, s, sheet, x, i);
                }
            }
        } else {
            let u = text_taken_as(query, s, sheet, x, i, kind, turn);
            s.text = u;
        }
        let t = s.text;
        if t.fault != 0 {
            rows::clear(rows);
            return Report {
                refusal: t.fault,
                place: i as u64,
                length: 0,
                lines: 0,
                width: 0,
            };
        }
        let kept = with_rows & lays_out(turn, kind);
        count = rows::after(rows, count, t.low, kept, i as u32, entry, t.low, shown);
        i += 1;
    }
    let t = s.text;
    finish(query, rows, count, t)
}
