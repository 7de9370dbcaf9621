// Handlers that go by a token's value: signs, placeholders, and what has no rule of its own. They leave the stacks as they are, but for `;`, and then give the text alone.
#![tactic(auto)]

ghost use Rattle.std.specs.Prelude.{◌≡◌, false, ◌+◌, ◌≤◌};
ghost use Rattle.rules.specs.Formatter.{format_no_change, format_with_spaces, format_with_space_after, format_without_spaces, format_comma, format_query_separator, format_placeholder, format_by_value, span_within};
ghost use Rattle.indentation.specs.Of.{indentation_of, Clean};
ghost use Rattle.state.specs.Of.{Known, Ready, Handled, with_text};
ghost use Rattle.state.specs.Below.{WordBelow, Below};
ghost use Rattle.values.specs.Comma.{limit_in, breaks_in};
ghost use Rattle.rules.specs.Rows.{entry_word};
ghost use Rattle.params.specs.Found.{Below as Under};
ghost use Rattle.values.specs.On.{on_value, on_token, placed, with_index, separates, RowIn};

use around::is_byte;
use indentation::Indentation;
use query::Value;
use rules::{Place, SpanInfo};
use state::{Context, State, value_of};
use text::Text;
use tokens::{to_usize, token_at};

// What a placeholder leaves.
#[derive(Drop)]
pub struct Filled {
    pub text: Text,
    pub index: u32,
    pub entry: u32,
    pub len: u32,
}

pub fn format_no_change(query: &mut [u8], s: State, sheet: &[u8], x: Context, i: usize) -> Text
    requires { Ready sheet.now x i s query.old }
    ensures { Handled sheet.now x i format_no_change s query.old (with_text s result) query.new }
{
    let v = value_of(sheet, x, i);
    let t = s.text;
    query::format_no_change(query, t, sheet, v)
}

pub fn format_with_spaces(query: &mut [u8], s: State, sheet: &[u8], x: Context, i: usize) -> Text
    requires { Ready sheet.now x i s query.old }
    ensures { Handled sheet.now x i (on_value format_with_spaces) s query.old (with_text s result) query.new }
{
    let v = value_of(sheet, x, i);
    let t = s.text;
    query::format_with_spaces(query, t, sheet, v)
}

pub fn format_with_space_after(
    query: &mut [u8],
    s: State,
    sheet: &[u8],
    x: Context,
    i: usize,
) -> Text
    requires { Ready sheet.now x i s query.old }
    ensures { Handled sheet.now x i (on_value format_with_space_after) s query.old (with_text s result) query.new }
{
    let v = value_of(sheet, x, i);
    let t = s.text;
    query::format_with_space_after(query, t, sheet, v)
}

pub fn format_without_spaces(query: &mut [u8], s: State, sheet: &[u8], x: Context, i: usize) -> Text
    requires { Ready sheet.now x i s query.old }
    ensures { Handled sheet.now x i (on_value format_without_spaces) s query.old (with_text s result) query.new }
{
    let v = value_of(sheet, x, i);
    let t = s.text;
    query::format_without_spaces(query, t, sheet, v)
}

// ---- a comma

// The last reserved word is LIMIT.
#[tactic(auto, using(crate::proofs::Laws::by_word), unfolding(crate::specs::Comma::limit_in))]
fn is_limit(sheet: &[u8], x: Context, w: Option<u16>) -> bool
    requires { (Known sheet.now x) × (WordBelow x.counts.tokens w) }
    ensures { result ≡ limit_in sheet.now x w }
{
    match w {
        None => false,
        Some(n) => {
            let v = value_of(sheet, x, n as usize);
            ascii::is_lower(sheet, v.start, v.len, b"limit")
        }
    }
}

#[tactic(auto, unfolding(rules::specs::Formatter::span_within))]
fn span_within(most: u32, last: Option<SpanInfo>) -> bool
    ensures { result ≡ span_within most last }
{
    match last {
        None => false,
        Some(sp) => sp.full_span <= most,
    }
}

fn comma_breaks(sheet: &[u8], x: Context, active: bool, stacks: Indentation) -> bool
    requires { (Known sheet.now x) × (Clean stacks) × (Below x.counts.tokens (indentation_of stacks)) }
    ensures { result ≡ breaks_in sheet.now x active (indentation_of stacks) }
{
    if active {
        return false;
    }
    let last = stacks.previous_words();
    if is_limit(sheet, x, last.reserved()) {
        return false;
    }
    let o = x.options;
    let limit = o.max_inline_arguments;
    !span_within(limit.unwrap_or(0), last.top_level_reserved())
}

pub fn format_comma(query: &mut [u8], s: State, sheet: &[u8], x: Context, i: usize) -> Text
    requires { Ready sheet.now x i s query.old }
    ensures { Handled sheet.now x i (on_value format_comma) s query.old (with_text s result) query.new }
{
    let v = value_of(sheet, x, i);
    let inline = s.inline_block;
    let stacks = s.indentation;
    let breaks = comma_breaks(sheet, x, inline.is_active(), stacks);
    let level = stacks.indent_level(false);
    let t = s.text;
    let o = x.options;
    query::format_comma(query, t, sheet, v, o, breaks, level)
}

// ---- a query separator

// The next query starts with no indent and no previous word.
pub fn format_query_separator(
    query: &mut [u8],
    s: State,
    sheet: &[u8],
    x: Context,
    i: usize,
) -> State
    requires { Ready sheet.now x i s query.old }
    ensures { Handled sheet.now x i (on_value format_query_separator) s query.old result query.new }
{
    let v = value_of(sheet, x, i);
    let stacks = s.indentation;
    let t = s.text;
    let o = x.options;
    let u = query::format_query_separator(query, t, sheet, v, o.lines_between_queries);
    s.with_indentation(u, stacks.reset_indentation())
}

// ---- a placeholder

// A place, counted from the start of the sheet.
fn value_in(base: usize, p: Place) -> Value
    requires { base + p.start ≤ 65536 }
    ensures { result ≡ placed base p }
{
    Value {
        start: base + to_usize(p.start),
        len: to_usize(p.len),
    }
}

// An entry's number, in its word of a row.
#[tactic(auto, unfolding(rules::specs::Rows::entry_word))]
fn entry_word(e: Option<usize>) -> u32
    requires { Under 4294967295 e }
    ensures { result ≡ entry_word e }
{
    match e {
        Some(n) => n as u32,
        None => u32::MAX,
    }
}

// The text and the counter after it; the entry's word and the length of what is shown are for its row.
pub fn format_placeholder(query: &mut [u8], s: State, sheet: &[u8], x: Context, i: usize) -> Filled
    requires { Ready sheet.now x i s query.old }
    ensures handled { Handled sheet.now x i (on_token format_placeholder) s query.old (with_index s result.text result.index) query.new }
    ensures row_in { RowIn sheet.now x i s query.old result.entry result.len }
{
    let token = token_at(sheet, i);
    let c = x.counts;
    let shown = lent::get_counted(sheet, c, token, s.index);
    let p = shown.place;
    let v = value_in(x.base, p);
    let five = params::offends(sheet, token);
    let found = shown.entry;
    let entry = entry_word(found);
    let t = s.text;
    let text = query::format_placeholder(query, t, sheet, v, five);
    Filled {
        text,
        index: shown.index,
        entry,
        len: p.len,
    }
}

// ---- by the value

// Strings, operators, numbers, words and joins: a sign is told by its value, whatever its kind. A query separator is another handler's.
pub fn format_by_value(query: &mut [u8], s: State, sheet: &[u8], x: Context, i: usize) -> Text
    requires ready { Ready sheet.now x i s query.old }
    requires i_value { separates sheet.now x i ≡ false }
    ensures { Handled sheet.now x i (on_value format_by_value) s query.old (with_text s result) query.new }
{
    if is_byte(sheet, x.base, i, b',') {
        return format_comma(query, s, sheet, x, i);
    }
    if is_byte(sheet, x.base, i, b':') {
        return format_with_space_after(query, s, sheet, x, i);
    }
    if is_byte(sheet, x.base, i, b'.') {
        return format_without_spaces(query, s, sheet, x, i);
    }
    format_with_spaces(query, s, sheet, x, i)
}
