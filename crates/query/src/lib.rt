// What the handlers of formatter.rs do to their `query`: comments, values and signs, and the steps that all share; reserved words and brackets stand on this.
// The stacks are another crate's: a handler's levels and tests come in as plain values.
// One rule is one function, and a test in a rule is an early return: branches that meet again would have to be proved together.
#![tactic(auto)]

ghost use Rattle.std.specs.Prelude.{◌+◌, ◌≤◌, ◌<◌, length};
ghost use Rattle.rules.specs.Text.{cut_blanks, append, refuse as refused_with};
ghost use Rattle.ascii.specs.Part.{part};
ghost use Rattle.text.specs.Held.{text_of, Held, Laid};
ghost use Rattle.query.specs.Query.{line_at, closing_at, blank, after_comma, line_comment, type_specifier, block_comment, with_spaces, with_space_after, without_spaces, comma as comma_of, separator, placeholder};
ghost use Rattle.rules.specs.Base.{choose, when};

use rules::FormatOptions;
use text::{Text, is_on};

// A value: where it starts in the sheet, and its length.
#[derive(Drop)]
pub struct Value {
    pub start: usize,
    pub len: usize,
}

// ---- where a test holds

pub fn refuse_if(query: &mut [u8], t: Text, b: bool, n: u32) -> Text
    requires held { Held t query.old }
    requires n_nonzero { 0 < n }
    ensures { Laid (length query.old) (when b (refused_with n) (text_of t query.old)) result query.new }
{
    let len = t.len;
    let floor = t.floor;
    let low = t.low;
    let fault = t.fault;
    if b {
        return text::refuse(query, t, n);
    }
    Text {
        len,
        floor,
        low,
        fault,
    }
}

pub fn trim_if(query: &mut [u8], t: Text, b: bool) -> Text
    requires { Held t query.old }
    ensures { Laid (length query.old) (when b cut_blanks (text_of t query.old)) result query.new }
{
    let len = t.len;
    let floor = t.floor;
    let low = t.low;
    let fault = t.fault;
    if b {
        return text::trim_spaces_end(query, t);
    }
    Text {
        len,
        floor,
        low,
        fault,
    }
}

pub fn blank_if(query: &mut [u8], t: Text, b: bool) -> Text
    requires { Held t query.old }
    ensures { Laid (length query.old) (when b (blank (length query.old)) (text_of t query.old)) result query.new }
{
    let len = t.len;
    let floor = t.floor;
    let low = t.low;
    let fault = t.fault;
    if b {
        return text::append_byte(query, t, 32);
    }
    Text {
        len,
        floor,
        low,
        fault,
    }
}

// ---- comments and type specifiers

fn after_comma_if(query: &mut [u8], t: Text, b: bool) -> Text
    requires { Held t query.old }
    ensures { Laid (length query.old) (when b (after_comma (length query.old)) (text_of t query.old)) result query.new }
{
    let len = t.len;
    let floor = t.floor;
    let low = t.low;
    let fault = t.fault;
    if b {
        let cut = text::trim_all_spaces_end(query, t);
        return text::append_repeat(query, cut, 32, 2);
    }
    Text {
        len,
        floor,
        low,
        fault,
    }
}

fn before_line_comment(
    query: &mut [u8],
    t: Text,
    o: FormatOptions,
    level: usize,
    breaks: bool,
    comma: bool,
) -> Text
    requires held { Held t query.old }
    requires level_bound { level ≤ 128 }
    ensures { Laid (length query.old) (choose breaks (line_at (length query.old) o level) (when comma (after_comma (length query.old))) (text_of t query.old)) result query.new }
{
    if breaks {
        return add_new_line(query, t, o, level);
    }
    after_comma_if(query, t, comma)
}

pub fn format_line_comment(
    query: &mut [u8],
    t: Text,
    sheet: &[u8],
    v: Value,
    o: FormatOptions,
    level: usize,
    breaks: bool,
    comma: bool,
) -> Text
    requires held { Held t query.old }
    requires len_in_bounds { v.start + v.len ≤ length sheet.now }
    requires level_bound { level ≤ 128 }
    ensures { Laid (length query.old) (line_comment (length query.old) o level breaks comma (part sheet.now v.start v.len) (text_of t query.old)) result query.new }
{
    let begun = before_line_comment(query, t, o, level, breaks, comma);
    let said = format_no_change(query, begun, sheet, v);
    close_line_comment(query, said, o, level)
}

pub fn format_type_specifier(
    query: &mut [u8],
    t: Text,
    sheet: &[u8],
    v: Value,
    spaced: bool,
) -> Text
    requires held { Held t query.old }
    requires len_in_bounds { v.start + v.len ≤ length sheet.now }
    ensures { Laid (length query.old) (type_specifier (length query.old) (part sheet.now v.start v.len) spaced (text_of t query.old)) result query.new }
{
    let cut = text::trim_all_spaces_end(query, t);
    let said = format_no_change(query, cut, sheet, v);
    blank_if(query, said, spaced)
}

pub fn format_block_comment(
    query: &mut [u8],
    t: Text,
    sheet: &[u8],
    v: Value,
    o: FormatOptions,
    level: usize,
) -> Text
    requires held { Held t query.old }
    requires len_in_bounds { v.start + v.len ≤ length sheet.now }
    requires level_bound { level ≤ 128 }
    ensures { Laid (length query.old) (block_comment (length query.old) o level (part sheet.now v.start v.len) (text_of t query.old)) result query.new }
{
    let begun = add_new_line(query, t, o, level);
    let indent = o.indent;
    let said = words::append_comment(query, begun, sheet, v.start, v.len, indent, level);
    add_new_line(query, said, o, level)
}

// ---- values and signs

pub fn format_with_spaces(query: &mut [u8], t: Text, sheet: &[u8], v: Value) -> Text
    requires held { Held t query.old }
    requires len_in_bounds { v.start + v.len ≤ length sheet.now }
    ensures { Laid (length query.old) (with_spaces (length query.old) (part sheet.now v.start v.len) (text_of t query.old)) result query.new }
{
    let said = format_no_change(query, t, sheet, v);
    text::append_byte(query, said, 32)
}

pub fn format_placeholder(query: &mut [u8], t: Text, sheet: &[u8], shown: Value, five: bool) -> Text
    requires held { Held t query.old }
    requires len_in_bounds { shown.start + shown.len ≤ length sheet.now }
    ensures { Laid (length query.old) (placeholder (length query.old) five (part sheet.now shown.start shown.len) (text_of t query.old)) result query.new }
{
    let judged = refuse_if(query, t, five, 5);
    format_with_spaces(query, judged, sheet, shown)
}

pub fn format_comma(
    query: &mut [u8],
    t: Text,
    sheet: &[u8],
    v: Value,
    o: FormatOptions,
    breaks: bool,
    level: usize,
) -> Text
    requires held { Held t query.old }
    requires len_in_bounds { v.start + v.len ≤ length sheet.now }
    requires level_bound { level ≤ 128 }
    ensures { Laid (length query.old) (comma_of (length query.old) o (part sheet.now v.start v.len) breaks level (text_of t query.old)) result query.new }
{
    let said = format_with_space_after(query, t, sheet, v);
    add_new_line_if(query, said, breaks, o, level)
}

pub fn format_with_space_after(query: &mut [u8], t: Text, sheet: &[u8], v: Value) -> Text
    requires held { Held t query.old }
    requires len_in_bounds { v.start + v.len ≤ length sheet.now }
    ensures { Laid (length query.old) (with_space_after (length query.old) (part sheet.now v.start v.len) (text_of t query.old)) result query.new }
{
    let cut = text::trim_spaces_end(query, t);
    format_with_spaces(query, cut, sheet, v)
}

pub fn format_without_spaces(query: &mut [u8], t: Text, sheet: &[u8], v: Value) -> Text
    requires held { Held t query.old }
    requires len_in_bounds { v.start + v.len ≤ length sheet.now }
    ensures { Laid (length query.old) (without_spaces (length query.old) (part sheet.now v.start v.len) (text_of t query.old)) result query.new }
{
    let cut = text::trim_spaces_end(query, t);
    format_no_change(query, cut, sheet, v)
}

pub fn format_query_separator(query: &mut [u8], t: Text, sheet: &[u8], v: Value, feeds: u8) -> Text
    requires held { Held t query.old }
    requires len_in_bounds { v.start + v.len ≤ length sheet.now }
    ensures { Laid (length query.old) (separator (length query.old) (part sheet.now v.start v.len) feeds (text_of t query.old)) result query.new }
{
    let said = format_without_spaces(query, t, sheet, v);
    text::append_repeat(query, said, 10, feeds as usize)
}

// ---- a new line, and a value as it stands

pub fn add_new_line(query: &mut [u8], t: Text, o: FormatOptions, level: usize) -> Text
    requires held { Held t query.old }
    requires level_bound { level ≤ 128 }
    ensures { Laid (length query.old) (line_at (length query.old) o level (text_of t query.old)) result query.new }
{
    let indent = o.indent;
    let inline = o.inline;
    text::new_line(query, t, is_on(inline), indent, level)
}

fn close_line_comment(query: &mut [u8], t: Text, o: FormatOptions, level: usize) -> Text
    requires held { Held t query.old }
    requires level_bound { level ≤ 128 }
    ensures { Laid (length query.old) (closing_at (length query.old) o level (text_of t query.old)) result query.new }
{
    let indent = o.indent;
    let inline = o.inline;
    text::closing_line(query, t, inline, indent, level)
}

pub fn add_new_line_if(query: &mut [u8], t: Text, b: bool, o: FormatOptions, level: usize) -> Text
    requires held { Held t query.old }
    requires level_bound { level ≤ 128 }
    ensures { Laid (length query.old) (when b (line_at (length query.old) o level) (text_of t query.old)) result query.new }
{
    let len = t.len;
    let floor = t.floor;
    let low = t.low;
    let fault = t.fault;
    if b {
        return add_new_line(query, t, o, level);
    }
    Text {
        len,
        floor,
        low,
        fault,
    }
}

pub fn format_no_change(query: &mut [u8], t: Text, sheet: &[u8], v: Value) -> Text
    requires held { Held t query.old }
    requires len_in_bounds { v.start + v.len ≤ length sheet.now }
    ensures { Laid (length query.old) (append (length query.old) (part sheet.now v.start v.len) (text_of t query.old)) result query.new }
{
    text::append_part(query, t, sheet, v.start, v.len)
}
