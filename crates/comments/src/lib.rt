// Comments and type specifiers: handlers that look at the tokens around theirs. They leave the stacks as they are, and give the text alone.
#![tactic(auto)]

ghost use Rattle.std.specs.Prelude.{◌≡◌, ◌&&◌, ◌<◌};
ghost use Rattle.rules.specs.Formatter.{after_line_feed, white_then_no_operator, format_line_comment, format_type_specifier, format_block_comment};
ghost use Rattle.state.specs.Of.{Known, Ready, Handled, here_in, with_text};

use around::{after_line_feed, before_reserved_word, two_after_comma, white_then_no_operator};
use state::{Context, State, value_of};
use text::Text;

// A comment that had a line of its own keeps it, unless an operator follows.
fn breaks_before_comment(sheet: &[u8], x: Context, i: usize) -> bool
    requires { (Known sheet.now x) × (i < x.counts.tokens) }
    ensures { result ≡ (after_line_feed (here_in sheet.now x i) && white_then_no_operator (here_in sheet.now x i)) }
{
    let c = x.counts;
    if !after_line_feed(sheet, x.base, c.tokens, i) {
        return false;
    }
    white_then_no_operator(sheet, x.base, c.tokens, i)
}

pub fn format_line_comment(query: &mut [u8], s: State, sheet: &[u8], x: Context, i: usize) -> Text
    requires { Ready sheet.now x i s query.old }
    ensures { Handled sheet.now x i format_line_comment s query.old (with_text s result) query.new }
{
    let v = value_of(sheet, x, i);
    let breaks = breaks_before_comment(sheet, x, i);
    let c = x.counts;
    let comma = two_after_comma(sheet, x.base, c.tokens, i);
    let stacks = s.indentation;
    let level = stacks.indent_level(false);
    let t = s.text;
    let o = x.options;
    query::format_line_comment(query, t, sheet, v, o, level, breaks, comma)
}

pub fn format_type_specifier(query: &mut [u8], s: State, sheet: &[u8], x: Context, i: usize) -> Text
    requires { Ready sheet.now x i s query.old }
    ensures { Handled sheet.now x i format_type_specifier s query.old (with_text s result) query.new }
{
    let v = value_of(sheet, x, i);
    let c = x.counts;
    let spaced = before_reserved_word(sheet, x.base, c.tokens, i);
    let t = s.text;
    query::format_type_specifier(query, t, sheet, v, spaced)
}

pub fn format_block_comment(query: &mut [u8], s: State, sheet: &[u8], x: Context, i: usize) -> Text
    requires { Ready sheet.now x i s query.old }
    ensures { Handled sheet.now x i format_block_comment s query.old (with_text s result) query.new }
{
    let v = value_of(sheet, x, i);
    let stacks = s.indentation;
    let level = stacks.indent_level(false);
    let t = s.text;
    let o = x.options;
    query::format_block_comment(query, t, sheet, v, o, level)
}
