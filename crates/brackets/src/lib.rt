// Handlers of brackets: a block begins, and a block ends.
#![tactic(auto)]

ghost use Rattle.std.specs.Prelude.{◌≡◌, ◌≤◌, ◌<◌, length};
ghost use Rattle.rules.specs.Base.{holds};
ghost use Rattle.rules.specs.InlineBlock.{begins_inline};
ghost use Rattle.rules.specs.Formatter.{folds_in, format_opening_parentheses, format_closing_parentheses};
ghost use Rattle.indentation.specs.Of.{indentation_of, Clean};
ghost use Rattle.inline_block.specs.Of.{inline_block_of};
ghost use Rattle.text.specs.Held.{text_of, Held, Laid};
ghost use Rattle.query_brackets.specs.Opening.{opening};
ghost use Rattle.state.specs.Of.{Known, Ready, Handled, given};
ghost use Rattle.brackets.specs.Brackets.{bracket_in, folded_in, opening_in, ends_under, closing_of};

use indentation::Indentation;
use inline_block::InlineBlock;
use query_brackets::Opening;
use reserved::case_of;
use rules::{BlockInfo, FormatOptions, SpanInfo};
use state::{Context, State, value_of};
use text::{Text, is_on};

// ---- an opening bracket

// Inside an inline block every block is inline.
fn begins_inline(o: FormatOptions, info: BlockInfo, inline: InlineBlock) -> bool
    ensures { result ≡ begins_inline o info (inline_block_of inline) }
{
    if inline.is_active() {
        return true;
    }
    blocks::is_inline_block(o, info)
}

// top level ( block ), or top level ( block ) AS word (args, ...)
#[tactic(auto, unfolding(rules::specs::Formatter::folds_in))]
fn folds_in(last: Option<SpanInfo>) -> bool
    ensures { result ≡ holds folds_in last }
{
    match last {
        None => false,
        Some(sp) => sp.blocks <= 2 && sp.newline_after && sp.arguments == 1,
    }
}

#[tactic(auto, unfolding(crate::specs::Brackets::folded_in))]
fn is_folded(sheet: &[u8], x: Context, i: usize, inlined: bool, stacks: Indentation) -> bool
    requires { (Known sheet.now x) × (i < x.counts.tokens) × (Clean stacks) }
    ensures { result ≡ folded_in sheet.now x i inlined (indentation_of stacks) }
{
    let c = x.counts;
    let o = x.options;
    !inlined
        && o.max_inline_top_level.is_some()
        && around::after_top_level_word(sheet, x.base, c.tokens, i)
        && folds_in(stacks.previous_top_level_reserved())
}

fn opening_at(
    sheet: &[u8],
    x: Context,
    i: usize,
    stacks: Indentation,
    inlined: bool,
    folded: bool,
    level: usize,
) -> Opening
    requires { (Known sheet.now x) × (i < x.counts.tokens) × (Clean stacks) }
    ensures { result ≡ opening_in sheet.now x i (indentation_of stacks) inlined folded level }
{
    let v = value_of(sheet, x, i);
    let c = x.counts;
    let n = c.tokens;
    let base = x.base;
    Opening {
        six: stacks.is_full(),
        cuts: around::cuts_before(sheet, base, n, i),
        between: around::blank_between(sheet, base, n, i),
        folded,
        inlined,
        is_case: ascii::is_lower(sheet, v.start, v.len, b"case"),
        level,
    }
}

fn push_opening(query: &mut [u8], t: Text, sheet: &[u8], x: Context, i: usize, how: Opening) -> Text
    requires held { Held t query.old }
    requires known { (Known sheet.now x) × (i < x.counts.tokens) × (how.level ≤ 128) }
    ensures { Laid (length query.old) (opening (length query.old) x.options how (bracket_in sheet.now x i) (text_of t query.old)) result query.new }
{
    let v = value_of(sheet, x, i);
    let k = case_of(sheet, x, i);
    let o = x.options;
    query_brackets::format_opening_parentheses(query, t, sheet, v, k, o, how)
}

pub fn format_opening_parentheses(
    query: &mut [u8],
    s: State,
    sheet: &[u8],
    x: Context,
    i: usize,
    info: BlockInfo,
) -> State
    requires ready { Ready sheet.now x i s query.old }
    requires inline_block_in_bounds { length (inline_block_of s.inline_block) ≤ length (indentation_of s.indentation).indent_types }
    ensures { Handled sheet.now x i (given format_opening_parentheses info) s query.old result query.new }
{
    let stacks = s.indentation;
    let inline = s.inline_block;
    let o = x.options;
    let inlined = begins_inline(o, info, inline);
    let folded = is_folded(sheet, x, i, inlined, stacks);
    let level = stacks.level_into(folded);
    let how = opening_at(sheet, x, i, stacks, inlined, folded, level);
    // Where refusal 6 is given no block begins.
    let begins = inlined && !how.six;
    let t = s.text;
    // The stacks change last: with the text's work between, the compiler copies arrays that stay as they are.
    State {
        text: push_opening(query, t, sheet, x, i, how),
        indentation: stacks.increase_block_level(folded),
        inline_block: inline.begin_if_possible(begins, info.length),
        block_level: s.block_level + 1,
        index: s.index,
    }
}

// ---- a closing bracket

// Refusal 8: a folded block ends where no entry is left that counts.
fn ends_under(o: FormatOptions, folded: bool, left: Indentation) -> bool
    requires { Clean left }
    ensures { result ≡ ends_under o folded (indentation_of left) }
{
    if !folded {
        return false;
    }
    let inline = o.inline;
    if is_on(inline) {
        return false;
    }
    left.indent_level(false) == 0
}

fn push_closing(
    query: &mut [u8],
    t: Text,
    sheet: &[u8],
    x: Context,
    i: usize,
    active: bool,
    eight: bool,
    level: usize,
) -> Text
    requires held { Held t query.old }
    requires known { (Known sheet.now x) × (i < x.counts.tokens) × (level ≤ 128) }
    ensures { Laid (length query.old) (closing_of (length query.old) x.options active eight level (bracket_in sheet.now x i) (text_of t query.old)) result query.new }
{
    let v = value_of(sheet, x, i);
    let k = case_of(sheet, x, i);
    if active {
        let is_end = ascii::is_lower(sheet, v.start, v.len, b"end");
        return query_brackets::format_closing_inline(query, t, sheet, v, k, is_end);
    }
    let o = x.options;
    query_brackets::format_closing_parentheses(query, t, sheet, v, k, o, eight, level)
}

pub fn format_closing_parentheses(
    query: &mut [u8],
    s: State,
    sheet: &[u8],
    x: Context,
    i: usize,
) -> State
    requires { Ready sheet.now x i s query.old }
    ensures { Handled sheet.now x i format_closing_parentheses s query.old result query.new }
{
    let stacks = s.indentation;
    let inline = s.inline_block;
    let o = x.options;
    let closed = stacks.decrease_block_level();
    let left = closed.left;
    let eight = ends_under(o, closed.folded, left);
    let level = left.indent_level(closed.folded);
    let active = inline.is_active();
    let t = s.text;
    State {
        text: push_closing(query, t, sheet, x, i, active, eight, level),
        indentation: left,
        // Where none is open it stays as it is.
        inline_block: inline.end(),
        block_level: s.block_level.saturating_sub(1),
        index: s.index,
    }
}
