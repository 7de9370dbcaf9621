// The handlers of reserved words within a level, in formatter.rs's order; and what they share with the words that start one.
#![tactic(auto)]

ghost use Rattle.std.specs.Prelude.{◌≡◌, not, ◌&&◌, ◌||◌, ◌<◌};
ghost use Rattle.rules.specs.Formatter.{over_limit, format_newline_reserved_word, format_reserved};
ghost use Rattle.indentation.specs.Of.{indentation_of, Clean};
ghost use Rattle.keeps.specs.CaseOf.{case_of};
ghost use Rattle.state.specs.Of.{Known, Ready, Handled, word_of};
ghost use Rattle.reserved.specs.Inlined.{inlined_last, or_no_span, six_in, Indented};

use around::after_line_comment;
use indentation::Indentation;
use keeps::case_for;
use rules::{Case, SpanInfo};
use state::{Context, State, value_of};
use tokens::value_at;

// The level of a newline word, the stacks after it, and whether they were full before what was inlined is indented.
#[derive(Drop)]
pub struct Newline {
    pub six: bool,
    pub level: usize,
    pub stacks: Indentation,
}

// ---- shared with the words that start a level

pub fn case_of(sheet: &[u8], x: Context, i: usize) -> Case
    requires { (Known sheet.now x) × (i < x.counts.tokens) }
    ensures { result ≡ case_of sheet.now x.counts x.options.casing (word_of sheet.now x.base i) }
{
    let c = x.counts;
    let o = x.options;
    let casing = o.casing;
    case_for(sheet, c, casing, value_at(sheet, i))
}

// ---- a newline word

#[tactic(auto, unfolding(rules::specs::Formatter::over_limit))]
fn over_limit(limit: Option<u32>, n: u32) -> bool
    ensures { result ≡ over_limit limit n }
{
    match limit {
        None => true,
        Some(most) => most < n,
    }
}

fn breaks_before(comment: bool, active: bool, limit: Option<u32>, span: u32) -> bool
    ensures { result ≡ (comment || not active && over_limit limit span) }
{
    if comment {
        return true;
    }
    if active {
        return false;
    }
    over_limit(limit, span)
}

// A top-level word that was inlined is indented now.
#[tactic(auto, unfolding(crate::specs::Inlined::inlined_last))]
fn indents_last(breaks: bool, last: Option<SpanInfo>) -> bool
    ensures { result ≡ (breaks && inlined_last last) }
{
    if breaks {
        return match last {
            None => false,
            Some(sp) => !sp.newline_after,
        };
    }
    false
}

#[tactic(auto, unfolding(crate::specs::Inlined::or_no_span))]
fn span_in(last: Option<SpanInfo>) -> SpanInfo
    ensures { result ≡ or_no_span last }
{
    match last {
        None => SpanInfo {
            full_span: 0,
            blocks: 0,
            newline_before: false,
            newline_after: false,
            arguments: 0,
        },
        Some(sp) => sp,
    }
}

#[tactic(auto, unfolding(crate::specs::Inlined::six_in))]
fn six_inlined(last: Option<SpanInfo>, full: bool) -> bool
    ensures { result ≡ six_in last full }
{
    match last {
        None => false,
        Some(sp) => {
            if sp.newline_after {
                return false;
            }
            full
        }
    }
}

// The word is token n.
fn newline_level(stacks: Indentation, breaks: bool, n: u16) -> Newline
    requires clean { Clean stacks }
    requires n_bound { n < 65535 }
    ensures { Indented (indentation_of stacks) breaks n result }
{
    let last = stacks.previous_top_level_reserved();
    let to = stacks.increase_top_level_if(indents_last(breaks, last), span_in(last));
    let noted = to.set_previous_reserved(n);
    Newline {
        six: six_inlined(last, stacks.is_full()),
        level: to.indent_level(false),
        stacks: noted,
    }
}

pub fn format_newline_reserved_word(
    query: &mut [u8],
    s: State,
    sheet: &[u8],
    x: Context,
    i: usize,
) -> State
    requires { Ready sheet.now x i s query.old }
    ensures { Handled sheet.now x i format_newline_reserved_word s query.old result query.new }
{
    let v = value_of(sheet, x, i);
    let k = case_of(sheet, x, i);
    let c = x.counts;
    let o = x.options;
    let limit = o.max_inline_arguments;
    let inline = s.inline_block;
    let stacks = s.indentation;
    let comment = after_line_comment(sheet, x.base, c.tokens, i);
    let breaks = breaks_before(comment, inline.is_active(), limit, stacks.span());
    let l = newline_level(stacks, breaks, i as u16);
    let t = s.text;
    let u = query_reserved::format_newline_reserved_word(
        query, t, sheet, v, k, o, breaks, l.six, comment, l.level,
    );
    let noted = l.stacks;
    s.with_indentation(u, noted)
}

// ---- any other word

pub fn format_reserved(query: &mut [u8], s: State, sheet: &[u8], x: Context, i: usize) -> State
    requires { Ready sheet.now x i s query.old }
    ensures { Handled sheet.now x i format_reserved s query.old result query.new }
{
    let v = value_of(sheet, x, i);
    let k = case_of(sheet, x, i);
    let t = s.text;
    let u = query_reserved::format_reserved(query, t, sheet, v, k);
    let stacks = s.indentation;
    s.with_indentation(u, stacks.set_previous_reserved(i as u16))
}
