// The handlers of the words that start a level, in formatter.rs's order.
// They differ in when the stacks shrink and grow: `levels_around` says it once for all three.
#![tactic(auto)]

ghost use Rattle.std.specs.Prelude.{◌≡◌, false, not, ◌&&◌, ◌<◌};
ghost use Rattle.rules.specs.Words.{token_at};
ghost use Rattle.rules.specs.Indentation.{indent_level};
ghost use Rattle.rules.specs.Formatter.{newline_before, format_top_level_reserved_word, format_top_level_reserved_word_no_indent, format_newline_after_reserved_word};
ghost use Rattle.indentation.specs.Of.{indentation_of, Clean};
ghost use Rattle.state.specs.Of.{Known, Ready, Handled, given};
ghost use Rattle.top_level.specs.Levels.{Turned};

use around::value_len;
use indentation::Indentation;
use query_reserved::TopLevelWord;
use reserved::case_of;
use rules::SpanInfo;
use state::{Context, State, value_of};
use tokens::{create_at, to_usize};

// The levels before and after a word that starts one, the stacks after it, and whether they were full before.
#[derive(Drop)]
pub struct Levels {
    pub out: usize,
    pub six: bool,
    pub into: usize,
    pub stacks: Indentation,
}

// ---- the stacks around the word

// The word is token n.
// A top-level entry counts for one level: so each level follows from the one before by the number of entries.
// In line: called, it copies the stacks twice more, and a top-level word takes half as long again.
#[inline(always)]
fn levels_around(
    stacks: Indentation,
    level: usize,
    before: bool,
    after: bool,
    span: SpanInfo,
    n: u16,
) -> Levels
    requires clean { Clean stacks }
    requires level_value { level ≡ indent_level false (indentation_of stacks) }
    requires n_bound { n < 65535 }
    ensures { Turned (indentation_of stacks) before after span n result }
{
    let from = stacks.decrease_top_level_if(before);
    let to = from.increase_top_level_if(after, span);
    let noted = to.set_previous_top_level(n, span);
    let out = level - (stacks.nkinds - from.nkinds);
    Levels {
        out,
        six: from.is_full(),
        into: out + (to.nkinds - from.nkinds),
        stacks: noted,
    }
}

// ---- top-level words

// `CREATE` starts none.
fn starts_level(sheet: &[u8], x: Context, i: usize, newline_after: bool) -> bool
    requires { (Known sheet.now x) × (i < x.counts.tokens) }
    ensures { result ≡ (newline_after && not (token_at sheet.now i).create) }
{
    if newline_after {
        return !create_at(sheet, i);
    }
    false
}

pub fn format_top_level_reserved_word(
    query: &mut [u8],
    s: State,
    sheet: &[u8],
    x: Context,
    i: usize,
    span: SpanInfo,
) -> State
    requires { Ready sheet.now x i s query.old }
    ensures { Handled sheet.now x i (given format_top_level_reserved_word span) s query.old result query.new }
{
    let v = value_of(sheet, x, i);
    let k = case_of(sheet, x, i);
    let before = span.newline_before;
    let after = starts_level(sheet, x, i, span.newline_after);
    let stacks = s.indentation;
    let l = levels_around(
        stacks,
        stacks.indent_level(false),
        before,
        after,
        span,
        i as u16,
    );
    let how = TopLevelWord {
        before,
        out: l.out,
        after,
        six: l.six,
        into: l.into,
    };
    let t = s.text;
    let o = x.options;
    let u = query_reserved::format_top_level_reserved_word(query, t, sheet, v, k, o, how);
    let noted = l.stacks;
    s.with_indentation(u, noted)
}

pub fn format_top_level_reserved_word_no_indent(
    query: &mut [u8],
    s: State,
    sheet: &[u8],
    x: Context,
    i: usize,
    span: SpanInfo,
) -> State
    requires { Ready sheet.now x i s query.old }
    ensures { Handled sheet.now x i (given format_top_level_reserved_word_no_indent span) s query.old result query.new }
{
    let v = value_of(sheet, x, i);
    let k = case_of(sheet, x, i);
    let before = span.newline_before;
    let stacks = s.indentation;
    let l = levels_around(
        stacks,
        stacks.indent_level(false),
        before,
        false,
        span,
        i as u16,
    );
    let how = TopLevelWord {
        before,
        out: l.out,
        after: span.newline_after,
        six: false,
        into: l.into,
    };
    let t = s.text;
    let o = x.options;
    let u = query_reserved::format_top_level_reserved_word(query, t, sheet, v, k, o, how);
    let noted = l.stacks;
    s.with_indentation(u, noted)
}

// ---- a word with a new line after it

// The stacks put no bound on a span: it and the length are added as `usize`, where two words cannot wrap.
#[tactic(auto, unfolding(rules::specs::Formatter::newline_before))]
fn newline_before(limit: Option<u32>, last: Option<SpanInfo>, len: u32) -> bool
    ensures { result ≡ newline_before limit last len }
{
    match (limit, last) {
        (Some(most), Some(sp)) => to_usize(most) < to_usize(sp.full_span) + to_usize(len),
        _ => true,
    }
}

pub fn format_newline_after_reserved_word(
    query: &mut [u8],
    s: State,
    sheet: &[u8],
    x: Context,
    i: usize,
    span: SpanInfo,
) -> State
    requires { Ready sheet.now x i s query.old }
    ensures { Handled sheet.now x i (given format_newline_after_reserved_word span) s query.old result query.new }
{
    let v = value_of(sheet, x, i);
    let k = case_of(sheet, x, i);
    let stacks = s.indentation;
    let o = x.options;
    let limit = o.max_inline_top_level;
    let len = value_len(sheet, x.base, i);
    let before = newline_before(limit, stacks.previous_top_level_reserved(), len);
    let l = levels_around(
        stacks,
        stacks.indent_level(false),
        before,
        true,
        span,
        i as u16,
    );
    let t = s.text;
    let u = query_reserved::format_newline_after_reserved_word(
        query, t, sheet, v, k, o, before, l.out, l.six, l.into,
    );
    let noted = l.stacks;
    s.with_indentation(u, noted)
}
