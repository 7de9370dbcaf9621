// What the handlers of reserved words in formatter.rs do to their `query`, after the pattern of the crate `query`.
#![tactic(auto)]

ghost use Rattle.std.specs.Prelude.{◌+◌, ◌≤◌, length};
ghost use Rattle.rules.specs.Text.{in_case, equalize_whitespace};
ghost use Rattle.ascii.specs.Part.{part};
ghost use Rattle.text.specs.Held.{text_of, Held, Laid};
ghost use Rattle.query.specs.Query.{blank, one_blank, deeper as deeper_of, top_level, newline_after, newline_break, newline, with_spaces};
ghost use Rattle.rules.specs.Base.{choose};

use query::{Value, add_new_line, add_new_line_if, refuse_if, trim_if};
use rules::{Case, FormatOptions};
use text::{Text, append_byte, one_blank};
use words::append_reserved;

// The new lines before and after a top-level word, whether and at which levels; `six` where the level after it would be one too many.
#[derive(Drop)]
pub struct TopLevelWord {
    pub before: bool,
    pub out: usize,
    pub after: bool,
    pub six: bool,
    pub into: usize,
}

// ---- before and after a word

fn newline_break(
    query: &mut [u8],
    t: Text,
    o: FormatOptions,
    six: bool,
    comment: bool,
    level: usize,
) -> Text
    requires held { Held t query.old }
    requires level_bound { level ≤ 128 }
    ensures { Laid (length query.old) (newline_break (length query.old) o six comment level (text_of t query.old)) result query.new }
{
    let judged = refuse_if(query, t, six, 6);
    let cut = trim_if(query, judged, comment);
    add_new_line(query, cut, o, level)
}

fn break_or_blank(
    query: &mut [u8],
    t: Text,
    o: FormatOptions,
    breaks: bool,
    six: bool,
    comment: bool,
    level: usize,
) -> Text
    requires held { Held t query.old }
    requires level_bound { level ≤ 128 }
    ensures { Laid (length query.old) (choose breaks (newline_break (length query.old) o six comment level) (one_blank (length query.old)) (text_of t query.old)) result query.new }
{
    if breaks {
        return newline_break(query, t, o, six, comment, level);
    }
    one_blank(query, t)
}

fn deeper(query: &mut [u8], t: Text, o: FormatOptions, six: bool, into: usize) -> Text
    requires held { Held t query.old }
    requires into_bound { into ≤ 128 }
    ensures { Laid (length query.old) (deeper_of (length query.old) o six into (text_of t query.old)) result query.new }
{
    let judged = refuse_if(query, t, six, 6);
    add_new_line(query, judged, o, into)
}

fn deeper_or_blank(
    query: &mut [u8],
    t: Text,
    o: FormatOptions,
    after: bool,
    six: bool,
    into: usize,
) -> Text
    requires held { Held t query.old }
    requires into_bound { into ≤ 128 }
    ensures { Laid (length query.old) (choose after (deeper_of (length query.old) o six into) (blank (length query.old)) (text_of t query.old)) result query.new }
{
    if after {
        return deeper(query, t, o, six, into);
    }
    append_byte(query, t, 32)
}

// ---- the words

// It serves the word with no indent too: there `six` is false, and `into` the level that the word stands at.
pub fn format_top_level_reserved_word(
    query: &mut [u8],
    t: Text,
    sheet: &[u8],
    v: Value,
    k: Case,
    o: FormatOptions,
    how: TopLevelWord,
) -> Text
    requires held { Held t query.old }
    requires len_in_bounds { v.start + v.len ≤ length sheet.now }
    requires out_bound { how.out ≤ 128 }
    requires into_bound { how.into ≤ 128 }
    ensures { Laid (length query.old) (top_level (length query.old) o how.before how.out (equalize_whitespace (in_case k (part sheet.now v.start v.len))) how.after how.six how.into (text_of t query.old)) result query.new }
{
    let begun = add_new_line_if(query, t, how.before, o, how.out);
    let said = append_reserved(query, begun, sheet, v.start, v.len, k);
    deeper_or_blank(query, said, o, how.after, how.six, how.into)
}

pub fn format_newline_after_reserved_word(
    query: &mut [u8],
    t: Text,
    sheet: &[u8],
    v: Value,
    k: Case,
    o: FormatOptions,
    before: bool,
    out: usize,
    six: bool,
    into: usize,
) -> Text
    requires held { Held t query.old }
    requires len_in_bounds { v.start + v.len ≤ length sheet.now }
    requires out_bound { out ≤ 128 }
    requires into_bound { into ≤ 128 }
    ensures { Laid (length query.old) (newline_after (length query.old) o before out (equalize_whitespace (in_case k (part sheet.now v.start v.len))) six into (text_of t query.old)) result query.new }
{
    // the new line before it pushes no level and undoes no comment's indent
    let begun = break_or_blank(query, t, o, before, false, false, out);
    let said = append_reserved(query, begun, sheet, v.start, v.len, k);
    deeper(query, said, o, six, into)
}

pub fn format_newline_reserved_word(
    query: &mut [u8],
    t: Text,
    sheet: &[u8],
    v: Value,
    k: Case,
    o: FormatOptions,
    breaks: bool,
    six: bool,
    comment: bool,
    level: usize,
) -> Text
    requires held { Held t query.old }
    requires len_in_bounds { v.start + v.len ≤ length sheet.now }
    requires level_bound { level ≤ 128 }
    ensures { Laid (length query.old) (newline (length query.old) o breaks six comment level (equalize_whitespace (in_case k (part sheet.now v.start v.len))) (text_of t query.old)) result query.new }
{
    let begun = break_or_blank(query, t, o, breaks, six, comment, level);
    format_reserved(query, begun, sheet, v, k)
}

pub fn format_reserved(query: &mut [u8], t: Text, sheet: &[u8], v: Value, k: Case) -> Text
    requires held { Held t query.old }
    requires len_in_bounds { v.start + v.len ≤ length sheet.now }
    ensures { Laid (length query.old) (with_spaces (length query.old) (equalize_whitespace (in_case k (part sheet.now v.start v.len))) (text_of t query.old)) result query.new }
{
    let said = append_reserved(query, t, sheet, v.start, v.len, k);
    append_byte(query, said, 32)
}
