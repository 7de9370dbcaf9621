// What the handlers of brackets in formatter.rs do to their `query`, after the pattern of the crate `query`.
#![tactic(auto)]

ghost use Rattle.std.specs.Prelude.{◌+◌, ◌≤◌, length};
ghost use Rattle.rules.specs.Text.{in_case};
ghost use Rattle.ascii.specs.Part.{part};
ghost use Rattle.text.specs.Held.{text_of, Held, Laid};
ghost use Rattle.query.specs.Query.{one_blank, fold, with_spaces, before_opening, after_opening, closing_inline, closing};
ghost use Rattle.query_brackets.specs.Opening.{opening as opening_of};
ghost use Rattle.rules.specs.Base.{when};

use query::{Value, add_new_line, blank_if, refuse_if, trim_if};
use rules::{Case, FormatOptions};
use text::{Text, append_byte, one_blank, trim_all_spaces_end, trim_spaces_end};
use words::append_cased;

// What an opening bracket does to the text: refusal 6, the blanks before it, and what follows it.
#[derive(Clone, Copy)]
pub struct Opening {
    pub six: bool,
    pub cuts: bool,
    pub between: bool,
    pub folded: bool,
    pub inlined: bool,
    pub is_case: bool,
    pub level: usize,
}

// ---- an opening bracket

fn one_blank_if(query: &mut [u8], t: Text, b: bool) -> Text
    requires { Held t query.old }
    ensures { Laid (length query.old) (when b (one_blank (length query.old)) (text_of t query.old)) result query.new }
{
    let len = t.len;
    let floor = t.floor;
    let low = t.low;
    let fault = t.fault;
    if b {
        return one_blank(query, t);
    }
    Text {
        len,
        floor,
        low,
        fault,
    }
}

fn fold_if(query: &mut [u8], t: Text, b: bool) -> Text
    requires { Held t query.old }
    ensures { Laid (length query.old) (when b (fold (length query.old)) (text_of t query.old)) result query.new }
{
    let len = t.len;
    let floor = t.floor;
    let low = t.low;
    let fault = t.fault;
    if b {
        let cut = trim_all_spaces_end(query, t);
        return append_byte(query, cut, 32);
    }
    Text {
        len,
        floor,
        low,
        fault,
    }
}

fn before_opening(query: &mut [u8], t: Text, how: Opening) -> Text
    requires { Held t query.old }
    ensures { Laid (length query.old) (before_opening (length query.old) how.six how.cuts how.between how.folded (text_of t query.old)) result query.new }
{
    let deep = refuse_if(query, t, how.six, 6);
    let cut = trim_if(query, deep, how.cuts);
    let apart = one_blank_if(query, cut, how.between);
    fold_if(query, apart, how.folded)
}

fn after_opening(
    query: &mut [u8],
    t: Text,
    o: FormatOptions,
    inlined: bool,
    is_case: bool,
    level: usize,
) -> Text
    requires held { Held t query.old }
    requires level_bound { level ≤ 128 }
    ensures { Laid (length query.old) (after_opening (length query.old) o inlined is_case level (text_of t query.old)) result query.new }
{
    if inlined {
        return blank_if(query, t, is_case);
    }
    add_new_line(query, t, o, level)
}

pub fn format_opening_parentheses(
    query: &mut [u8],
    t: Text,
    sheet: &[u8],
    v: Value,
    k: Case,
    o: FormatOptions,
    how: Opening,
) -> Text
    requires held { Held t query.old }
    requires len_in_bounds { v.start + v.len ≤ length sheet.now }
    requires level_bound { how.level ≤ 128 }
    ensures { Laid (length query.old) (opening_of (length query.old) o how (in_case k (part sheet.now v.start v.len)) (text_of t query.old)) result query.new }
{
    let begun = before_opening(query, t, how);
    let said = append_cased(query, begun, sheet, v.start, v.len, k);
    after_opening(query, said, o, how.inlined, how.is_case, how.level)
}

// ---- a closing bracket

fn cased_with_spaces(query: &mut [u8], t: Text, sheet: &[u8], v: Value, k: Case) -> Text
    requires held { Held t query.old }
    requires len_in_bounds { v.start + v.len ≤ length sheet.now }
    ensures { Laid (length query.old) (with_spaces (length query.old) (in_case k (part sheet.now v.start v.len)) (text_of t query.old)) result query.new }
{
    let said = append_cased(query, t, sheet, v.start, v.len, k);
    append_byte(query, said, 32)
}

// The half of format_closing_parentheses for a bracket that ends an inline block.
pub fn format_closing_inline(
    query: &mut [u8],
    t: Text,
    sheet: &[u8],
    v: Value,
    k: Case,
    is_end: bool,
) -> Text
    requires held { Held t query.old }
    requires len_in_bounds { v.start + v.len ≤ length sheet.now }
    ensures { Laid (length query.old) (closing_inline (length query.old) is_end (in_case k (part sheet.now v.start v.len)) (text_of t query.old)) result query.new }
{
    if is_end {
        let apart = one_blank(query, t);
        return cased_with_spaces(query, apart, sheet, v, k);
    }
    let cut = trim_spaces_end(query, t);
    cased_with_spaces(query, cut, sheet, v, k)
}

pub fn format_closing_parentheses(
    query: &mut [u8],
    t: Text,
    sheet: &[u8],
    v: Value,
    k: Case,
    o: FormatOptions,
    eight: bool,
    level: usize,
) -> Text
    requires held { Held t query.old }
    requires len_in_bounds { v.start + v.len ≤ length sheet.now }
    requires level_bound { level ≤ 128 }
    ensures { Laid (length query.old) (closing (length query.old) o eight level (in_case k (part sheet.now v.start v.len)) (text_of t query.old)) result query.new }
{
    let judged = refuse_if(query, t, eight, 8);
    let begun = add_new_line(query, judged, o, level);
    cased_with_spaces(query, begun, sheet, v, k)
}
