// The sheet's counts, options, parameter records and keep records.
#![tactic(auto)]

ghost use Rattle.std.specs.Prelude.{◌≡◌, ◌+◌, ◌*◌, ◌≤◌, length};
ghost use Rattle.rules.specs.Words.{place_at, counts_of, params_at, keeps_at, body_at};
ghost use Rattle.rules.specs.Sheet.{indent_from, case_from, inline_from, limit_from, options_of};
ghost use Rattle.rules.specs.Answer.{is_withdrawn};
ghost use Rattle.records.specs.Sheeted.{Few, OptionWords};

use rules::{Case, Counts, FormatOptions, Indent, Inline, Place};
use tokens::{place_at, to_usize, word_at};

// ---- the counts, and where each table starts

#[tactic(auto, unfolding(rules::specs::Words::counts_of))]
pub fn counts_of(s: &[u8]) -> Counts
    requires { 48 ≤ length s.now }
    ensures { result ≡ counts_of s.now }
{
    Counts {
        tokens: to_usize(word_at(s, 0)),
        params: to_usize(word_at(s, 4)),
        keeps: to_usize(word_at(s, 8)),
        bytes: to_usize(word_at(s, 12)),
    }
}

pub fn body_at(c: Counts) -> usize
    requires { Few c }
    ensures { result ≡ body_at c }
{
    48 + 20 * c.tokens + 16 * c.params + 8 * c.keeps
}

// ---- the options

#[tactic(auto, unfolding(rules::specs::Sheet::indent_from))]
fn indent_from(w: u32) -> Indent
    requires { w ≤ 256 }
    ensures { result ≡ indent_from w }
{
    if w == 256 {
        Indent::Tabs
    } else {
        Indent::Spaces(w as u8)
    }
}

#[tactic(auto, unfolding(rules::specs::Sheet::case_from))]
fn case_from(w: u32) -> Case
    ensures { result ≡ case_from w }
{
    match w {
        0 => Case::AsIs,
        1 => Case::Upper,
        _ => Case::Lower,
    }
}

#[tactic(auto, unfolding(rules::specs::Sheet::inline_from))]
fn inline_from(w: u32) -> Inline
    ensures { result ≡ inline_from w }
{
    if w == 0 {
        Inline::Off
    } else {
        Inline::Comments
    }
}

#[tactic(auto, unfolding(rules::specs::Sheet::limit_from))]
fn limit_from(w: u32) -> Option<u32>
    ensures { result ≡ limit_from w }
{
    if w == u32::MAX { None } else { Some(w) }
}

#[tactic(auto, unfolding(rules::specs::Sheet::options_of))]
pub fn options_of(s: &[u8]) -> FormatOptions
    requires { OptionWords s.now }
    ensures { result ≡ options_of s.now }
{
    FormatOptions {
        indent: indent_from(word_at(s, 20)),
        casing: case_from(word_at(s, 24)),
        inline: inline_from(word_at(s, 28)),
        lines_between_queries: word_at(s, 32) as u8,
        max_inline_block: word_at(s, 36),
        max_inline_arguments: limit_from(word_at(s, 40)),
        max_inline_top_level: limit_from(word_at(s, 44)),
    }
}

// Word 7 at 1 is withdrawn: no layout call takes such a sheet.
#[tactic(auto, unfolding(rules::specs::Answer::is_withdrawn))]
pub fn is_withdrawn(s: &[u8]) -> bool
    requires { OptionWords s.now }
    ensures { result ≡ is_withdrawn s.now }
{
    word_at(s, 28) == 1
}

// ---- the records

pub fn param_name_at(s: &[u8], c: Counts, i: usize) -> Place
    requires { params_at c + 16 * i + 16 ≤ length s.now }
    ensures { result ≡ place_at s.now (params_at c + 16 * i) }
{
    place_at(s, 48 + 20 * c.tokens + 16 * i)
}

pub fn param_value_at(s: &[u8], c: Counts, i: usize) -> Place
    requires { params_at c + 16 * i + 16 ≤ length s.now }
    ensures { result ≡ place_at s.now (params_at c + 16 * i + 8) }
{
    place_at(s, 48 + 20 * c.tokens + 16 * i + 8)
}

pub fn keep_at(s: &[u8], c: Counts, i: usize) -> Place
    requires { keeps_at c + 8 * i + 8 ≤ length s.now }
    ensures { result ≡ place_at s.now (keeps_at c + 8 * i) }
{
    place_at(s, 48 + 20 * c.tokens + 16 * c.params + 8 * i)
}
