// The working text: a lent buffer that holds the text and then zeros, its length, the floor, below which no cut goes, and low, the least length
// since the text was marked; or, after a refusal, zeros alone and the
// refusal's number.
// A refused text is handed on by every function here, so callers go straight on and look at the fault once.
// A text is handed on field by field: as a whole it would be copied through memory.
#![tactic(auto)]

ghost use Rattle.std.specs.Prelude.{◌≡◌, ◌+◌, ◌-◌, ◌≤◌, ◌<◌, ◌∷◌, [], length, take, replicate, eqb};
ghost use Rattle.rules.specs.Text.{last_or, indent_of, append, line_feed, fits, refuse as refused_with, cut, cut_blanks, cut_white, hold as holding, is_on, new_line, closing_line};
ghost use Rattle.ascii.specs.Part.{part};
ghost use Rattle.text.specs.Put.{put, Blanked};
ghost use Rattle.text.specs.Held.{text_of, Held, Laid, cut_to, cut_bytes, held_whole, marked};

use ascii::{eight_blanks, is_blank, is_white};
use rules::{Indent, Inline};

#[derive(Clone, Copy)]
pub struct Text {
    pub len: usize,
    pub floor: usize,
    pub low: usize,
    pub fault: u32,
}

// ---- bytes of the buffer

pub fn fill(text: &mut [u8], at: usize, b: u8, count: usize)
    requires { at + count ≤ length text.old }
    ensures { text.new ≡ put text.old at (replicate count b) }
{
    let mut i = 0;
    while i < count {
        text[at + i] = b;
        i += 1;
    }
}

fn copy(text: &mut [u8], at: usize, src: &[u8], start: usize, n: usize)
    requires { (at + n ≤ length text.old) × (start + n ≤ length src.now) }
    ensures { text.new ≡ put text.old at (part src.now start n) }
{
    let mut i = 0;
    while i < n {
        text[at + i] = src[start + i];
        i += 1;
    }
}

fn ends_line(text: &[u8], len: usize) -> bool
    requires { len ≤ length text.now }
    ensures { result ≡ eqb (last_or 0 (take len text.now)) 10 }
{
    if len == 0 {
        return false;
    }
    text[len - 1] == 10
}

// ---- begin, refuse, append

pub fn begin(text: &mut [u8]) -> Text
    ensures { Laid (length text.old) (fits 0 0 []) result text.new }
{
    let cap = text.len();
    fill(text, 0, 0, cap);
    Text {
        len: 0,
        floor: 0,
        low: 0,
        fault: 0,
    }
}

pub fn refuse(text: &mut [u8], t: Text, n: u32) -> Text
    requires held { Held t text.old }
    requires n_nonzero { 0 < n }
    ensures { Laid (length text.old) (refused_with n (text_of t text.old)) result text.new }
{
    let fault = t.fault;
    if fault != 0 {
        return Text {
            len: 0,
            floor: 0,
            low: 0,
            fault,
        };
    }
    let cap = text.len();
    fill(text, 0, 0, cap);
    Text {
        len: 0,
        floor: 0,
        low: 0,
        fault: n,
    }
}

pub fn append_byte(text: &mut [u8], t: Text, b: u8) -> Text
    requires { Held t text.old }
    ensures { Laid (length text.old) (append (length text.old) (b ∷ []) (text_of t text.old)) result text.new }
{
    let fault = t.fault;
    if fault != 0 {
        return Text {
            len: 0,
            floor: 0,
            low: 0,
            fault,
        };
    }
    let len = t.len;
    if text.len() - len < 1 {
        return refuse(text, t, 9);
    }
    text[len] = b;
    Text {
        len: len + 1,
        floor: t.floor,
        low: t.low,
        fault: 0,
    }
}

pub fn append_repeat(text: &mut [u8], t: Text, b: u8, count: usize) -> Text
    requires { Held t text.old }
    ensures { Laid (length text.old) (append (length text.old) (replicate count b) (text_of t text.old)) result text.new }
{
    let fault = t.fault;
    if fault != 0 {
        return Text {
            len: 0,
            floor: 0,
            low: 0,
            fault,
        };
    }
    let len = t.len;
    if text.len() - len < count {
        return refuse(text, t, 9);
    }
    fill(text, len, b, count);
    Text {
        len: len + count,
        floor: t.floor,
        low: t.low,
        fault: 0,
    }
}

pub fn append_part(text: &mut [u8], t: Text, src: &[u8], start: usize, n: usize) -> Text
    requires held { Held t text.old }
    requires n_in_bounds { start + n ≤ length src.now }
    ensures { Laid (length text.old) (append (length text.old) (part src.now start n) (text_of t text.old)) result text.new }
{
    let fault = t.fault;
    if fault != 0 {
        return Text {
            len: 0,
            floor: 0,
            low: 0,
            fault,
        };
    }
    let len = t.len;
    if text.len() - len < n {
        return refuse(text, t, 9);
    }
    copy(text, len, src, start, n);
    Text {
        len: len + n,
        floor: t.floor,
        low: t.low,
        fault: 0,
    }
}

fn wide(b: u8) -> usize
    ensures { (result ≡ b) × (result < 256) }
{
    b as usize
}

pub fn append_indent(text: &mut [u8], t: Text, indent: Indent, level: usize) -> Text
    requires held { Held t text.old }
    requires level_bound { level ≤ 128 }
    ensures { Laid (length text.old) (append (length text.old) (indent_of indent level) (text_of t text.old)) result text.new }
{
    match indent {
        Indent::Spaces(n) => append_repeat(text, t, 32, level * wide(n)),
        Indent::Tabs => append_repeat(text, t, 9, level),
    }
}

// ---- cuts

fn is_cut(white: bool, b: u8) -> bool
    ensures { result ≡ cut_bytes white b }
{
    if white {
        return is_white(b);
    }
    is_blank(b)
}

// A text that was cut to len bytes.
fn lowered(len: usize, floor: usize, low: usize, fault: u32) -> Text
    ensures { result ≡ cut_to len floor low fault }
{
    if low < len {
        return Text {
            len,
            floor,
            low,
            fault,
        };
    }
    Text {
        len,
        floor,
        low: len,
        fault,
    }
}

// A long cut goes eight blanks at a time. What is left of it, and all of a usual one, which has one or two, is the caller's.
fn cut_eights(text: &mut [u8], floor: usize, full: usize) -> usize
    requires { (floor ≤ full) × (full ≤ length text.old) }
    ensures { (floor ≤ result) × Blanked text.old result full text.new }
{
    let mut len = full;
    while 8 <= len - floor {
        let first = len - 8;
        if !eight_blanks(text, first) {
            return len;
        }
        fill(text, first, 0, 8);
        len = first;
    }
    len
}

// A cut zeroes as it goes, so that zeros follow the text.
fn trim_end(text: &mut [u8], t: Text, white: bool) -> Text
    requires { Held t text.old }
    ensures { Laid (length text.old) (cut (cut_bytes white) (text_of t text.old)) result text.new }
{
    let fault = t.fault;
    let floor = t.floor;
    let low = t.low;
    let full = t.len;
    let mut len = cut_eights(text, floor, full);
    while floor < len {
        let last = len - 1;
        if !is_cut(white, text[last]) {
            return lowered(len, floor, low, fault);
        }
        text[last] = 0;
        len = last;
    }
    lowered(len, floor, low, fault)
}

pub fn trim_spaces_end(text: &mut [u8], t: Text) -> Text
    requires { Held t text.old }
    ensures { Laid (length text.old) (cut_blanks (text_of t text.old)) result text.new }
{
    trim_end(text, t, false)
}

pub fn trim_all_spaces_end(text: &mut [u8], t: Text) -> Text
    requires { Held t text.old }
    ensures { Laid (length text.old) (cut_white (text_of t text.old)) result text.new }
{
    trim_end(text, t, true)
}

// ---- lines

pub fn line_feed(text: &mut [u8], t: Text) -> Text
    requires { Held t text.old }
    ensures { Laid (length text.old) (line_feed (length text.old) (text_of t text.old)) result text.new }
{
    let len = t.len;
    if ends_line(text, len) {
        return Text {
            len,
            floor: t.floor,
            low: t.low,
            fault: t.fault,
        };
    }
    append_byte(text, t, 10)
}

pub fn one_blank(text: &mut [u8], t: Text) -> Text
    requires { Held t text.old }
    ensures { Laid (length text.old) (append (length text.old) (32 ∷ []) (cut_blanks (text_of t text.old))) result text.new }
{
    let cut = trim_spaces_end(text, t);
    append_byte(text, cut, 32)
}

// From here on low is the least length that the text is cut to.
pub fn mark(t: Text) -> Text
    ensures { result ≡ marked t }
{
    Text {
        len: t.len,
        floor: t.floor,
        low: t.len,
        fault: t.fault,
    }
}

// No cut goes below what stands there.
fn hold(t: Text) -> Text
    ensures { result ≡ held_whole t }
{
    Text {
        len: t.len,
        floor: t.len,
        low: t.low,
        fault: t.fault,
    }
}

pub fn new_line(text: &mut [u8], t: Text, on: bool, indent: Indent, level: usize) -> Text
    requires held { Held t text.old }
    requires level_bound { level ≤ 128 }
    ensures { Laid (length text.old) (new_line (length text.old) on (indent_of indent level) (text_of t text.old)) result text.new }
{
    if on {
        return one_blank(text, t);
    }
    let cut = trim_spaces_end(text, t);
    let fed = line_feed(text, cut);
    append_indent(text, fed, indent, level)
}

// ---- the new line that closes a line comment

pub fn is_on(inline: Inline) -> bool
    ensures { result ≡ is_on inline }
{
    match inline {
        Inline::Off => false,
        Inline::Comments => true,
    }
}

// A line feed unless there is one, and it is held.
fn held_line(text: &mut [u8], t: Text) -> Text
    requires { Held t text.old }
    ensures { Laid (length text.old) (holding (line_feed (length text.old) (cut_blanks (text_of t text.old)))) result text.new }
{
    let cut = trim_spaces_end(text, t);
    let fed = line_feed(text, cut);
    hold(fed)
}

pub fn closing_line(text: &mut [u8], t: Text, inline: Inline, indent: Indent, level: usize) -> Text
    requires held { Held t text.old }
    requires level_bound { level ≤ 128 }
    ensures { Laid (length text.old) (closing_line (length text.old) inline (indent_of indent level) (text_of t text.old)) result text.new }
{
    match inline {
        Inline::Off => new_line(text, t, false, indent, level),
        Inline::Comments => held_line(text, t),
    }
}
