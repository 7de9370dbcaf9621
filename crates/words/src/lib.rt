// Words as the text has them: in a case, with white joined to one blank, and a block comment with the present indent.
#![tactic(auto)]

ghost use Rattle.std.specs.Prelude.{◌≡◌, true, ◌&&◌, ◌∷◌, ◌+◌, ◌%◌, ◌≤◌, leb, length};
ghost use Rattle.rules.specs.Text.{in_case, equalize_whitespace, indent_comment, indent_of, append};
ghost use Rattle.ascii.specs.Part.{part};
ghost use Rattle.text.specs.Put.{put};
ghost use Rattle.text.specs.Held.{text_of, Held, Laid};
ghost use Rattle.words.specs.Words.{Written, spaced, fresh, piece_at, Joins, all_white, blanks, lead_of};

use ascii::{find, in_case, is_blank, is_white};
use rules::{Case, Indent};
use text::{Text, append_byte, append_indent, append_part, refuse};

// ---- a word in a case

fn copy_cased(text: &mut [u8], at: usize, src: &[u8], start: usize, n: usize, k: Case)
    requires { (at + n ≤ length text.old) × (start + n ≤ length src.now) }
    ensures { text.new ≡ put text.old at (in_case k (part src.now start n)) }
{
    let mut i = 0;
    while i < n {
        text[at + i] = in_case(k, src[start + i]);
        i += 1;
    }
}

pub fn append_cased(text: &mut [u8], t: Text, src: &[u8], start: usize, n: usize, k: Case) -> Text
    requires held { Held t text.old }
    requires n_in_bounds { start + n ≤ length src.now }
    ensures { Laid (length text.old) (append (length text.old) (in_case k (part src.now start n)) (text_of t text.old)) result text.new }
{
    let fault = t.fault;
    if fault != 0 {
        return Text {
            len: 0,
            floor: 0,
            low: 0,
            fault,
        };
    }
    let len = t.len;
    if text.len() - len < n {
        return refuse(text, t, 9);
    }
    copy_cased(text, len, src, start, n, k);
    Text {
        len: len + n,
        floor: t.floor,
        low: t.low,
        fault: 0,
    }
}

// ---- a reserved word

// A byte, with a blank before it where there is a gap; gives the new end.
fn copy_spaced(text: &mut [u8], at: usize, gap: bool, b: u8) -> usize
    requires { at + length (spaced gap b) ≤ length text.old }
    ensures { Written text.old at (spaced gap b) text.new result }
{
    if gap {
        text[at] = 32;
        text[at + 1] = b;
        return at + 2;
    }
    text[at] = b;
    at + 1
}

// How far a joined word is written, and whether white was read since.
#[derive(Drop)]
struct Joined {
    end: usize,
    gap: bool,
}

// In one pass: white before the first other byte is left out, and white after one is a gap, written as a blank before the next.
// No case makes a byte white that was not, or the other way: white is tested on the value's own byte.
fn join_bytes(
    text: &mut [u8],
    at: usize,
    from: Joined,
    src: &[u8],
    start: usize,
    n: usize,
    k: Case,
) -> Joined
    requires at_le_end { (at ≤ from.end) × (from.end + length (piece_at at from (in_case k (part src.now start n))) ≤ length text.old) }
    requires n_in_bounds { start + n ≤ length src.now }
    ensures { Joins at text.old from (in_case k (part src.now start n)) text.new result }
{
    let mut end = from.end;
    let mut gap = from.gap;
    let mut i = 0;
    while i < n {
        let b = src[start + i];
        i += 1;
        if is_white(b) {
            gap = at < end;
            continue;
        }
        end = copy_spaced(text, end, gap, in_case(k, b));
        gap = false;
    }
    Joined { end, gap }
}

// Whether n bytes are all white, or none is. No branch for each byte, so that many are tested at a time.
fn all_white(src: &[u8], start: usize, n: usize, white: bool) -> bool
    requires { start + n ≤ length src.now }
    ensures { result ≡ all_white white (part src.now start n) }
{
    let mut all: bool = true;
    let mut i = 0;
    while i < n {
        all &= is_white(src[start + i]) == white;
        i += 1;
    }
    all
}

// How many bytes from start on are white, or are not, in whole blocks of 32.
fn run_of(src: &[u8], start: usize, n: usize, white: bool) -> usize
    requires { start + n ≤ length src.now }
    ensures { (result ≤ n) × (result % 32 ≡ 0) × (all_white white (part src.now start result) ≡ true) }
{
    let mut i = 0;
    while 32 <= n - i {
        if !all_white(src, start + i, 32, white) {
            return i;
        }
        i += 32;
    }
    i
}

// One test of two, so that a turn has one branch for them.
fn both(a: bool, b: bool) -> bool
    ensures { result ≡ (a && b) }
{
    if a {
        return b;
    }
    false
}

// Whole blocks: a long word goes many bytes at a time where they are all white, or none is.
fn join_blocks(text: &mut [u8], at: usize, src: &[u8], start: usize, n: usize, k: Case) -> Joined
    requires n_in_bounds { at + length (piece_at at (fresh at) (in_case k (part src.now start n))) ≤ length text.old }
    requires n_in_bounds_2 { (start + n ≤ length src.now) × (n % 32 ≡ 0) }
    ensures { Joins at text.old (fresh at) (in_case k (part src.now start n)) text.new result }
{
    let mut j = Joined {
        end: at,
        gap: false,
    };
    let mut i = 0;
    while 32 <= n - i {
        let end = j.end;
        let gap = j.gap;
        let white = run_of(src, start + i, n - i, true);
        if white != 0 {
            i += white;
            j = Joined { end, gap: at < end };
            continue;
        }
        // A run after a gap has its blank written with its first block, a byte at a time.
        let run = run_of(src, start + i, n - i, false);
        if both(!gap, run != 0) {
            copy_cased(text, end, src, start + i, run, k);
            i += run;
            let past = end + run;
            j = Joined {
                end: past,
                gap: false,
            };
            continue;
        }
        j = join_bytes(text, at, j, src, start + i, 32, k);
        i += 32;
    }
    j
}

// Whole blocks, then the bytes after them.
fn copy_joined(text: &mut [u8], at: usize, src: &[u8], start: usize, n: usize, k: Case) -> usize
    requires n_in_bounds { at + length (equalize_whitespace (in_case k (part src.now start n))) ≤ length text.old }
    requires n_in_bounds_2 { start + n ≤ length src.now }
    ensures { Written text.old at (equalize_whitespace (in_case k (part src.now start n))) text.new result }
{
    let rest = n % 32;
    let whole = n - rest;
    let j = join_blocks(text, at, src, start, whole, k);
    let all = join_bytes(text, at, j, src, start + whole, rest, k);
    all.end
}

// How many bytes a byte takes with its gap.
fn spaced_len(gap: bool) -> usize
    ensures { result ≡ length (spaced gap 0) }
{
    if gap {
        return 2;
    }
    1
}

// The same pass, which only counts.
fn joined_len(src: &[u8], start: usize, n: usize) -> usize
    requires { start + n ≤ length src.now }
    ensures { result ≡ length (equalize_whitespace (part src.now start n)) }
{
    let mut len = 0;
    let mut gap = false;
    let mut i = 0;
    while i < n {
        let b = src[start + i];
        i += 1;
        if is_white(b) {
            gap = 0 < len;
            continue;
        }
        len += spaced_len(gap);
        gap = false;
    }
    len
}

// A joined word is never longer than its value, so its bytes are counted only where the value has no room.
fn has_room(src: &[u8], start: usize, n: usize, room: usize) -> bool
    requires { start + n ≤ length src.now }
    ensures { result ≡ leb (length (equalize_whitespace (part src.now start n))) room }
{
    if n <= room {
        return true;
    }
    joined_len(src, start, n) <= room
}

pub fn append_reserved(
    text: &mut [u8],
    t: Text,
    src: &[u8],
    start: usize,
    n: usize,
    k: Case,
) -> Text
    requires held { Held t text.old }
    requires n_in_bounds { start + n ≤ length src.now }
    ensures { Laid (length text.old) (append (length text.old) (equalize_whitespace (in_case k (part src.now start n))) (text_of t text.old)) result text.new }
{
    let fault = t.fault;
    if fault != 0 {
        return Text {
            len: 0,
            floor: 0,
            low: 0,
            fault,
        };
    }
    let len = t.len;
    let room = text.len() - len;
    if !has_room(src, start, n, room) {
        return refuse(text, t, 9);
    }
    let end = copy_joined(text, len, src, start, n, k);
    Text {
        len: end,
        floor: t.floor,
        low: t.low,
        fault: 0,
    }
}

// ---- a block comment

fn count_blanks(src: &[u8], start: usize, n: usize) -> usize
    requires { start + n ≤ length src.now }
    ensures { (result ≡ blanks (part src.now start n)) × (result ≤ n) }
{
    let mut i = 0;
    while i < n {
        if !is_blank(src[start + i]) {
            return i;
        }
        i += 1;
    }
    i
}

fn append_lead(text: &mut [u8], t: Text, lead: usize, indent: Indent, level: usize) -> Text
    requires held { Held t text.old }
    requires level_bound { level ≤ 128 }
    ensures { Laid (length text.old) (append (length text.old) (lead_of lead (indent_of indent level)) (text_of t text.old)) result text.new }
{
    if lead == 0 {
        return Text {
            len: t.len,
            floor: t.floor,
            low: t.low,
            fault: t.fault,
        };
    }
    let indented = append_indent(text, t, indent, level);
    append_byte(text, indented, 32)
}

fn append_feed(text: &mut [u8], t: Text, lead: usize, indent: Indent, level: usize) -> Text
    requires held { Held t text.old }
    requires level_bound { level ≤ 128 }
    ensures { Laid (length text.old) (append (length text.old) (10 ∷ lead_of lead (indent_of indent level)) (text_of t text.old)) result text.new }
{
    let fed = append_byte(text, t, 10);
    append_lead(text, fed, lead, indent, level)
}

pub fn append_comment(
    text: &mut [u8],
    t: Text,
    src: &[u8],
    start: usize,
    n: usize,
    indent: Indent,
    level: usize,
) -> Text
    requires held { Held t text.old }
    requires n_in_bounds { start + n ≤ length src.now }
    requires level_bound { level ≤ 128 }
    ensures { Laid (length text.old) (append (length text.old) (indent_comment (indent_of indent level) (part src.now start n)) (text_of t text.old)) result text.new }
{
    let mut done = t;
    let mut i = 0;
    while i < n {
        // A line, then its feed and the blanks after it.
        let run = find(src, start + i, n - i, 10);
        let line = append_part(text, done, src, start + i, run);
        i += run;
        if i == n {
            return line;
        }
        i += 1;
        let lead = count_blanks(src, start + i, n - i);
        done = append_feed(text, line, lead, indent, level);
        i += lead;
    }
    done
}
