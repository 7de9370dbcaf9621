// Wish 9: the sum of what each token may add to the text. A buffer that long is always enough.
#![tactic(auto)]

ghost use Rattle.std.specs.Prelude.{if◌then◌else◌, ◌≡◌, [], ◌∷◌, ◌+◌, ◌*◌, ◌≤◌, ◌<◌, length, Ok};
ghost use Rattle.rules.specs.declared.Turn.TheVariants as taken;
ghost use Rattle.rules.specs.Base.{same};
ghost use Rattle.rules.specs.Text.{line_feeds};
ghost use Rattle.rules.specs.Words.{body_at};
ghost use Rattle.rules.specs.Sheet.{body_part, options_of, params_of, tokens_of};
ghost use Rattle.rules.specs.Compacted.{refusal as unwritten, outcome_of};
ghost use Rattle.rules.specs.Room.{full_indent, room_laid_out, room as sum_of, room_as, room_for};
ghost use Rattle.tokens.specs.Placed.{Inside};
ghost use Rattle.records.specs.Sheeted.{Sheeted};
ghost use Rattle.ascii.specs.Part.{part};
ghost use Rattle.params.specs.Entries.{TokenIn};
ghost use Rattle.room.specs.Tallied.{most, Showing, Tallied};

use fmt_switch::Switch;
use params::{Shown, get};
use records::{body_at, is_withdrawn, options_of};
use rules::{Counts, FormatOptions, Indent, Outcome, Place, Token, TokenKind, Turn};
use switched::{lays_out, turn_at};
use tokens::{to_usize, token_at};

// What is counted for a token, and the placeholders' counter after it.
#[derive(Clone, Copy)]
pub struct Tally {
    pub bytes: u64,
    pub index: u32,
}

// ---- a value

#[tactic(auto, unfolding(rules::specs::Room::full_indent))]
fn full_indent(indent: Indent) -> u64
    ensures { (result ≡ full_indent indent) × (result ≤ 32640) }
{
    match indent {
        Indent::Spaces(n) => 128 * u64::from(n),
        Indent::Tabs => 128,
    }
}

// No branch for each byte, and a count as narrow as it may be: more bytes are looked at at once.
#[tactic(auto, using(crate::proofs::ValueLaws::feeds_on, crate::proofs::ValueLaws::feeds_done))]
fn line_feeds(s: &[u8], start: usize, n: usize) -> u64
    requires { (start + n ≤ length s.now) × (n ≤ 32768) }
    ensures { (result ≡ line_feeds (part s.now start n)) × (result ≤ n) }
{
    let mut feeds: u16 = 0;
    for i in 0..n {
        feeds += u16::from(s[start + i] == b'\n');
    }
    u64::from(feeds)
}

#[tactic(auto, using(crate::proofs::ValueLaws::other_length, crate::proofs::ValueLaws::by_byte))]
fn is_semicolon(s: &[u8], start: usize, n: usize) -> bool
    requires { start + n ≤ length s.now }
    ensures { result ≡ same (part s.now start n) (59 ∷ []) }
{
    n == 1 && s[start] == b';'
}

// Line feeds, each with an indent after it.
fn with_indents(full: u64, feeds: u64) -> u64
    requires { (full ≤ 32640) × (feeds ≤ 32768) }
    ensures { (result ≡ (full + 1) * feeds) × (result ≤ 1069580288) }
{
    (full + 1) * feeds
}

// A token that is laid out and shows the bytes of a place.
#[tactic(auto, using(crate::proofs::ValueLaws::place_short, crate::proofs::ValueLaws::counted))]
fn room_laid_out(sheet: &[u8], c: Counts, o: FormatOptions, p: Place) -> u64
    requires { (Sheeted sheet.now c) × (Inside sheet.now (body_at c) p) }
    ensures { (result ≡ room_laid_out o (body_part sheet.now (body_at c) p)) × (result ≤ most) }
{
    let start = body_at(c) + to_usize(p.start);
    let n = to_usize(p.len);
    let full = full_indent(o.indent);
    let feeds = line_feeds(sheet, start, n);
    let lines = if is_semicolon(sheet, start, n) {
        o.lines_between_queries
    } else {
        0
    };
    n as u64 + (3 + 2 * full) + with_indents(full, feeds) + u64::from(lines)
}

// ---- a token

// What it shows, and the counter after it: a placeholder its entry, if there is one.
#[tactic(auto, unfolding(rules::specs::Room::shown_by, rules::specs::Room::counter_after, rules::specs::Rows::lays_out, rules::specs::Base::when))]
fn shown_by(sheet: &[u8], c: Counts, t: Token, index: u32) -> Shown
    requires { (TokenIn sheet.now c t) × (index < 4294967295) }
    ensures { Showing sheet.now c t index result }
{
    if lays_out(Turn::LaidOut, t.kind) {
        return get(sheet, c, t, index);
    }
    Shown {
        place: t.value,
        entry: None,
        index,
    }
}

// A token that is laid out: Whitespace is not kept.
#[tactic(auto, using(crate::proofs::TokenLaws::not_white), unfolding(rules::specs::Room::room_of, rules::specs::Room::counter_after, rules::specs::Rows::lays_out, rules::specs::Base::when))]
fn room_if_kept(sheet: &[u8], c: Counts, o: FormatOptions, t: Token, index: u32) -> Tally
    requires { (TokenIn sheet.now c t) × (index < 4294967295) }
    ensures { Tallied sheet.now c o taken.LaidOut t index result }
{
    if t.kind == TokenKind::Whitespace {
        return Tally { bytes: 0, index };
    }
    let shown = shown_by(sheet, c, t, index);
    Tally {
        bytes: room_laid_out(sheet, c, o, shown.place),
        index: shown.index,
    }
}

// A token, as it is taken.
#[tactic(auto, using(crate::proofs::ValueLaws::place_short, places::proofs::Laws::length_part), unfolding(rules::specs::Room::room_of, rules::specs::Room::counter_after, rules::specs::Rows::lays_out, rules::specs::Base::when))]
fn room_of(sheet: &[u8], c: Counts, o: FormatOptions, turn: Turn, t: Token, index: u32) -> Tally
    requires { (TokenIn sheet.now c t) × (index < 4294967295) }
    ensures { Tallied sheet.now c o turn t index result }
{
    match turn {
        Turn::Dropped | Turn::Switches(_) => Tally { bytes: 0, index },
        Turn::LaidOut => room_if_kept(sheet, c, o, t, index),
        Turn::Copied => Tally {
            bytes: u64::from(t.value.len),
            index,
        },
    }
}

// ---- the whole

#[tactic(auto, using(crate::proofs::SumLaws::sum_begins, crate::proofs::SumLaws::none_left))]
fn room(sheet: &[u8], c: Counts) -> u64
    requires { Sheeted sheet.now c }
    ensures { result ≡ sum_of (options_of sheet.now) (params_of sheet.now c) (tokens_of sheet.now c) }
{
    let base = body_at(c);
    let o = options_of(sheet);
    let mut sum: u64 = 0;
    let mut index: u32 = 0;
    let mut switch = Switch::new();
    for i in 0..c.tokens {
        let t = token_at(sheet, i);
        let turn = turn_at(sheet, base, i, switch, t.kind);
        let one = room_of(sheet, c, o, turn, t, index);
        sum += one.bytes;
        index = one.index;
        switch = switch.after(turn);
    }
    sum
}

#[tactic(auto, unfolding(rules::specs::Compacted::outcome_of))]
fn refused(number: u32, place: usize) -> Outcome
    ensures { result ≡ outcome_of (unwritten number place) }
{
    Outcome {
        refusal: number,
        place: place as u64,
        length: 0,
    }
}

// Of a sheet that checks 1 to 4 found sound.
#[tactic(auto, unfolding(rules::specs::Room::room_as))]
fn room_sound(sheet: &[u8], c: Counts) -> Outcome
    requires { Sheeted sheet.now c }
    ensures { result ≡ room_as sheet.now (Ok c) }
{
    if is_withdrawn(sheet) {
        return refused(14, 28);
    }
    Outcome {
        refusal: 0,
        place: 0,
        length: room(sheet, c),
    }
}

// Of any bytes.
#[tactic(auto, using(crate::proofs::CallLaws::sound), unfolding(rules::specs::Room::room_for, rules::specs::Room::room_as))]
pub fn room_for(sheet: &[u8]) -> Outcome
    ensures { result ≡ room_for sheet.now }
{
    match checks::check(sheet) {
        Ok(c) => room_sound(sheet, c),
        Err(offence) => refused(offence.number(), offence.place()),
    }
}
