// params.rs: what a placeholder shows, with the counter by value.
#![tactic(auto)]

ghost use Rattle.std.specs.Prelude.{◌≡◌, ◌≤◌, ◌<◌, length};
ghost use Rattle.rules.specs.declared.Counts.{Counts};
ghost use Rattle.rules.specs.Params.{offends as offends_by};
ghost use Rattle.rules.specs.Sheet.{body_part, key_read, params_of};
ghost use Rattle.rules.specs.Words.{word_at, body_at};
ghost use Rattle.tokens.specs.Placed.{Inside};
ghost use Rattle.records.specs.Sheeted.{Sheeted};
ghost use Rattle.params.specs.Entries.{mode_from, KeyIn, entry_named, entry_at, takes_next, entry_indexed, key_refused, entry_keyed, entry_for, found_of, shown_of};

use places::same_places;
use records::{body_at, param_name_at, param_value_at};
use rules::{Counts, Place, PlaceholderKind, Token, ZeroIndexed};
use tokens::{to_usize, word_at, zero_indexed};

// What is shown, and the number of the entry that it is the value of.
#[derive(Clone, Copy)]
pub struct Found {
    pub place: Place,
    pub entry: Option<usize>,
}

// The same, and the counter after it.
#[derive(Clone, Copy)]
pub struct Shown {
    pub place: Place,
    pub entry: Option<usize>,
    pub index: u32,
}

#[derive(Clone, Copy, PartialEq, Eq)]
enum Mode {
    NoParams,
    Indexed,
    Named,
}

#[tactic(auto, unfolding(crate::specs::Entries::mode_from))]
fn mode_of(sheet: &[u8]) -> Mode
    requires { 48 ≤ length sheet.now }
    ensures { result ≡ mode_from (word_at sheet.now 16) }
{
    match word_at(sheet, 16) {
        0 => Mode::NoParams,
        1 => Mode::Indexed,
        _ => Mode::Named,
    }
}

// ---- Named

// Out of line: in its callers it would have fewer registers, and take longer where the list is long.
#[inline(never)]
#[tactic(auto, using(crate::proofs::EntryLaws::by_name))]
fn find_by_name(sheet: &[u8], c: Counts, name: Place) -> Option<usize>
    requires { (Sheeted sheet.now c) × (Inside sheet.now (body_at c) name) }
    ensures { result ≡ entry_named sheet.now c (body_part sheet.now (body_at c) name) }
{
    let base = body_at(c);
    for i in 0..c.params {
        if same_places(sheet, base, param_name_at(sheet, c, i), name) {
            return Some(i);
        }
    }
    None
}

// A key that is a number has the name "".
#[tactic(auto, using(places::proofs::Laws::part_empty), unfolding(crate::specs::Entries::entry_keyed))]
fn find_by_key(sheet: &[u8], c: Counts, key: Option<PlaceholderKind>) -> Option<usize>
    requires { (Sheeted sheet.now c) × (KeyIn sheet.now (body_at c) key) }
    ensures { result ≡ entry_keyed sheet.now c key }
{
    match key? {
        PlaceholderKind::Named(name) => find_by_name(sheet, c, name),
        PlaceholderKind::Zero(_) | PlaceholderKind::One(_) => find_by_name(
            sheet,
            c,
            Place { start: 0, len: 0 },
        ),
    }
}

// ---- Indexed

#[tactic(auto, unfolding(crate::specs::Entries::entry_at))]
fn by_index(c: Counts, n: ZeroIndexed) -> Option<usize>
    ensures { result ≡ entry_at c n.0 }
{
    let i = to_usize(n.0);
    if i < c.params { Some(i) } else { None }
}

// No key, or an empty name: the counter's entry is due, and the counter moves.
#[tactic(auto, unfolding(crate::specs::Entries::takes_next))]
fn takes_next(key: Option<PlaceholderKind>) -> bool
    ensures { result ≡ takes_next key }
{
    match key {
        None => true,
        Some(PlaceholderKind::Named(name)) => name.len == 0,
        Some(PlaceholderKind::Zero(_) | PlaceholderKind::One(_)) => false,
    }
}

#[tactic(auto, unfolding(crate::specs::Entries::entry_indexed, crate::specs::Entries::entry_numbered, crate::specs::Entries::entry_from, crate::specs::Entries::takes_next))]
fn by_number(c: Counts, key: Option<PlaceholderKind>, index: u32) -> Option<usize>
    ensures { result ≡ entry_indexed c key index }
{
    if takes_next(key) {
        return by_index(c, ZeroIndexed(index));
    }
    match key? {
        PlaceholderKind::Named(_) => None,
        PlaceholderKind::Zero(n) => by_index(c, n),
        PlaceholderKind::One(n) => by_index(c, zero_indexed(n)?),
    }
}

// ---- the lookup

#[tactic(auto, unfolding(crate::specs::Entries::entry_for, crate::specs::Entries::mode_from))]
pub fn entry_for(sheet: &[u8], c: Counts, key: Option<PlaceholderKind>, index: u32) -> Option<usize>
    requires { (Sheeted sheet.now c) × (KeyIn sheet.now (body_at c) key) }
    ensures { result ≡ entry_for sheet.now c key index }
{
    match mode_of(sheet) {
        Mode::NoParams => None,
        Mode::Indexed => by_number(c, key, index),
        Mode::Named => find_by_key(sheet, c, key),
    }
}

#[tactic(auto, using(crate::proofs::FoundLaws::entry_below), unfolding(crate::specs::Entries::found_of, crate::specs::Entries::place_in))]
fn find(sheet: &[u8], c: Counts, t: Token, index: u32) -> Found
    requires { (Sheeted sheet.now c) × (KeyIn sheet.now (body_at c) t.key) }
    ensures { result ≡ found_of sheet.now c t index }
{
    let entry = entry_for(sheet, c, t.key, index);
    let place = match entry {
        Some(i) => param_value_at(sheet, c, i),
        None => t.value,
    };
    Found { place, entry }
}

#[tactic(auto, using(crate::proofs::ModeLaws::moves, crate::proofs::ModeLaws::stays), unfolding(crate::specs::Entries::shown_of))]
pub fn get(sheet: &[u8], c: Counts, t: Token, index: u32) -> Shown
    requires { (Sheeted sheet.now c) × (KeyIn sheet.now (body_at c) t.key) × (index < 4294967295) }
    ensures { result ≡ shown_of sheet.now c t index }
{
    let found = find(sheet, c, t, index);
    let moves = mode_of(sheet) == Mode::Indexed && takes_next(t.key);
    Shown {
        place: found.place,
        entry: found.entry,
        index: if moves { index + 1 } else { index },
    }
}

// ---- refusal 5

// The one conversion refuses the key's number.
#[tactic(auto, unfolding(crate::specs::Entries::key_refused, rules::specs::Params::is_refused))]
fn key_refused(key: Option<PlaceholderKind>) -> bool
    ensures { result ≡ key_refused key }
{
    match key {
        Some(PlaceholderKind::One(n)) => zero_indexed(n).is_none(),
        _ => false,
    }
}

#[tactic(auto, using(crate::proofs::ModeLaws::offence, crate::proofs::ModeLaws::no_offence))]
pub fn offends(sheet: &[u8], t: Token) -> bool
    requires { 48 ≤ length sheet.now }
    ensures { (c : Counts) → result ≡ offends_by (params_of sheet.now c) (key_read sheet.now (body_at c) t.key) }
{
    mode_of(sheet) == Mode::Indexed && key_refused(t.key)
}
