// params.rs, in two forms that are lent: the counter behind `&mut`, and the parameter list as a slice of records.
#![tactic(auto)]

ghost use Rattle.std.specs.Prelude.{◌≡◌, ◌<◌, position};
ghost use Rattle.rules.specs.Words.{body_at};
ghost use Rattle.records.specs.Sheeted.{Sheeted};
ghost use Rattle.params.specs.Entries.{KeyIn, found_of, shown_of};
ghost use Rattle.lent.specs.Listed.{numbered, equals, named_in};

use offences::in_body;
use params::{Found, Shown, get};
use places::same_places;
use records::body_at;
use rules::{Counts, Place, Token};

// ---- the counter

#[derive(Clone, Copy)]
pub struct Counter {
    pub at: u32,
}

// What is shown; the counter is read, and moved as the lookup says.
#[tactic(auto, unfolding(params::specs::Entries::shown_of, params::specs::Entries::found_of))]
pub fn get_next(sheet: &[u8], c: Counts, t: Token, counter: &mut Counter) -> Found
    requires { (Sheeted sheet.now c) × (KeyIn sheet.now (body_at c) t.key) × (counter.old.at < 4294967295) }
    ensures { (result ≡ found_of sheet.now c t counter.old.at) × (counter.new.at ≡ (shown_of sheet.now c t counter.old.at).index) }
{
    let shown = get(sheet, c, t, counter.at);
    counter.at = shown.index;
    Found {
        place: shown.place,
        entry: shown.entry,
    }
}

// `params::get`, by a counter that is lent: the layout's placeholder.
#[tactic(auto, unfolding(params::specs::Entries::shown_of))]
pub fn get_counted(sheet: &[u8], c: Counts, t: Token, index: u32) -> Shown
    requires { (Sheeted sheet.now c) × (KeyIn sheet.now (body_at c) t.key) × (index < 4294967295) }
    ensures { result ≡ shown_of sheet.now c t index }
{
    let mut counter = Counter { at: index };
    let found = get_next(sheet, c, t, &mut counter);
    Shown {
        place: found.place,
        entry: found.entry,
        index: counter.at,
    }
}

// ---- the list

// A name's place and a value's.
#[derive(Clone, Copy)]
pub struct Param {
    pub name: Place,
    pub value: Place,
}

// Record n and its value, or the caller's place.
#[tactic(auto, using(crate::proofs::ListLaws::nth_get), unfolding(crate::specs::Listed::numbered))]
pub fn by_number(ps: &[Param], n: usize, own: Place) -> Found
    ensures { result ≡ numbered ps.now n own }
{
    match ps.get(n) {
        Some(p) => Found {
            place: p.value,
            entry: Some(n),
        },
        None => Found {
            place: own,
            entry: None,
        },
    }
}

// The record's name equals the searched one. A place outside the bodies equals no name.
#[tactic(auto, using(crate::proofs::ListLaws::in_inside), unfolding(crate::specs::Listed::equals))]
fn is_named(sheet: &[u8], c: Counts, p: Param, name: Place) -> bool
    requires { Sheeted sheet.now c }
    ensures { result ≡ equals sheet.now c p.name name }
{
    let at = p.name;
    in_body(at, c.bytes) && in_body(name, c.bytes) && same_places(sheet, body_at(c), at, name)
}

// The number of the first record whose name equals.
fn number_of(sheet: &[u8], c: Counts, ps: &[Param], name: Place) -> Option<usize>
    requires { Sheeted sheet.now c }
    ensures { result ≡ position (λ p. equals sheet.now c p.name name) ps.now }
{
    ps.iter().position(|p| is_named(sheet, c, *p, name))
}

// Its value, or the caller's place.
#[tactic(auto, using(crate::proofs::ListLaws::find_position), unfolding(crate::specs::Listed::named_in))]
pub fn by_name(sheet: &[u8], c: Counts, ps: &[Param], name: Place, own: Place) -> Found
    requires { Sheeted sheet.now c }
    ensures { result ≡ named_in sheet.now c name ps.now own }
{
    match number_of(sheet, c, ps, name) {
        Some(n) => by_number(ps, n, own),
        None => Found {
            place: own,
            entry: None,
        },
    }
}
