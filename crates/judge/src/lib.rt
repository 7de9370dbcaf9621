// Wish 13: whether a text, white bytes taken out, is what is due of a sheet, token by token. The text's cursor only moves on.
#![tactic(auto)]

ghost use Rattle.std.specs.Prelude.{◌≡◌, ◌&&◌, ◌≤◌, ◌<◌, length, drop};
ghost use Rattle.rules.specs.declared.Case.TheVariants as case;
ghost use Rattle.rules.specs.declared.Turn.TheVariants as taken;
ghost use Rattle.rules.specs.Text.{in_case};
ghost use Rattle.rules.specs.Words.{body_at};
ghost use Rattle.rules.specs.Sheet.{body_part, key_read, options_of, params_of, keeps_of, tokens_of};
ghost use Rattle.rules.specs.Params.{offends as offends_by};
ghost use Rattle.rules.specs.Rows.{lays_out};
ghost use Rattle.rules.specs.Switch.{switched_on};
ghost use Rattle.rules.specs.Due.{strip, role_of};
ghost use Rattle.tokens.specs.Placed.{Inside};
ghost use Rattle.records.specs.Sheeted.{Sheeted};
ghost use Rattle.matching.specs.Read.{read_to};
ghost use Rattle.foreign.specs.Foreign.{compared, judge_tokens, judge as verdict_of, judged_of};
ghost use Rattle.foreign.specs.Walk.{barred_from};
ghost use Rattle.judge.specs.declared.Form.TheVariants as form;
ghost use Rattle.params.specs.Entries.{TokenIn};
ghost use Rattle.judge.specs.Asked.{form_of, DueIn};

use fmt_switch::Switch;
use foreign::{Judged, Refusal, Verdict};
use keeps::case_for;
use matching::{first_high, only_white, reach};
use params::{get, offends};
use records::{body_at, options_of};
use rules::{Case, Counts, Place, Token, TokenKind, Turn};
use switched::{lays_out, turn_at};
use tokens::{to_usize, token_at};

// How a token is shown while the switch is on.
#[derive(Clone, Copy, PartialEq, Eq)]
pub enum Form {
    Nothing,
    Own,
    Cased,
    Filled,
}

// What is due of a token: the bytes of a place, in a case; and the placeholders' counter after it.
#[derive(Clone, Copy)]
pub struct Due {
    pub place: Place,
    pub casing: Case,
    pub index: u32,
}

// ---- refusal 5

fn is_barred(sheet: &[u8], c: Counts, turn: Turn, t: Token) -> bool
    requires { 48 ≤ length sheet.now }
    ensures { result ≡ (lays_out turn t.kind && offends_by (params_of sheet.now c) (key_read sheet.now (body_at c) t.key)) }
{
    lays_out(turn, t.kind) && offends(sheet, t)
}

// The first placeholder laid out whose number counts from one and is nought.
#[tactic(auto, using(crate::proofs::TokenLaws::barring))]
fn first_barred(sheet: &[u8], c: Counts) -> Option<usize>
    requires { Sheeted sheet.now c }
    ensures { result ≡ barred_from (params_of sheet.now c) switched_on 0 (tokens_of sheet.now c) }
{
    let base = body_at(c);
    let mut switch = Switch::new();
    for i in 0..c.tokens {
        let t = token_at(sheet, i);
        let turn = turn_at(sheet, base, i, switch, t.kind);
        if is_barred(sheet, c, turn, t) {
            return Some(i);
        }
        switch = switch.after(turn);
    }
    None
}

// ---- what is due of a token

#[tactic(auto, unfolding(rules::specs::Due::role_of))]
fn form_of(kind: TokenKind) -> Form
    ensures { result ≡ form_of (role_of kind) }
{
    match kind {
        TokenKind::Whitespace => Form::Nothing,
        TokenKind::Reserved
        | TokenKind::ReservedTopLevel
        | TokenKind::ReservedTopLevelNoIndent
        | TokenKind::ReservedNewline
        | TokenKind::ReservedNewlineAfter
        | TokenKind::OpenParen
        | TokenKind::CloseParen => Form::Cased,
        TokenKind::Placeholder => Form::Filled,
        _ => Form::Own,
    }
}

fn nothing(index: u32) -> Due
    ensures { result ≡ record { place = record { start = 0; len = 0 }; casing = case.AsIs; index = index } }
{
    Due {
        place: Place { start: 0, len: 0 },
        casing: Case::AsIs,
        index,
    }
}

fn filled(sheet: &[u8], c: Counts, t: Token, index: u32) -> Due
    requires { (TokenIn sheet.now c t) × (form.Filled ≡ form_of (role_of t.kind)) × (index < 4294967295) }
    ensures { DueIn sheet.now c taken.LaidOut t index result }
{
    let shown = get(sheet, c, t, index);
    Due {
        place: shown.place,
        casing: Case::AsIs,
        index: shown.index,
    }
}

// A token that is laid out.
fn due_on(sheet: &[u8], c: Counts, casing: Case, t: Token, index: u32) -> Due
    requires { (TokenIn sheet.now c t) × (casing ≡ (options_of sheet.now).casing) × (index < 4294967295) }
    ensures { DueIn sheet.now c taken.LaidOut t index result }
{
    let place = t.value;
    match form_of(t.kind) {
        Form::Nothing => nothing(index),
        Form::Own => Due {
            place,
            casing: Case::AsIs,
            index,
        },
        Form::Cased => Due {
            place,
            casing: case_for(sheet, c, casing, place),
            index,
        },
        Form::Filled => filled(sheet, c, t, index),
    }
}

// A token, as it is taken.
#[tactic(auto, using(crate::proofs::DueLaws::as_is), unfolding(foreign::specs::Walk::shown_as, rules::specs::Sheet::body_part, rules::specs::Room::counter_after, rules::specs::Rows::lays_out, rules::specs::Base::when))]
fn due_of(sheet: &[u8], c: Counts, casing: Case, turn: Turn, t: Token, index: u32) -> Due
    requires { (TokenIn sheet.now c t) × (casing ≡ (options_of sheet.now).casing) × (index < 4294967295) }
    ensures { DueIn sheet.now c turn t index result }
{
    match turn {
        Turn::Dropped | Turn::Switches(_) => nothing(index),
        Turn::LaidOut => due_on(sheet, c, casing, t, index),
        Turn::Copied => Due {
            place: t.value,
            casing: Case::AsIs,
            index,
        },
    }
}

// ---- the text

#[tactic(auto, unfolding(rules::specs::Sheet::body_part))]
fn reach_due(sheet: &[u8], c: Counts, due: Due, text: &[u8], from: usize) -> Option<usize>
    requires { (Sheeted sheet.now c) × (Inside sheet.now (body_at c) due.place) × (from ≤ length text.now) }
    ensures { result ≡ read_to (strip (in_case due.casing (body_part sheet.now (body_at c) due.place))) from (drop from text.now) }
{
    let start = body_at(c) + to_usize(due.place.start);
    let n = to_usize(due.place.len);
    reach(sheet, start, n, due.casing, text, from)
}

#[tactic(auto, using(crate::proofs::TokenLaws::walking))]
fn compare(sheet: &[u8], c: Counts, text: &[u8]) -> Verdict
    requires { Sheeted sheet.now c }
    ensures { result ≡ compared (params_of sheet.now c) (keeps_of sheet.now c) (options_of sheet.now).casing (tokens_of sheet.now c) text.now }
{
    let base = body_at(c);
    let casing = options_of(sheet).casing;
    let mut at: usize = 0;
    let mut index: u32 = 0;
    let mut switch = Switch::new();
    for i in 0..c.tokens {
        let t = token_at(sheet, i);
        let turn = turn_at(sheet, base, i, switch, t.kind);
        let due = due_of(sheet, c, casing, turn, t, index);
        let Some(end) = reach_due(sheet, c, due, text, at) else {
            return Verdict::No(i);
        };
        at = end;
        index = due.index;
        switch = switch.after(turn);
    }
    if only_white(text, at) {
        return Verdict::Yes;
    }
    Verdict::No(c.tokens)
}

// ---- the whole

// A sheet that checks 1 to 4 found sound.
#[tactic(auto, using(crate::proofs::CallLaws::barred_is), unfolding(foreign::specs::Foreign::judge_tokens, foreign::specs::Foreign::unless_at))]
fn judge_sound(sheet: &[u8], c: Counts, text: &[u8]) -> Result<Verdict, Refusal>
    requires { Sheeted sheet.now c }
    ensures { result ≡ judge_tokens (params_of sheet.now c) (keeps_of sheet.now c) (options_of sheet.now).casing (tokens_of sheet.now c) text.now }
{
    if let Some(i) = first_barred(sheet, c) {
        return Err(Refusal::Number(i));
    }
    if let Some(at) = first_high(text) {
        return Err(Refusal::High(at));
    }
    Ok(compare(sheet, c, text))
}

#[tactic(auto, using(crate::proofs::CallLaws::sound), unfolding(foreign::specs::Foreign::judge, foreign::specs::Foreign::judge_as))]
fn verdict(sheet: &[u8], text: &[u8]) -> Result<Verdict, Refusal>
    ensures { result ≡ verdict_of sheet.now text.now }
{
    let c = checks::check(sheet)?;
    judge_sound(sheet, c, text)
}

// Of any bytes.
pub fn judge(sheet: &[u8], text: &[u8]) -> Judged
    ensures { result ≡ judged_of (verdict_of sheet.now text.now) }
{
    Judged::from(verdict(sheet, text))
}
