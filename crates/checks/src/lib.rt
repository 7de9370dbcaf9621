// Checks 1 to 4 of a sheet.
#![tactic(auto)]

ghost use Rattle.std.specs.Prelude.{◌≡◌, ◌+◌, ◌*◌, ◌≤◌, length};
ghost use Rattle.std.specs.Bool.{OnTrue};
ghost use Rattle.rules.specs.Words.{keeps_at, body_at};
ghost use Rattle.rules.specs.Checks.{first_of, counts_fit, sizes, words, places, body_byte, checked};
ghost use Rattle.records.specs.Sheeted.{Few};

use records::{body_at, counts_of};
use rules::{Counts, Offence};

// ---- check 1: the counts and the length

fn counts_fit(c: Counts) -> bool
    ensures value { result ≡ counts_fit c }
    ensures few { OnTrue result (Few c) }
{
    c.tokens <= 1024 && c.params <= 256 && c.keeps <= 64 && c.bytes <= 32768
}

// Check 1 alone.
#[tactic(auto, unfolding(rules::specs::Words::counts_of))]
pub fn check_size(s: &[u8]) -> Option<usize>
    ensures { result ≡ sizes s.now }
{
    if s.len() < 48 {
        return Some(0);
    }
    // The counts before their sum, so that it does not wrap.
    let c = counts_of(s);
    if !counts_fit(c) || s.len() != body_at(c) + c.bytes {
        return Some(0);
    }
    None
}

// ---- checks 2 to 4: each finds the first offence of its tables

fn check_words(s: &[u8], c: Counts) -> Option<usize>
    requires { keeps_at c ≤ length s.now }
    ensures { result ≡ words s.now c }
{
    let head = offences::head_words(s);
    let tokens = (0..c.tokens).find_map(|i| offences::token_words(s, 48 + 20 * i));
    let params = (0..c.params).find_map(|i| offences::param_words(s, 48 + 20 * c.tokens + 16 * i));
    head.or(tokens).or(params)
}

fn check_places(s: &[u8], c: Counts) -> Option<usize>
    requires { body_at c ≤ length s.now }
    ensures { result ≡ places s.now c }
{
    let tokens = (0..c.tokens).find_map(|i| offences::token_places(s, c.bytes, 48 + 20 * i));
    let params = (0..c.params).find_map(|i| offences::param_places(
        s,
        c.bytes,
        48 + 20 * c.tokens + 16 * i,
    ));
    let keeps = (0..c.keeps).find_map(|i| offences::keep_places(
        s,
        c.bytes,
        48 + 20 * c.tokens + 16 * c.params + 8 * i,
    ));
    tokens.or(params).or(keeps)
}

#[tactic(auto, using(crate::proofs::FirstLaws::ascii_none))]
fn check_bytes(s: &[u8], from: usize, n: usize) -> Option<usize>
    requires { from + n ≤ length s.now }
    ensures { result ≡ first_of (body_byte s.now) 1 from n }
{
    // Sound bodies are passed many bytes at a time.
    if s[from..from + n].is_ascii() {
        return None;
    }
    (0..n).find_map(|i| offences::body_byte(s, from + i))
}

// ---- the checks in turn

#[tactic(auto, unfolding(rules::specs::Checks::checked, rules::specs::Checks::checked_as))]
pub fn check(s: &[u8]) -> Result<Counts, Offence>
    ensures { result ≡ checked s.now }
{
    if check_size(s).is_some() {
        return Err(Offence::Size);
    }
    let c = counts_of(s);
    if let Some(at) = check_words(s, c) {
        return Err(Offence::Word(at));
    }
    if let Some(at) = check_places(s, c) {
        return Err(Offence::Place(at));
    }
    if let Some(at) = check_bytes(s, body_at(c), c.bytes) {
        return Err(Offence::Byte(at));
    }
    Ok(c)
}
