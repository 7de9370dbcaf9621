// What is amiss in one record of a sheet, by checks 2, 3 and 4.
#![tactic(auto)]

ghost use Rattle.std.specs.Prelude.{◌≡◌, ◌+◌, ◌≤◌, ◌<◌, length};
ghost use Rattle.rules.specs.Checks.{demanded, mode_fits, head_words, packed_fits, key_afits, key_bfits, token_words, name_fits, param_words, in_body, key_in_body, token_places, param_places, keep_places, body_byte};

use rules::Place;
use tokens::{class_bits, kind_bits, place_at, to_usize, upper_bits, word_at};

fn demand(ok: bool, at: usize, later: Option<usize>) -> Option<usize>
    ensures { result ≡ demanded ok at later }
{
    if ok { later } else { Some(at) }
}

// ---- check 2: words

pub fn mode_fits(mode: u32, params: u32) -> bool
    ensures { result ≡ mode_fits mode params }
{
    if mode == 0 { params == 0 } else { mode <= 2 }
}

#[tactic(auto, unfolding(rules::specs::Checks::head_words))]
pub fn head_words(s: &[u8]) -> Option<usize>
    requires { 48 ≤ length s.now }
    ensures { result ≡ head_words s.now }
{
    let mode = mode_fits(word_at(s, 16), word_at(s, 4));
    let indent = word_at(s, 20) <= 256;
    let casing = word_at(s, 24) <= 2;
    let inline = word_at(s, 28) <= 2;
    let lines = word_at(s, 32) <= 255;
    let o = demand(inline, 28, demand(lines, 32, None));
    demand(mode, 16, demand(indent, 20, demand(casing, 24, o)))
}

pub fn packed_fits(w: u32) -> bool
    ensures { result ≡ packed_fits w }
{
    kind_bits(w) <= 16 && upper_bits(w) == 0
}

fn key_a_fits(class: u32, a: u32) -> bool
    ensures { result ≡ key_afits class a }
{
    class != 0 || a == 0
}

fn key_b_fits(class: u32, b: u32) -> bool
    ensures { result ≡ key_bfits class b }
{
    class == 1 || b == 0
}

#[tactic(auto, unfolding(rules::specs::Checks::token_words))]
pub fn token_words(s: &[u8], at: usize) -> Option<usize>
    requires { at + 20 ≤ length s.now }
    ensures { result ≡ token_words s.now at }
{
    let w = word_at(s, at);
    let class = class_bits(w);
    let a = key_a_fits(class, word_at(s, at + 12));
    let b = key_b_fits(class, word_at(s, at + 16));
    let o = demand(a, at + 12, demand(b, at + 16, None));
    demand(packed_fits(w), at, o)
}

fn name_fits(mode: u32, x: u32) -> bool
    ensures { result ≡ name_fits mode x }
{
    mode == 2 || x == 0
}

#[tactic(auto, unfolding(rules::specs::Checks::param_words))]
pub fn param_words(s: &[u8], at: usize) -> Option<usize>
    requires { (48 ≤ length s.now) × (at + 16 ≤ length s.now) }
    ensures { result ≡ param_words s.now at }
{
    let mode = word_at(s, 16);
    let start = name_fits(mode, word_at(s, at));
    let len = name_fits(mode, word_at(s, at + 4));
    demand(start, at, demand(len, at + 4, None))
}

// ---- check 3: places

// Two words as whole numbers: in 64 bits their sum does not wrap.
pub fn in_body(p: Place, bytes: usize) -> bool
    ensures { result ≡ in_body p bytes }
{
    to_usize(p.start) + to_usize(p.len) <= bytes
}

fn key_in_body(class: u32, p: Place, bytes: usize) -> bool
    ensures { result ≡ key_in_body class p bytes }
{
    class != 1 || in_body(p, bytes)
}

#[tactic(auto, unfolding(rules::specs::Checks::token_places))]
pub fn token_places(s: &[u8], bytes: usize, at: usize) -> Option<usize>
    requires { at + 20 ≤ length s.now }
    ensures { result ≡ token_places s.now bytes at }
{
    let value = in_body(place_at(s, at + 4), bytes);
    let class = class_bits(word_at(s, at));
    let key = key_in_body(class, place_at(s, at + 12), bytes);
    demand(value, at + 4, demand(key, at + 12, None))
}

#[tactic(auto, unfolding(rules::specs::Checks::param_places))]
pub fn param_places(s: &[u8], bytes: usize, at: usize) -> Option<usize>
    requires { at + 16 ≤ length s.now }
    ensures { result ≡ param_places s.now bytes at }
{
    let name = in_body(place_at(s, at), bytes);
    let value = in_body(place_at(s, at + 8), bytes);
    demand(name, at, demand(value, at + 8, None))
}

#[tactic(auto, unfolding(rules::specs::Checks::keep_places))]
pub fn keep_places(s: &[u8], bytes: usize, at: usize) -> Option<usize>
    requires { at + 8 ≤ length s.now }
    ensures { result ≡ keep_places s.now bytes at }
{
    demand(in_body(place_at(s, at), bytes), at, None)
}

// ---- check 4: bytes

#[tactic(auto, unfolding(rules::specs::Checks::body_byte))]
pub fn body_byte(s: &[u8], at: usize) -> Option<usize>
    requires { at < length s.now }
    ensures { result ≡ body_byte s.now at }
{
    demand(s[at] < 128, at, None)
}
