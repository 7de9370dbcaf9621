// The sheet's words: packed words taken apart and built, and token records.
#![tactic(auto)]

ghost use Rattle.std.specs.Prelude.{◌≡◌, ◌+◌, ◌*◌, ◌≤◌, ◌<◌, length};
ghost use Rattle.rules.specs.Tokens.{from_one};
ghost use Rattle.rules.specs.Words.{word_at, place_at, kind_bits, class_bits, create_bit, upper_bits, packed_of, kind_of, key_of, tokens_at, token_at};

use rules::{OneIndexed, Place, PlaceholderKind, Token, TokenKind, ZeroIndexed};

// A word as an offset or a length.
pub fn to_usize(w: u32) -> usize
    ensures { (result ≡ w) × (result < 4294967296) }
{
    w as usize
}

#[tactic(auto, unfolding(rules::specs::Words::word_at))]
pub fn word_at(s: &[u8], at: usize) -> u32
    requires { at + 4 ≤ length s.now }
    ensures { result ≡ word_at s.now at }
{
    u32::from_le_bytes([s[at], s[at + 1], s[at + 2], s[at + 3]])
}

#[tactic(auto, unfolding(rules::specs::Words::place_at))]
pub fn place_at(s: &[u8], at: usize) -> Place
    requires { at + 8 ≤ length s.now }
    ensures { result ≡ place_at s.now at }
{
    let start = word_at(s, at);
    let len = word_at(s, at + 4);
    Place { start, len }
}

// ---- the packed word

pub fn kind_bits(w: u32) -> u32
    ensures { result ≡ kind_bits w }
{
    w & 31
}

pub fn class_bits(w: u32) -> u32
    ensures { result ≡ class_bits w }
{
    (w >> 5) & 3
}

pub fn create_bit(w: u32) -> u32
    ensures { result ≡ create_bit w }
{
    (w >> 7) & 1
}

pub fn upper_bits(w: u32) -> u32
    ensures { result ≡ upper_bits w }
{
    w >> 8
}

pub fn packed(kind: u32, class: u32, create: bool) -> u32
    requires { (kind < 32) × (class < 4) }
    ensures { result ≡ packed_of kind class create }
{
    let low = kind | (class << 5);
    if create { low | (1 << 7) } else { low }
}

// ---- kinds and keys

// A match and no TryFrom: every number has a kind, Join from 16 on.
#[tactic(auto, unfolding(rules::specs::Words::kind_of, rules::specs::Words::kinds))]
pub fn kind_of(n: u32) -> TokenKind
    ensures { result ≡ kind_of n }
{
    match n {
        0 => TokenKind::TypeSpecifier,
        1 => TokenKind::Whitespace,
        2 => TokenKind::String,
        3 => TokenKind::Reserved,
        4 => TokenKind::ReservedTopLevel,
        5 => TokenKind::ReservedTopLevelNoIndent,
        6 => TokenKind::ReservedNewline,
        7 => TokenKind::ReservedNewlineAfter,
        8 => TokenKind::Operator,
        9 => TokenKind::OpenParen,
        10 => TokenKind::CloseParen,
        11 => TokenKind::LineComment,
        12 => TokenKind::BlockComment,
        13 => TokenKind::Number,
        14 => TokenKind::Placeholder,
        15 => TokenKind::Word,
        _ => TokenKind::Join,
    }
}

#[tactic(auto, unfolding(rules::specs::Words::key_of))]
pub fn key_of(class: u32, a: u32, b: u32) -> Option<PlaceholderKind>
    ensures { result ≡ key_of class a b }
{
    match class {
        0 => None,
        1 => Some(PlaceholderKind::Named(Place { start: a, len: b })),
        2 => Some(PlaceholderKind::Zero(ZeroIndexed(a))),
        _ => Some(PlaceholderKind::One(OneIndexed(a))),
    }
}

// The one conversion.
pub fn zero_indexed(n: OneIndexed) -> Option<ZeroIndexed>
    ensures { result ≡ from_one n }
{
    Some(ZeroIndexed(n.0.checked_sub(1)?))
}

// ---- token records

#[tactic(auto, unfolding(rules::specs::Words::token_from))]
pub fn token_at(s: &[u8], i: usize) -> Token
    requires { tokens_at + 20 * i + 20 ≤ length s.now }
    ensures { result ≡ token_at s.now i }
{
    let at = 48 + 20 * i;
    let w = word_at(s, at);
    let value = place_at(s, at + 4);
    let a = word_at(s, at + 12);
    let b = word_at(s, at + 16);
    let kind = kind_of(kind_bits(w));
    let key = key_of(class_bits(w), a, b);
    Token {
        kind,
        value,
        key,
        create: create_bit(w) == 1,
    }
}

// The parts of a token record alone, for what passes over many of them.

#[tactic(auto, unfolding(rules::specs::Words::token_from))]
pub fn kind_at(s: &[u8], i: usize) -> TokenKind
    requires { tokens_at + 20 * i + 20 ≤ length s.now }
    ensures { result ≡ (token_at s.now i).kind }
{
    let w = word_at(s, 48 + 20 * i);
    kind_of(kind_bits(w))
}

#[tactic(auto, unfolding(rules::specs::Words::token_from))]
pub fn value_at(s: &[u8], i: usize) -> Place
    requires { tokens_at + 20 * i + 20 ≤ length s.now }
    ensures { result ≡ (token_at s.now i).value }
{
    place_at(s, 48 + 20 * i + 4)
}

#[tactic(auto, unfolding(rules::specs::Words::token_from))]
pub fn create_at(s: &[u8], i: usize) -> bool
    requires { tokens_at + 20 * i + 20 ≤ length s.now }
    ensures { result ≡ (token_at s.now i).create }
{
    let w = word_at(s, 48 + 20 * i);
    create_bit(w) == 1
}
