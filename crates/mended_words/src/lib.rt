// Wish 10: what each word and each body byte of a damaged sheet becomes.
#![tactic(auto)]

ghost use Rattle.std.specs.Prelude.{if◌then◌else◌, ◌≡◌, ◌+◌, ◌%◌, ◌≤◌, ◌<◌, length};
ghost use Rattle.rules.specs.Words.{body_at};
ghost use Rattle.rules.specs.Checks.{in_body};
ghost use Rattle.checks.specs.Sound.{Sized};
ghost use Rattle.mended.specs.Mended.{mended_mode, or_default, mended_head, mended_packed, place_word, key_word, mended_token, mended_param, mended_word, mended_byte};

use rules::{Counts, Place, TokenKind};
use tokens::{class_bits, place_at, word_at};

// ---- the head

#[tactic(auto, unfolding(mended::specs::Mended::mended_mode))]
fn mended_mode(sheet: &[u8]) -> u32
    requires { 48 ≤ length sheet.now }
    ensures { result ≡ mended_mode sheet.now }
{
    let mode = word_at(sheet, 16);
    let params = word_at(sheet, 4);
    if offences::mode_fits(mode, params) {
        mode
    } else if params == 0 {
        0
    } else {
        1
    }
}

fn or_default(w: u32, most: u32, default: u32) -> u32
    ensures { result ≡ or_default most default w }
{
    if w <= most { w } else { default }
}

#[tactic(auto, unfolding(mended::specs::Mended::mended_head))]
fn mended_head(sheet: &[u8], at: usize) -> u32
    requires { (48 ≤ length sheet.now) × (at + 4 ≤ length sheet.now) }
    ensures { result ≡ mended_head sheet.now at }
{
    let w = word_at(sheet, at);
    match at {
        16 => mended_mode(sheet),
        20 => or_default(w, 256, 2),
        24 | 28 => or_default(w, 2, 0),
        32 => or_default(w, 255, 1),
        _ => w,
    }
}

// ---- the records: the word k bytes into what stands at a byte offset

#[tactic(auto, unfolding(mended::specs::Mended::mended_packed))]
fn mended_packed(w: u32) -> u32
    ensures { result ≡ mended_packed w }
{
    if offences::packed_fits(w) {
        w
    } else {
        tokens::packed(TokenKind::Word as u32, 0, false)
    }
}

// Outside the bodies both words become 0.
fn mended_place(p: Place, bytes: usize) -> Place
    ensures { result ≡ (if in_body p bytes then p else record { start = 0; len = 0 }) }
{
    if offences::in_body(p, bytes) {
        p
    } else {
        Place { start: 0, len: 0 }
    }
}

#[tactic(auto, unfolding(mended::specs::Mended::place_word, rules::specs::Words::place_at))]
fn place_word(sheet: &[u8], bytes: usize, at: usize, k: usize) -> u32
    requires { (at + 8 ≤ length sheet.now) × (k % 4 ≡ 0) × (k < 8) }
    ensures { result ≡ place_word sheet.now bytes at k }
{
    let p = mended_place(place_at(sheet, at), bytes);
    if k == 0 { p.start } else { p.len }
}

// Class 0 has no key, 1 a place, 2 and 3 the first word alone.
#[tactic(auto, unfolding(mended::specs::Mended::key_word))]
fn key_word(sheet: &[u8], class: u32, bytes: usize, at: usize, k: usize) -> u32
    requires { (at + 8 ≤ length sheet.now) × (k % 4 ≡ 0) × (k < 8) }
    ensures { result ≡ key_word class sheet.now bytes at k }
{
    match (class, k) {
        (1, _) => place_word(sheet, bytes, at, k),
        (0, _) => 0,
        (_, 0) => word_at(sheet, at),
        _ => 0,
    }
}

// The key is judged by the new class.
#[tactic(auto, unfolding(mended::specs::Mended::mended_token))]
fn mended_token(sheet: &[u8], bytes: usize, at: usize, k: usize) -> u32
    requires { (at + 20 ≤ length sheet.now) × (k % 4 ≡ 0) × (k < 20) }
    ensures { result ≡ mended_token sheet.now bytes at k }
{
    let packed = mended_packed(word_at(sheet, at));
    if k == 0 {
        packed
    } else if k < 12 {
        place_word(sheet, bytes, at + 4, k - 4)
    } else {
        key_word(sheet, class_bits(packed), bytes, at + 12, k - 12)
    }
}

// Names stand in mode 2 alone.
#[tactic(auto, unfolding(mended::specs::Mended::mended_param))]
fn mended_param(sheet: &[u8], mode: u32, bytes: usize, at: usize, k: usize) -> u32
    requires { (at + 16 ≤ length sheet.now) × (k % 4 ≡ 0) × (k < 16) }
    ensures { result ≡ mended_param mode sheet.now bytes at k }
{
    if k >= 8 {
        place_word(sheet, bytes, at + 8, k - 8)
    } else if mode == 2 {
        place_word(sheet, bytes, at, k)
    } else {
        0
    }
}

// ---- the sheet

// The word at a byte offset. A name is judged by the new mode.
#[tactic(auto, unfolding(mended::specs::Mended::mended_word))]
pub fn mended_word(sheet: &[u8], c: Counts, at: usize) -> u32
    requires { (Sized sheet.now c) × (at % 4 ≡ 0) × (at < body_at c) }
    ensures { result ≡ mended_word sheet.now c at }
{
    let params = 48 + 20 * c.tokens;
    let keeps = params + 16 * c.params;
    if at < 48 {
        mended_head(sheet, at)
    } else if at < params {
        let k = (at - 48) % 20;
        mended_token(sheet, c.bytes, at - k, k)
    } else if at < keeps {
        let k = (at - params) % 16;
        mended_param(sheet, mended_mode(sheet), c.bytes, at - k, k)
    } else {
        let k = (at - keeps) % 8;
        place_word(sheet, c.bytes, at - k, k)
    }
}

// A byte that is not ASCII becomes `?`.
#[tactic(auto, unfolding(mended::specs::Mended::mended_byte))]
pub fn mended_byte(b: u8) -> u8
    ensures { result ≡ mended_byte b }
{
    if b < 128 { b } else { b'?' }
}
