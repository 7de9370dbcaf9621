// Wish 6: the sheet written anew, with only those body bytes that some place covers.
#![tactic(auto)]

ghost use Rattle.std.specs.Prelude.{if◌then◌else◌, ◌≡◌, ◌&&◌, ◌||◌, ℕ, ◌+◌, ◌*◌, ◌≤◌, ◌<◌, eqb, length, take, drop, replicate, Ok};
ghost use Rattle.rules.specs.Words.{place_at, body_at};
ghost use Rattle.rules.specs.Compacted.{word_count, starts_in_token, starts_place, covers, is_covered, kept_bytes, kept_before, new_bytes, moved_words, compact_as, outcome_of, buffer_with};
ghost use Rattle.records.specs.Sheeted.{Sheeted, Few};
ghost use Rattle.marks.specs.Marks.{bit_of, marked, count_of, Long, Counted};
ghost use Rattle.text.specs.Put.{put};
ghost use Rattle.compact.specs.Marked.{Marked};

use rules::{Counts, Outcome, Place};
use tokens::{place_at, to_usize, word_at};
use word_bytes::put_word;

// ---- the places of a sheet

// How many words stand before the bodies.
fn word_count(c: Counts) -> usize
    requires { Few c }
    ensures { result ≡ word_count c }
{
    12 + 5 * c.tokens + 4 * c.params + 2 * c.keeps
}

// In a token record, k bytes from its start.
fn starts_in_token(sheet: &[u8], at: usize, k: usize) -> bool
    requires { (12 ≤ at) × (at ≤ length sheet.now) }
    ensures { result ≡ starts_in_token sheet.now at k }
{
    k == 4 || (k == 12 && tokens::class_bits(word_at(sheet, at - 12)) == 1)
}

// The word at a byte offset starts a place.
#[tactic(auto, unfolding(rules::specs::Compacted::starts_place))]
fn starts_place(sheet: &[u8], c: Counts, at: usize) -> bool
    requires { (Few c) × (at ≤ length sheet.now) }
    ensures { result ≡ starts_place sheet.now c at }
{
    if at < 48 {
        return false;
    }
    let params = 48 + 20 * c.tokens;
    if at < params {
        return starts_in_token(sheet, at, (at - 48) % 20);
    }
    (at - params) % 8 == 0
}

// ---- the bytes that are kept

// Word k, if it starts a place.
fn mark_place(bits: &mut [u32], far: &mut [u32], sheet: &[u8], c: Counts, k: usize)
    requires sheeted { (Sheeted sheet.now c) × (k < word_count c) }
    requires long { Long bits.old far.old }
    ensures long_2 { Long bits.new far.new }
    ensures by_index { (j : ℕ) → j < 32768 → marked bits.new far.new j ≡ (marked bits.old far.old j || (starts_place sheet.now c (4 * k) && covers (place_at sheet.now (4 * k)) j)) }
{
    let at = 4 * k;
    if starts_place(sheet, c, at) {
        let p = place_at(sheet, at);
        marks::mark(bits, far, to_usize(p.start), to_usize(p.len));
    }
}

// Every body byte that some place covers.
fn mark_places(bits: &mut [u32], far: &mut [u32], sheet: &[u8], c: Counts)
    requires sheeted { Sheeted sheet.now c }
    requires bits_value { (bits.old ≡ replicate 1024 0) × (far.old ≡ replicate 1024 0) }
    ensures long { Long bits.new far.new }
    ensures by_index { (j : ℕ) → j < 32768 → marked bits.new far.new j ≡ is_covered sheet.now c j }
{
    for k in 0..word_count(c) {
        mark_place(bits, far, sheet, c, k);
    }
}

// ---- one word of the new sheet

#[tactic(auto, unfolding(text::specs::Put::put))]
fn copy_word(out: &mut [u8], at: usize, sheet: &[u8])
    requires { (at + 4 ≤ length out.old) × (at + 4 ≤ length sheet.now) }
    ensures { out.new ≡ put out.old at (take 4 (drop at sheet.now)) }
{
    out[at..at + 4].copy_from_slice(&sheet[at..at + 4]);
}

// Where a place starts among the kept bytes.
fn new_start(bits: &[u32], before: &[u32], p: Place) -> u32
    requires { (Counted bits.now before.now) × (p.start + p.len ≤ 32768) }
    ensures { result ≡ (if eqb p.len 0 then 0 else count_of (bit_of bits.now) p.start) }
{
    if p.len == 0 {
        return 0;
    }
    marks::marks_before(bits, before, to_usize(p.start)) as u32
}

// Word 3 counts the body bytes, a start moves, all others stay.
fn move_word(
    out: &mut [u8],
    sheet: &[u8],
    c: Counts,
    bits: &[u32],
    before: &[u32],
    kept: u32,
    k: usize,
)
    requires sheeted { (Sheeted sheet.now c) × (Marked sheet.now c bits.now) }
    requires counted { Counted bits.now before.now }
    requires kept_value { (kept ≡ kept_before sheet.now c c.bytes) × (k < word_count c) × (body_at c ≤ length out.old) }
    ensures { out.new ≡ put out.old (4 * k) (new_bytes sheet.now c (4 * k)) }
{
    let at = 4 * k;
    if at == 12 {
        put_word(out, at, kept);
        return;
    }
    if starts_place(sheet, c, at) {
        let p = place_at(sheet, at);
        put_word(out, at, new_start(bits, before, p));
        return;
    }
    copy_word(out, at, sheet);
}

// ---- the new sheet

fn move_words(out: &mut [u8], sheet: &[u8], c: Counts, bits: &[u32], before: &[u32], kept: u32)
    requires sheeted { (Sheeted sheet.now c) × (Marked sheet.now c bits.now) }
    requires counted { Counted bits.now before.now }
    requires kept_value { (kept ≡ kept_before sheet.now c c.bytes) × (body_at c ≤ length out.old) }
    ensures { out.new ≡ put out.old 0 (moved_words sheet.now c (word_count c)) }
{
    for k in 0..word_count(c) {
        move_word(out, sheet, c, bits, before, kept, k);
    }
}

fn copy_kept(out: &mut [u8], base: usize, sheet: &[u8], c: Counts, bits: &[u32])
    requires sheeted { (Sheeted sheet.now c) × (Marked sheet.now c bits.now) }
    requires base_value { (base ≡ body_at c) × (base + kept_before sheet.now c c.bytes ≤ length out.old) }
    ensures { out.new ≡ put out.old base (kept_bytes sheet.now c c.bytes) }
{
    let mut at = base;
    for j in 0..c.bytes {
        if marks::is_marked(bits, j) {
            out[at] = sheet[base + j];
            at += 1;
        }
    }
}

// The new sheet and zero after it, or 11 and zero alone.
fn write(
    sheet: &[u8],
    out: &mut [u8],
    c: Counts,
    bits: &[u32],
    before: &[u32],
    kept: usize,
) -> Outcome
    requires sheeted { (Sheeted sheet.now c) × (Marked sheet.now c bits.now) }
    requires counted { Counted bits.now before.now }
    requires kept_value { kept ≡ kept_before sheet.now c c.bytes }
    ensures value { result ≡ outcome_of (compact_as sheet.now (length out.old) (Ok c)) }
    ensures out_after { out.new ≡ buffer_with (length out.old) (compact_as sheet.now (length out.old) (Ok c)) }
{
    let room = out.len();
    out.fill(0);
    let base = records::body_at(c);
    if room < base + kept {
        return Outcome {
            refusal: 11,
            place: 0,
            length: 0,
        };
    }
    move_words(out, sheet, c, bits, before, kept as u32);
    copy_kept(out, base, sheet, c, bits);
    Outcome {
        refusal: 0,
        place: 0,
        length: (base + kept) as u64,
    }
}

// Of a sheet that checks 1 to 4 found sound: the outcome in numbers, and the buffer to its last byte.
pub fn compact(sheet: &[u8], out: &mut [u8], c: Counts) -> Outcome
    requires { Sheeted sheet.now c }
    ensures value { result ≡ outcome_of (compact_as sheet.now (length out.old) (Ok c)) }
    ensures out_after { out.new ≡ buffer_with (length out.old) (compact_as sheet.now (length out.old) (Ok c)) }
{
    let mut bits = [0; 1024];
    let mut far = [0; 1024];
    let mut before = [0; 1024];
    mark_places(&mut bits, &mut far, sheet, c);
    let kept = marks::settle(&mut bits, &far, &mut before);
    write(sheet, out, c, &bits, &before, kept)
}
