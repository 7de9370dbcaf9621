// Wish 13: how far a text goes on with the bytes of a place, white bytes left out on both sides. Nothing is read twice.
#![tactic(auto)]

ghost use Rattle.std.specs.Prelude.{◌≡◌, [], ◌+◌, ◌≤◌, bit_or, leb, fold, position, length, drop};
ghost use Rattle.rules.specs.Base.{any_of, find, same};
ghost use Rattle.rules.specs.Text.{in_case};
ghost use Rattle.rules.specs.Due.{strip};
ghost use Rattle.ascii.specs.Part.{part};
ghost use Rattle.matching.specs.Read.{read_to, Skipped, Byte};

use ascii::{in_case, is_white};
use rules::Case;

// ---- refusal 15

// All bytes together, with no branch for each, so that many are looked at at once.
fn taken(s: &[u8]) -> u8
    ensures { result ≡ fold bit_or 0 s.now }
{
    s.iter().fold(0, |all, b| all | *b)
}

fn high_from(s: &[u8]) -> Option<usize>
    ensures { result ≡ position (leb 128) s.now }
{
    s.iter().position(|b| *b >= 128)
}

// The first byte of 128 or more. Blocks of 64 without one are passed whole.
#[tactic(auto, using(crate::proofs::HighLaws::highs))]
pub fn first_high(s: &[u8]) -> Option<usize>
    ensures { result ≡ find (leb 128) 0 s.now }
{
    let mut rest = s;
    while let Some((block, after)) = rest.split_first_chunk::<64>() {
        if taken(block) >= 128 {
            break;
        }
        rest = after;
    }
    let at = high_from(rest)?;
    Some(s.len() - rest.len() + at)
}

// ---- the text

#[tactic(auto, using(crate::proofs::ReadLaws::skips))]
fn skip_white(text: &[u8], from: usize) -> usize
    requires { from ≤ length text.now }
    ensures { Skipped text.now from result }
{
    for at in from..text.len() {
        if !is_white(text[at]) {
            return at;
        }
    }
    text.len()
}

// Nothing is left but white bytes.
#[tactic(auto, using(crate::proofs::ReadLaws::none_left))]
pub fn only_white(text: &[u8], from: usize) -> bool
    requires { from ≤ length text.now }
    ensures { result ≡ same [] (strip (drop from text.now)) }
{
    skip_white(text, from) == text.len()
}

// One byte: a white one is always there.
#[tactic(auto, using(crate::proofs::ReadLaws::bytes_read))]
fn reach_byte(b: u8, text: &[u8], from: usize) -> Option<usize>
    requires { from ≤ length text.now }
    ensures { Byte b text.now from result }
{
    if is_white(b) {
        return Some(from);
    }
    let at = skip_white(text, from);
    if at < text.len() && text[at] == b {
        return Some(at + 1);
    }
    None
}

// Where the text has gone on with n bytes of the sheet from start on, in a case; none if it does not.
#[tactic(auto, using(crate::proofs::ReadLaws::readings))]
pub fn reach(
    sheet: &[u8],
    start: usize,
    n: usize,
    casing: Case,
    text: &[u8],
    from: usize,
) -> Option<usize>
    requires { (start + n ≤ length sheet.now) × (from ≤ length text.now) }
    ensures { result ≡ read_to (strip (in_case casing (part sheet.now start n))) from (drop from text.now) }
{
    let mut at = from;
    for b in &sheet[start..start + n] {
        at = reach_byte(in_case(casing, *b), text, at)?;
    }
    Some(at)
}
