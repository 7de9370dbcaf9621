// What stands around a token, read from the sheet: its value, and the tokens before it and after it.
#![tactic(auto)]

ghost use Rattle.std.specs.Prelude.{◌≡◌, [], ◌∷◌, ◌<◌, eqb, length};
ghost use Rattle.rules.specs.declared.TokenKind.TheVariants.{Reserved, ReservedTopLevel, ReservedNewline, ReservedNewlineAfter};
ghost use Rattle.rules.specs.Base.{same, any_of, holds};
ghost use Rattle.rules.specs.Sheet.{token_of, here_at};
ghost use Rattle.rules.specs.Formatter.{kind_is, kind_in, previous_token, previous_non_whitespace_token, next_non_whitespace_token, white_then_no_operator, after_line_feed, two_after_comma, after_line_comment, cuts_before, blank_between};
ghost use Rattle.tokens.specs.Placed.{Within};
ghost use Rattle.around.specs.Readable.{Readable};
ghost use Rattle.around.specs.Seen.{seen_of};

use ascii::find;
use rules::TokenKind;
use tokens::{kind_at, to_usize, value_at, word_at};

// ---- a token's value

// It reads no more of the record than the length.
#[tactic(auto, using(crate::proofs::Values::length_read))]
pub fn value_len(sheet: &[u8], base: usize, i: usize) -> u32
    requires { Within sheet.now base i }
    ensures { result ≡ length (token_of sheet.now base i).value }
{
    word_at(sheet, 48 + 20 * i + 8)
}

// The value is the one byte b.
#[tactic(auto, using(crate::proofs::Values::one))]
pub fn is_byte(sheet: &[u8], base: usize, i: usize, b: u8) -> bool
    requires { Within sheet.now base i }
    ensures { result ≡ same (token_of sheet.now base i).value (b ∷ []) }
{
    let v = value_at(sheet, i);
    if v.len != 1 {
        return false;
    }
    let at = base + to_usize(v.start);
    sheet[at] == b
}

#[tactic(auto, using(crate::proofs::Values::value_inside, crate::proofs::Values::feed_found))]
fn has_line_feed(sheet: &[u8], base: usize, i: usize) -> bool
    requires { Within sheet.now base i }
    ensures { result ≡ any_of (eqb 10) (token_of sheet.now base i).value }
{
    let v = value_at(sheet, i);
    let start = base + to_usize(v.start);
    let n = to_usize(v.len);
    find(sheet, start, n, b'\n') < n
}

// ---- the neighbours of token i of n

#[tactic(auto, using(crate::proofs::Neighbours::no_previous, crate::proofs::Neighbours::previous))]
pub fn previous_token(sheet: &[u8], base: usize, n: usize, i: usize) -> Option<TokenKind>
    requires readable { Readable sheet.now base n }
    requires i_lt_n { i < n }
    ensures { result ≡ seen_of (previous_token (here_at sheet.now base n i)) }
{
    if i == 0 {
        return None;
    }
    Some(kind_at(sheet, i - 1))
}

#[tactic(auto, using(crate::proofs::Neighbours::backward))]
pub fn previous_non_whitespace_token(
    sheet: &[u8],
    base: usize,
    n: usize,
    i: usize,
) -> Option<TokenKind>
    requires readable { Readable sheet.now base n }
    requires i_lt_n { i < n }
    ensures { result ≡ seen_of (previous_non_whitespace_token (here_at sheet.now base n i)) }
{
    for j in (0..i).rev() {
        let last = kind_at(sheet, j);
        if last != TokenKind::Whitespace {
            return Some(last);
        }
    }
    None
}

#[tactic(auto, using(crate::proofs::Neighbours::onward))]
pub fn next_non_whitespace_token(sheet: &[u8], base: usize, n: usize, i: usize) -> Option<TokenKind>
    requires readable { Readable sheet.now base n }
    requires i_lt_n { i < n }
    ensures { result ≡ seen_of (next_non_whitespace_token (here_at sheet.now base n i)) }
{
    for j in i + 1..n {
        let kind = kind_at(sheet, j);
        if kind != TokenKind::Whitespace {
            return Some(kind);
        }
    }
    None
}

// ---- what the rules ask of them

#[tactic(auto, using(crate::proofs::Asked::seen_is), unfolding(rules::specs::Formatter::after_line_comment))]
pub fn after_line_comment(sheet: &[u8], base: usize, n: usize, i: usize) -> bool
    requires readable { Readable sheet.now base n }
    requires i_lt_n { i < n }
    ensures { result ≡ after_line_comment (here_at sheet.now base n i) }
{
    let seen = previous_non_whitespace_token(sheet, base, n, i);
    matches!(seen, Some(TokenKind::LineComment))
}

#[tactic(auto, using(crate::proofs::Asked::seen_is))]
pub fn after_top_level_word(sheet: &[u8], base: usize, n: usize, i: usize) -> bool
    requires readable { Readable sheet.now base n }
    requires i_lt_n { i < n }
    ensures { result ≡ holds (kind_is ReservedTopLevel) (previous_non_whitespace_token (here_at sheet.now base n i)) }
{
    let seen = previous_non_whitespace_token(sheet, base, n, i);
    matches!(seen, Some(TokenKind::ReservedTopLevel))
}

// A type specifier has a blank after it before such a word.
#[tactic(auto, using(crate::proofs::Asked::seen_in))]
pub fn before_reserved_word(sheet: &[u8], base: usize, n: usize, i: usize) -> bool
    requires readable { Readable sheet.now base n }
    requires i_lt_n { i < n }
    ensures { result ≡ holds (kind_in (Reserved ∷ ReservedNewline ∷ ReservedNewlineAfter ∷ [])) (next_non_whitespace_token (here_at sheet.now base n i)) }
{
    let seen = next_non_whitespace_token(sheet, base, n, i);
    matches!(
        seen,
        Some(TokenKind::Reserved | TokenKind::ReservedNewline | TokenKind::ReservedNewlineAfter)
    )
}

#[tactic(auto, using(crate::proofs::Asked::seen_in), unfolding(rules::specs::Formatter::cuts_before))]
pub fn cuts_before(sheet: &[u8], base: usize, n: usize, i: usize) -> bool
    requires readable { Readable sheet.now base n }
    requires i_lt_n { i < n }
    ensures { result ≡ cuts_before (here_at sheet.now base n i) }
{
    let seen = previous_token(sheet, base, n, i);
    if !matches!(
        seen,
        Some(TokenKind::Whitespace | TokenKind::OpenParen | TokenKind::LineComment)
    ) {
        return true;
    }
    if !is_byte(sheet, base, i, b'[') {
        return false;
    }
    let last = previous_non_whitespace_token(sheet, base, n, i);
    matches!(
        last,
        Some(TokenKind::CloseParen | TokenKind::Word | TokenKind::Reserved)
    )
}

#[tactic(auto, using(crate::proofs::Asked::seen_in), unfolding(rules::specs::Formatter::blank_between))]
pub fn blank_between(sheet: &[u8], base: usize, n: usize, i: usize) -> bool
    requires readable { Readable sheet.now base n }
    requires i_lt_n { i < n }
    ensures { result ≡ blank_between (here_at sheet.now base n i) }
{
    if is_byte(sheet, base, i, b'[') {
        return false;
    }
    let seen = previous_non_whitespace_token(sheet, base, n, i);
    matches!(seen, Some(TokenKind::CloseParen | TokenKind::Reserved))
}

#[tactic(auto, using(crate::proofs::Neighbours::no_feed_before, crate::proofs::Neighbours::feed_before))]
pub fn after_line_feed(sheet: &[u8], base: usize, n: usize, i: usize) -> bool
    requires readable { Readable sheet.now base n }
    requires i_lt_n { i < n }
    ensures { result ≡ after_line_feed (here_at sheet.now base n i) }
{
    if i == 0 {
        return false;
    }
    has_line_feed(sheet, base, i - 1)
}

#[tactic(auto, using(crate::proofs::Neighbours::few_after, crate::proofs::Neighbours::white_after))]
pub fn white_then_no_operator(sheet: &[u8], base: usize, n: usize, i: usize) -> bool
    requires readable { Readable sheet.now base n }
    requires i_lt_n { i < n }
    ensures { result ≡ white_then_no_operator (here_at sheet.now base n i) }
{
    if n - i <= 2 {
        return false;
    }
    kind_at(sheet, i + 1) == TokenKind::Whitespace && kind_at(sheet, i + 2) != TokenKind::Operator
}

#[tactic(auto, using(crate::proofs::Neighbours::no_two, crate::proofs::Neighbours::comma_before))]
pub fn two_after_comma(sheet: &[u8], base: usize, n: usize, i: usize) -> bool
    requires readable { Readable sheet.now base n }
    requires i_lt_n { i < n }
    ensures { result ≡ two_after_comma (here_at sheet.now base n i) }
{
    if i < 2 {
        return false;
    }
    is_byte(sheet, base, i - 2, b',')
}
