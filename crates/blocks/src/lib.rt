// inline_block.rs: the length of a block, and whether it is laid out on one line.
#![tactic(auto)]

ghost use Rattle.std.specs.Prelude.{◌≡◌, ◌∷◌, ◌<◌};
ghost use Rattle.rules.specs.Words.{token_at};
ghost use Rattle.rules.specs.Sheet.{token_of, here_at};
ghost use Rattle.rules.specs.InlineBlock.{part_of, is_top, is_newline, is_comment, level_after, start_after, span_after, is_forbidden_token, build_info, is_inline_block};
ghost use Rattle.tokens.specs.Placed.{Within};
ghost use Rattle.around.specs.Readable.{Readable};

use around::{is_byte, value_len};
use rules::{BlockInfo, FormatOptions, Part, Start, TokenKind};
use tokens::kind_at;

pub fn part_of(kind: TokenKind) -> Part
    ensures { result ≡ part_of kind }
{
    match kind {
        TokenKind::ReservedTopLevel | TokenKind::ReservedTopLevelNoIndent => Part::Top,
        TokenKind::ReservedNewline => Part::Newline,
        TokenKind::OpenParen => Part::Open,
        TokenKind::CloseParen => Part::Close,
        TokenKind::LineComment | TokenKind::BlockComment => Part::Comment,
        _ => Part::Rest,
    }
}

pub fn is_top(part: Part) -> bool
    ensures { result ≡ is_top part }
{
    matches!(part, Part::Top)
}

pub fn is_newline(part: Part) -> bool
    ensures { result ≡ is_newline part }
{
    matches!(part, Part::Newline)
}

fn is_comment(part: Part) -> bool
    ensures { result ≡ is_comment part }
{
    matches!(part, Part::Comment)
}

pub fn level_after(part: Part, level: u32) -> u32
    requires { level < 65536 }
    ensures { result ≡ level_after part level }
{
    match part {
        Part::Open => level + 1,
        Part::Close => level.saturating_sub(1),
        Part::Top | Part::Newline | Part::Comment | Part::Rest => level,
    }
}

// ---- top-level words

// A second top-level word at the level of the first ends a span; the first starts one.
fn start_after(start: Option<Start>, level: u32, len: u32) -> Option<Start>
    ensures { result ≡ start_after start level len }
{
    match start {
        None => Some(Start { level, span: len }),
        Some(word) if word.level == level => None,
        Some(word) => Some(word),
    }
}

fn span_after(start: Option<Start>, level: u32, len: u32, best: u32) -> u32
    ensures { result ≡ span_after start level len best }
{
    match start {
        Some(word) if word.level == level => best.max(len.saturating_sub(word.span)),
        _ => best,
    }
}

// ---- the block

pub fn is_forbidden_token(sheet: &[u8], base: usize, i: usize, part: Part) -> bool
    requires within { Within sheet.now base i }
    requires part_value { part ≡ part_of (token_at sheet.now i).kind }
    ensures { result ≡ is_forbidden_token (token_of sheet.now base i) }
{
    is_comment(part) || is_byte(sheet, base, i, b';')
}

// The tokens from the opening bracket i of n on. The close that ends the block is measured, and a `;` there does not count.
// A number for each fact: a block that changes in place stays in memory. Most tokens change the length alone. They are told
// first, by one test: else the compiled code jumps by each token's kind, and such jumps are ill foretold. So the part is asked
// for twice, and the others are tested for `;` before their match: else the compiler makes one jump of the test and the match.
#[tactic(auto, using(crate::proofs::Laws::measuring_starts, crate::proofs::Laws::measuring_ends))]
pub fn build_info(sheet: &[u8], base: usize, n: usize, i: usize) -> BlockInfo
    requires readable { Readable sheet.now base n }
    requires i_lt_n { i < n }
    ensures { result ≡ build_info ((here_at sheet.now base n i).token ∷ (here_at sheet.now base n i).after) }
{
    let mut length = 0;
    let mut level = 0;
    let mut start: Option<Start> = None;
    let mut span = 0;
    let mut forbidden = false;
    let mut reserved = false;
    for j in i..n {
        let kind = kind_at(sheet, j);
        length += value_len(sheet, base, j);
        if matches!(part_of(kind), Part::Rest) {
            forbidden |= is_byte(sheet, base, j, b';');
        } else {
            let separates = is_byte(sheet, base, j, b';');
            match part_of(kind) {
                Part::Top => {
                    span = span_after(start, level, length, span);
                    start = start_after(start, level, length);
                }
                Part::Newline => reserved = true,
                Part::Open => level += 1,
                Part::Close => {
                    level = level.saturating_sub(1);
                    if level == 0 {
                        return BlockInfo {
                            length,
                            level,
                            start,
                            top_level_token_span: span,
                            has_forbidden_tokens: forbidden,
                            has_reserved_tokens: reserved,
                        };
                    }
                }
                Part::Comment => forbidden = true,
                Part::Rest => {}
            }
            forbidden |= separates;
        }
    }
    BlockInfo {
        length,
        level,
        start,
        top_level_token_span: span,
        has_forbidden_tokens: forbidden,
        has_reserved_tokens: reserved,
    }
}

#[tactic(auto, unfolding(rules::specs::InlineBlock::is_inline_block))]
pub fn is_inline_block(options: FormatOptions, info: BlockInfo) -> bool
    ensures { result ≡ is_inline_block options info }
{
    !info.has_forbidden_tokens
        && info.length <= options.max_inline_block
        && info.top_level_token_span <= options.max_inline_top_level.unwrap_or(0)
        && (!info.has_reserved_tokens || info.length <= options.max_inline_arguments.unwrap_or(0))
}
