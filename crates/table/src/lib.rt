// The table of the second engine: two words of a row written, and the facts of a token read in the form that the handlers take them.
#![tactic(auto)]

ghost use Rattle.std.specs.Prelude.{◌≡◌, [], ◌∷◌, ◌+◌, ◌*◌, ◌≤◌, ◌<◌, length};
ghost use Rattle.rules.specs.declared.TokenKind.TheVariants as kind;
ghost use Rattle.rules.specs.declared.Sort.TheVariants as sort;
ghost use Rattle.rules.specs.Sheet.{token_of, here_at};
ghost use Rattle.rules.specs.Span.{sort_in, top_level_tokens_info};
ghost use Rattle.rules.specs.InlineBlock.{build_info};
ghost use Rattle.around.specs.Readable.{Readable};
ghost use Rattle.table.specs.Table.{column, with_words, Filled};
ghost use Rattle.table.specs.Facts.{SameFacts};

use ahead::span_of;
use rules::{BlockInfo, FormatOptions, Scan, SpanInfo};

// Words k and k + 1 of row i. By copy_from_slice the fill takes 1.5 to 2 times as long: words that were put together in memory are read again at once.
#[tactic(auto, using(crate::proofs::Words::two_put))]
pub fn put_two(table: &mut [u32], i: usize, k: usize, v: u32, w: u32)
    requires { 6 * i + k + 2 ≤ length table.old }
    ensures { table.new ≡ with_words table.old i k (v ∷ w ∷ []) }
{
    let at = 6 * i + k;
    table[at] = v;
    table[at + 1] = w;
}

// ---- the facts

// Of the open level it matters only whether it is 0.
fn column_of(level: u32) -> usize
    ensures { (result ≡ column level) × (result ≤ 2) }
{
    if level == 0 { 2 } else { 0 }
}

// Token i of n is a top-level word. Nothing is read of the sheet. The level of the Scan is never asked.
pub fn top_level_tokens_info(
    table: &[u32],
    sheet: &[u8],
    base: usize,
    n: usize,
    i: usize,
    level: u32,
    options: FormatOptions,
    block_len: u32,
) -> SpanInfo
    requires readable { Readable sheet.now base n }
    requires filled { Filled sheet.now base n table.now }
    requires i_lt_n { (i < n) × (sort_in (token_of sheet.now base i) ≡ sort.Head) }
    ensures { result ≡ top_level_tokens_info options level block_len (here_at sheet.now base n i).after }
{
    let at = 6 * i + column_of(level);
    let counts = table[at + 1];
    let a = Scan {
        level,
        full_span: table[at],
        blocks: (counts / 65536) as u16,
        arguments: (counts % 65536) as u16,
    };
    span_of(options, block_len, a)
}

// Token i of n is an opening bracket. Its level and start are never asked.
pub fn build_info(table: &[u32], sheet: &[u8], base: usize, n: usize, i: usize) -> BlockInfo
    requires filled { Filled sheet.now base n table.now }
    requires i_lt_n { (i < n) × ((token_of sheet.now base i).kind ≡ kind.OpenParen) }
    ensures { SameFacts result (build_info ((here_at sheet.now base n i).token ∷ (here_at sheet.now base n i).after)) }
{
    let at = 6 * i;
    let facts = table[at + 1];
    BlockInfo {
        length: table[at],
        level: 0,
        start: None,
        top_level_token_span: facts / 4,
        has_forbidden_tokens: facts / 2 % 2 == 1,
        has_reserved_tokens: facts % 2 == 1,
    }
}
