// Wish 2: which tokens have a row, and how many of a sheet do: the fmt switch alone decides. And how many do at most.
#![tactic(auto)]

ghost use Rattle.std.specs.Prelude.{◌≡◌, suc, ◌<◌};
ghost use Rattle.rules.specs.declared.TokenKind.TheVariants.{Placeholder};
ghost use Rattle.rules.specs.Base.{when};
ghost use Rattle.rules.specs.Tokens.{is};
ghost use Rattle.rules.specs.Sheet.{token_of, tokens_of};
ghost use Rattle.rules.specs.Switch.{turn_of};
ghost use Rattle.rules.specs.Rows.{lays_out, placeholders as placeholders_of};
ghost use Rattle.tokens.specs.Placed.{Within};
ghost use Rattle.records.specs.Sheeted.{Sheeted};
ghost use Rattle.fmt_switch.specs.Of.{switch_of};
ghost use Rattle.switched.specs.Count.{most_placeholders};

use fmt_switch::Switch;
use records::body_at;
use rules::{Counts, TokenKind, Turn};
use tokens::{kind_at, to_usize, value_at};

fn is_placeholder(kind: TokenKind) -> bool
    ensures { result ≡ is kind Placeholder }
{
    kind == TokenKind::Placeholder
}

// A placeholder that is laid out has a row.
#[tactic(auto, using(crate::proofs::CountLaws::laid_alone), unfolding(rules::specs::Rows::lays_out))]
pub fn lays_out(turn: Turn, kind: TokenKind) -> bool
    ensures { result ≡ lays_out turn kind }
{
    turn == Turn::LaidOut && is_placeholder(kind)
}

// How token i is taken.
#[tactic(auto, unfolding(rules::specs::Sheet::body_part))]
pub fn turn_at(sheet: &[u8], base: usize, i: usize, switch: Switch, kind: TokenKind) -> Turn
    requires within { Within sheet.now base i }
    requires kind_value { kind ≡ (token_of sheet.now base i).kind }
    ensures { result ≡ turn_of (switch_of switch) (token_of sheet.now base i).kind (token_of sheet.now base i).value }
{
    let v = value_at(sheet, i);
    switch.turn_of(kind, sheet, base + to_usize(v.start), to_usize(v.len))
}

// A count is a word, not a usize: the compiler then counts more placeholders at once.
#[tactic(auto, unfolding(rules::specs::Base::when))]
fn counted(count: u32, b: bool) -> u32
    requires { count < 1024 }
    ensures { result ≡ when b suc count }
{
    count + u32::from(b)
}

// How many rows there are to be, known before anything is laid out.
#[tactic(auto, using(crate::proofs::Count::counts))]
pub fn placeholders(sheet: &[u8], c: Counts) -> usize
    requires { Sheeted sheet.now c }
    ensures { result ≡ placeholders_of (tokens_of sheet.now c) }
{
    let base = body_at(c);
    let mut count: u32 = 0;
    let mut switch = Switch::new();
    for i in 0..c.tokens {
        let kind = kind_at(sheet, i);
        let turn = turn_at(sheet, base, i, switch, kind);
        count = counted(count, lays_out(turn, kind));
        switch = switch.after(turn);
    }
    to_usize(count)
}

// How many placeholders there are, switched off or not. No fewer than have rows, and known
// sooner: a token is a load, a mask, a compare and an add, and no branch.
#[tactic(auto, using(crate::proofs::Count::counts_all))]
pub fn most_placeholders(sheet: &[u8], c: Counts) -> usize
    requires { Sheeted sheet.now c }
    ensures { result ≡ most_placeholders (tokens_of sheet.now c) }
{
    let mut count: u32 = 0;
    for i in 0..c.tokens {
        count = counted(count, is_placeholder(kind_at(sheet, i)));
    }
    to_usize(count)
}
