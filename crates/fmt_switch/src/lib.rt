// formatter.rs, `check_fmt_off` and how `format` takes a token.
#![tactic(auto)]

ghost use Rattle.std.specs.Prelude.{◌≡◌, ◌||◌, [], ◌+◌, ◌≤◌, ◌<◌, eqb, length, get_or, take, drop};
ghost use Rattle.rules.specs.Switch.{fmt_table, in_state, moved, check_fmt_off, turn_by, turn_of, switch_after, switched_on};
ghost use Rattle.fmt_switch.specs.Of.{row_of, moved_as, run_of, switch_of};

use rules::{TokenKind, Turn};

// What a state does on a byte: it stays, goes on to the next, or answers that the comment switches off (true) or on.
#[derive(Clone, Copy)]
pub enum Move {
    Stay,
    Next,
    Answer(bool),
}

// On either of two bytes: a letter, small and large.
#[derive(Clone, Copy)]
pub struct OnByte(pub u8, pub u8, pub Move);

#[derive(Clone, Copy)]
pub struct Row(pub OnByte, pub Option<OnByte>);

// Nine states against the bytes they move on.
static FMT_TABLE: [Row; 9] = [
    Row(OnByte(b'-', b'-', Move::Next), None),
    Row(OnByte(b'-', b'-', Move::Next), None),
    Row(
        OnByte(b' ', b' ', Move::Stay),
        Some(OnByte(b'f', b'F', Move::Next)),
    ),
    Row(OnByte(b'm', b'M', Move::Next), None),
    Row(OnByte(b't', b'T', Move::Next), None),
    Row(
        OnByte(b' ', b' ', Move::Stay),
        Some(OnByte(b':', b':', Move::Next)),
    ),
    Row(
        OnByte(b' ', b' ', Move::Stay),
        Some(OnByte(b'o', b'O', Move::Next)),
    ),
    Row(
        OnByte(b'n', b'N', Move::Answer(false)),
        Some(OnByte(b'f', b'F', Move::Next)),
    ),
    Row(OnByte(b'f', b'F', Move::Answer(true)), None),
];

// Lent: with a copy of the row the reading takes about twice as long.
fn row_of(state: usize) -> &'static Row
    requires { state < 9 }
    ensures { row_of result.now ≡ get_or fmt_table state [] }
{
    &FMT_TABLE[state]
}

impl OnByte {
    fn has(&self, c: u8) -> bool
        ensures { result ≡ (eqb c self.now.0 || eqb c self.now.1) }
    {
        c == self.0 || c == self.1
    }
}

// Without an entry for the byte the reading ends.
#[tactic(auto, using(crate::proofs::Table::steps))]
fn move_on(state: usize, c: u8) -> Option<Move>
    requires { state < 9 }
    ensures { moved_as state result ≡ moved (in_state state) c }
{
    let Row(one, two) = row_of(state);
    if one.has(c) {
        return Some(one.2);
    }
    match two {
        Some(two) if two.has(c) => Some(two.2),
        _ => None,
    }
}

// How many bytes at the start are c.
fn run_of(s: &[u8], c: u8) -> usize
    ensures { (result ≡ run_of c s.now) × (result ≤ length s.now) }
{
    s.iter().take_while(|x| **x == c).count()
}

// A comment is read by prefix: what follows the answer is not.
#[inline(never)]
#[tactic(auto, using(crate::proofs::Laws::reads))]
pub fn check_fmt_off(s: &[u8], start: usize, n: usize) -> Option<bool>
    requires { start + n ≤ length s.now }
    ensures { result ≡ check_fmt_off (take n (drop start s.now)) }
{
    let mut rest = &s[start..start + n];
    let mut state: usize = 0;
    while let Some((c, after)) = rest.split_first() {
        rest = match move_on(state, *c)? {
            // Bytes that are the same leave the state as well.
            Move::Stay => &after[run_of(after, *c)..],
            Move::Next => {
                state += 1;
                after
            }
            Move::Answer(off) => return Some(off),
        };
    }
    None
}

// `is_fmt_enabled` and `is_prev_token_fmt_switch`.
#[derive(Clone, Copy)]
pub struct Switch {
    pub enabled: bool,
    pub drop_next: bool,
}

#[tactic(auto, unfolding(rules::specs::Switch::turn_by))]
fn turn_by(enabled: bool, said: Option<bool>) -> Turn
    ensures { result ≡ turn_by enabled said }
{
    match said {
        Some(off) => Turn::Switches(off),
        None if enabled => Turn::LaidOut,
        None => Turn::Copied,
    }
}

impl Switch {
    #[tactic(auto, unfolding(crate::specs::Of::switch_of, rules::specs::Switch::switched_on))]
    pub fn new() -> Self
        ensures { switch_of result ≡ switched_on }
    {
        Self {
            enabled: true,
            drop_next: false,
        }
    }

    // How a token of a kind and a value is taken. Only comments are read.
    #[tactic(auto, using(crate::proofs::Laws::takes))]
    pub fn turn_of(self, kind: TokenKind, s: &[u8], start: usize, n: usize) -> Turn
        requires { start + n ≤ length s.now }
        ensures { result ≡ turn_of (switch_of self) kind (take n (drop start s.now)) }
    {
        if self.drop_next {
            return Turn::Dropped;
        }
        match kind {
            TokenKind::LineComment | TokenKind::BlockComment => {
                turn_by(self.enabled, check_fmt_off(s, start, n))
            }
            _ => turn_by(self.enabled, None),
        }
    }

    #[tactic(auto, unfolding(crate::specs::Of::switch_of, rules::specs::Switch::switch_after))]
    pub fn after(self, turn: Turn) -> Self
        ensures { switch_of result ≡ switch_after turn (switch_of self) }
    {
        match turn {
            Turn::Dropped => Switch {
                drop_next: false,
                ..self
            },
            Turn::Switches(off) => Switch {
                enabled: !off,
                drop_next: true,
            },
            Turn::LaidOut | Turn::Copied => self,
        }
    }
}
