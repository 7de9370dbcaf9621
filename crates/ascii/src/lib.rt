// What the layout asks of bytes: whether one is blank or white, one in another case, and whether two parts are the same.
#![tactic(auto)]

ghost use Rattle.std.specs.Prelude.{◌≡◌, true, false, ◌||◌, ◌&&◌, ℕ, ◌+◌, ◌≤◌, eqb, fold, position, length, replicate};
ghost use Rattle.std.specs.List.{list_all, zip};
ghost use Rattle.rules.specs.Base.{same};
ghost use Rattle.rules.specs.Text.{is_blank, is_white, to_lower, byte_in_case, is_lower};
ghost use Rattle.ascii.specs.Part.{part, number, Bytes, has, before};

use rules::Case;

pub fn is_blank(b: u8) -> bool
    ensures { result ≡ is_blank b }
{
    b == b' ' || b == b'\t'
}

pub fn is_white(b: u8) -> bool
    ensures { result ≡ is_white b }
{
    b == b' ' || b'\t' <= b && b <= b'\r'
}

pub fn in_case(k: Case, b: u8) -> u8
    ensures { result ≡ byte_in_case k b }
{
    match k {
        Case::AsIs => b,
        Case::Upper => b.to_ascii_uppercase(),
        Case::Lower => b.to_ascii_lowercase(),
    }
}

// ---- two parts

// Each byte of v, in small letters, against the one of w beside it.
fn all_lower(v: &[u8], w: &[u8]) -> bool
    ensures { result ≡ list_all (λ (p : ℕ × ℕ). eqb (to_lower p.0) p.1) (zip v.now w.now) }
{
    v.iter().zip(w).all(|(x, y)| x.to_ascii_lowercase() == *y)
}

#[tactic(auto, using(crate::proofs::SameLaws::lowers))]
pub fn is_lower(src: &[u8], start: usize, n: usize, word: &[u8]) -> bool
    requires { start + n ≤ length src.now }
    ensures { result ≡ is_lower (part src.now start n) word.now }
{
    n == word.len() && all_lower(&src[start..start + n], word)
}

// Eight bytes as one number, the first one the lowest: the compiler reads them at once.
fn eight_at(s: &[u8], at: usize) -> u64
    requires { at + 8 ≤ length s.now }
    ensures { (result ≡ number (part s.now at 8)) × Bytes (part s.now at 8) }
{
    u64::from_le_bytes([
        s[at],
        s[at + 1],
        s[at + 2],
        s[at + 3],
        s[at + 4],
        s[at + 5],
        s[at + 6],
        s[at + 7],
    ])
}

#[tactic(auto, using(crate::proofs::RunLaws::by_eight))]
fn same_eight(src: &[u8], start: usize, other: &[u8], from: usize) -> bool
    requires { (start + 8 ≤ length src.now) × (from + 8 ≤ length other.now) }
    ensures { result ≡ same (part src.now start 8) (part other.now from 8) }
{
    eight_at(src, start) == eight_at(other, from)
}

// Whether eight blanks stand there, each a byte 32: as one number they are this one.
pub fn eight_blanks(src: &[u8], at: usize) -> bool
    requires { at + 8 ≤ length src.now }
    ensures { result ≡ same (part src.now at 8) (replicate 8 32) }
{
    eight_at(src, at) == 0x2020_2020_2020_2020
}

fn same_part(src: &[u8], start: usize, other: &[u8], from: usize, n: usize) -> bool
    requires { (start + n ≤ length src.now) × (from + n ≤ length other.now) }
    ensures { result ≡ same (part src.now start n) (part other.now from n) }
{
    &src[start..start + n] == &other[from..from + n]
}

// No branch for each byte, so that many are looked at at once.
fn all_same(v: &[u8], w: &[u8]) -> bool
    ensures { result ≡ fold (λ all (p : ℕ × ℕ). all && eqb p.0 p.1) true (zip v.now w.now) }
{
    v.iter().zip(w).fold(true, |all, (x, y)| all & (*x == *y))
}

// A run of a fixed length is compared many bytes at a time.
#[tactic(auto, using(crate::proofs::SameLaws::by_pairs))]
fn same_run(src: &[u8], start: usize, other: &[u8], from: usize, n: usize) -> bool
    requires { (start + n ≤ length src.now) × (from + n ≤ length other.now) }
    ensures { result ≡ same (part src.now start n) (part other.now from n) }
{
    all_same(&src[start..start + n], &other[from..from + n])
}

// The ends before the rest: most parts of one length that differ do so there. By `==` alone parts of 8 to 15 bytes take 2 to 3 times as long.
// In line in each caller: most parts that differ do so in their length, and a call takes longer than that.
#[inline(always)]
#[tactic(auto, using(crate::proofs::SameLaws::by_lengths, crate::proofs::RunLaws::compares))]
pub fn same_bytes(src: &[u8], start: usize, n: usize, other: &[u8], from: usize, m: usize) -> bool
    requires { (start + n ≤ length src.now) × (from + m ≤ length other.now) }
    ensures { result ≡ same (part src.now start n) (part other.now from m) }
{
    if n != m {
        return false;
    }
    if n < 8 {
        return same_part(src, start, other, from, n);
    }
    let last = n - 8;
    if !same_eight(src, start + last, other, from + last) {
        return false;
    }
    if !same_eight(src, start, other, from) {
        return false;
    }
    // Two `while`: the second goes on where the first stops, by eights. By `==` the rest of a part of 17 to 63 bytes takes longer.
    let mut i = 0;
    while 64 <= n - i {
        if !same_run(src, start + i, other, from + i, 64) {
            return false;
        }
        i += 64;
    }
    while i < last {
        if !same_eight(src, start + i, other, from + i) {
            return false;
        }
        i += 8;
    }
    true
}

// ---- the first byte of a kind

// No branch for each byte, so that many are looked at at once.
fn has_either(v: &[u8], a: u8, b: u8) -> bool
    ensures { result ≡ fold (λ all x. all || eqb x a || eqb x b) false v.now }
{
    v.iter().fold(false, |all, x| all | (*x == a) | (*x == b))
}

// Whether one of two bytes stands in a run.
#[tactic(auto, using(crate::proofs::FindLaws::by_fold))]
pub fn in_run(src: &[u8], start: usize, n: usize, a: u8, b: u8) -> bool
    requires { start + n ≤ length src.now }
    ensures { result ≡ has a b (part src.now start n) }
{
    has_either(&src[start..start + n], a, b)
}

fn place_of(v: &[u8], b: u8) -> Option<usize>
    ensures { result ≡ position (λ x. eqb x b) v.now }
{
    v.iter().position(|x| *x == b)
}

// How many bytes stand before the first b. Blocks of 16 without it are passed whole.
#[tactic(auto, using(crate::proofs::FindLaws::finds))]
pub fn find(src: &[u8], start: usize, n: usize, b: u8) -> usize
    requires { start + n ≤ length src.now }
    ensures { (result ≡ before b (part src.now start n)) × (result ≤ n) }
{
    let mut rest = &src[start..start + n];
    while let Some((block, after)) = rest.split_first_chunk::<16>() {
        if has_either(block, b, b) {
            break;
        }
        rest = after;
    }
    n - rest.len() + place_of(rest, b).unwrap_or(rest.len())
}
