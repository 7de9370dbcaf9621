// Places of the bodies, by their bytes.
#![tactic(auto)]

ghost use Rattle.std.specs.Prelude.{◌≡◌};
ghost use Rattle.rules.specs.Base.{same};
ghost use Rattle.rules.specs.Sheet.{body_part};
ghost use Rattle.tokens.specs.Placed.{Inside};

use ascii::same_bytes;
use rules::Place;
use tokens::to_usize;

// In line in each caller, as `same_bytes` is. The lengths first: most places that differ do so there.
#[inline(always)]
#[tactic(auto, using(crate::proofs::SameLaws::parts, crate::proofs::SameLaws::one_start, crate::proofs::SameLaws::other_length))]
pub fn same_places(s: &[u8], base: usize, p: Place, q: Place) -> bool
    requires { (Inside s.now base p) × (Inside s.now base q) }
    ensures { result ≡ same (body_part s.now base p) (body_part s.now base q) }
{
    if p.len != q.len {
        return false;
    }
    // One place is read once: it is the same.
    if p.start == q.start {
        return true;
    }
    let start = base + to_usize(p.start);
    let n = to_usize(p.len);
    let from = base + to_usize(q.start);
    same_bytes(s, start, n, s, from, n)
}
