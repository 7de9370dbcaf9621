// Keep words: values that stay as they are where the others are cased.
#![tactic(auto)]

ghost use Rattle.std.specs.Prelude.{◌≡◌};
ghost use Rattle.rules.specs.Base.{same, any_of};
ghost use Rattle.rules.specs.Words.{body_at};
ghost use Rattle.rules.specs.Sheet.{body_part, keeps_of};
ghost use Rattle.tokens.specs.Placed.{Inside};
ghost use Rattle.records.specs.Sheeted.{Sheeted};
ghost use Rattle.keeps.specs.CaseOf.{case_of};

use places::same_places;
use records::{body_at, keep_at};
use rules::{Case, Counts, Place};

#[tactic(auto, using(crate::proofs::Laws::kept))]
pub fn is_keep(sheet: &[u8], c: Counts, p: Place) -> bool
    requires { (Sheeted sheet.now c) × (Inside sheet.now (body_at c) p) }
    ensures { result ≡ any_of (same (body_part sheet.now (body_at c) p)) (keeps_of sheet.now c) }
{
    let base = body_at(c);
    for i in 0..c.keeps {
        if same_places(sheet, base, p, keep_at(sheet, c, i)) {
            return true;
        }
    }
    false
}

#[tactic(auto, unfolding(crate::specs::CaseOf::case_of))]
pub fn case_for(sheet: &[u8], c: Counts, casing: Case, p: Place) -> Case
    requires { (Sheeted sheet.now c) × (Inside sheet.now (body_at c) p) }
    ensures { result ≡ case_of sheet.now c casing (body_part sheet.now (body_at c) p) }
{
    // The answer is AsIs either way: no keep word is read.
    if casing == Case::AsIs || is_keep(sheet, c, p) {
        Case::AsIs
    } else {
        casing
    }
}
