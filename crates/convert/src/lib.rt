// Wish 12: a sheet with word 7 at 1, which is withdrawn, converted where it lies.
#![tactic(auto)]

ghost use Rattle.std.specs.Prelude.{◌≡◌, Ok};
ghost use Rattle.records.specs.Sheeted.{Sheeted};
ghost use Rattle.converted.specs.Converted.{convert_as, convert as convert_of, convert_outcome, sheet_after};

use rules::{Counts, Outcome};
use tokens::word_at;

// A sheet that checks 1 to 4 found sound.
#[tactic(auto, unfolding(converted::specs::Converted::convert_as, converted::specs::Converted::convert_outcome, converted::specs::Converted::sheet_after, converted::specs::Converted::converted, rules::specs::Answer::is_withdrawn))]
fn convert_sound(sheet: &mut [u8], c: Counts) -> Outcome
    requires { Sheeted sheet.old c }
    ensures value { result ≡ convert_outcome (convert_as sheet.old (Ok c)) }
    ensures sheet_after { sheet.new ≡ sheet_after sheet.old (convert_as sheet.old (Ok c)) }
{
    if word_at(sheet, 28) != 1 {
        return Outcome {
            refusal: 0,
            place: 0,
            length: 0,
        };
    }
    sheet[28] = 2;
    Outcome {
        refusal: 0,
        place: 0,
        length: 1,
    }
}

// Of any bytes; a refusal is known before the sheet is written to.
#[tactic(auto, unfolding(converted::specs::Converted::convert, converted::specs::Converted::convert_as, converted::specs::Converted::convert_outcome, converted::specs::Converted::sheet_after))]
pub fn convert(sheet: &mut [u8]) -> Outcome
    ensures value { result ≡ convert_outcome (convert_of sheet.old) }
    ensures sheet_after { sheet.new ≡ sheet_after sheet.old (convert_of sheet.old) }
{
    match checks::check(sheet) {
        Ok(c) => convert_sound(sheet, c),
        Err(offence) => Outcome {
            refusal: offence.number(),
            place: offence.place() as u64,
            length: 0,
        },
    }
}
