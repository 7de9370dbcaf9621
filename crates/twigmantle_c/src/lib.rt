// What the desk's host calls, for C: each call is twigmantle's, with the same clauses.
#![tactic(auto)]

ghost use Rattle.std.specs.Prelude.{◌≡◌, false, length, replicate};
ghost use Rattle.rules.specs.Checks.{checked};
ghost use Rattle.rules.specs.Answer.{report_of, buffer_of, reported, buffer_after};
ghost use Rattle.rules.specs.Rows.{listed_report, listed_buffer, list_after};
ghost use Rattle.rules.specs.Due.{Faithful};
ghost use Rattle.rules.specs.Shown.{Pointed};
ghost use Rattle.rules.specs.Room.{room_for};
ghost use Rattle.rules.specs.Compacted.{compact as compact_of, outcome_of, buffer_with, Compacts};
ghost use Rattle.mended.specs.Mended.{mend as mend_of, mend_outcome, sheet_after, report_after};
ghost use Rattle.mended.specs.Mends.{Mends};
ghost use Rattle.converted.specs.Converted.{convert as convert_of, convert_outcome, sheet_after as converted_sheet};
ghost use Rattle.converted.specs.Converts.{Converts, Stored};
ghost use Rattle.foreign.specs.Foreign.{judge as judge_of, judged_of};
ghost use Rattle.foreign.specs.Judges.{Judges};
ghost use Rattle.head.specs.Head.{default_head, rust_head, head_written, head_returned};
ghost use Rattle.twigmantle.specs.Enough.{Enough};
ghost use Rattle.twigmantle.specs.Once.{lacks_table, once, once_listed, once_list};

use foreign::Judged;
use rules::{Outcome, Report};

// The layout call: the answer in numbers, and in the buffer the text and zero after it, or zero alone; a text that is laid out is faithful.
#[unsafe(no_mangle)]
pub extern "C" fn twigmantle_layout(sheet: &[u8], text: &mut [u8]) -> Report
    ensures value { result ≡ reported sheet.now (length text.old) }
    ensures text_after { text.new ≡ buffer_after sheet.now (length text.old) }
    ensures faithful { Faithful sheet.now result text.new }
{
    twigmantle::twigmantle_layout(sheet, text)
}

// The layout call with a list: five words for each placeholder that was laid out, and zero after them, or zero alone.
#[unsafe(no_mangle)]
pub extern "C" fn twigmantle_layout_rows(sheet: &[u8], text: &mut [u8], rows: &mut [u32]) -> Report
    ensures value { result ≡ listed_report sheet.now (length text.old) (length rows.old) }
    ensures text_after { text.new ≡ listed_buffer sheet.now (length text.old) (length rows.old) }
    ensures rows_after { rows.new ≡ list_after sheet.now (length text.old) (length rows.old) }
    ensures faithful { Faithful sheet.now result text.new }
    ensures pointed { Pointed sheet.now result text.new rows.new }
{
    twigmantle::twigmantle_layout_rows(sheet, text, rows)
}

// The layout call that reads ahead once, into a table that is zero afterwards: the same answer, but for refusal 12.
#[unsafe(no_mangle)]
pub extern "C" fn twigmantle_layout_once(sheet: &[u8], text: &mut [u8], table: &mut [u32]) -> Report
    ensures value { result ≡ report_of (once sheet.now (length text.old) (length table.old)) }
    ensures text_after { text.new ≡ buffer_of (length text.old) (once sheet.now (length text.old) (length table.old)) }
    ensures table_after { table.new ≡ replicate (length table.old) 0 }
    ensures faithful { Faithful sheet.now result text.new }
{
    twigmantle::twigmantle_layout_once(sheet, text, table)
}

// The same with a list.
#[unsafe(no_mangle)]
pub extern "C" fn twigmantle_layout_rows_once(
    sheet: &[u8],
    text: &mut [u8],
    rows: &mut [u32],
    table: &mut [u32],
) -> Report
    ensures value { result ≡ report_of (once_listed sheet.now (length text.old) (length rows.old) (length table.old)) }
    ensures text_after { text.new ≡ buffer_of (length text.old) (once_listed sheet.now (length text.old) (length rows.old) (length table.old)) }
    ensures rows_after { rows.new ≡ once_list sheet.now (length text.old) (length rows.old) (length table.old) }
    ensures table_after { table.new ≡ replicate (length table.old) 0 }
    ensures faithful { Faithful sheet.now result text.new }
    ensures pointed { (lacks_table sheet.now (length table.old) (checked sheet.now) ≡ false) → Pointed sheet.now result text.new rows.new }
{
    twigmantle::twigmantle_layout_rows_once(sheet, text, rows, table)
}

// The room call: how long a buffer is always enough for the sheet.
#[unsafe(no_mangle)]
pub extern "C" fn twigmantle_room(sheet: &[u8]) -> Outcome
    ensures value { result ≡ room_for sheet.now }
    ensures enough { Enough sheet.now result }
{
    twigmantle::twigmantle_room(sheet)
}

// The compacting call: the sheet written anew with only the body bytes that some place covers, and zero after it, or zero alone.
#[unsafe(no_mangle)]
pub extern "C" fn twigmantle_compact(sheet: &[u8], out: &mut [u8]) -> Outcome
    ensures value { result ≡ outcome_of (compact_of sheet.now (length out.old)) }
    ensures out_after { out.new ≡ buffer_with (length out.old) (compact_of sheet.now (length out.old)) }
    ensures compacts { Compacts sheet.now result out.new }
    ensures stored { Stored sheet.now result out.new }
{
    twigmantle::twigmantle_compact(sheet, out)
}

// The mending call: every bad word and byte of the sheet made good where it lies, and a report of what changed.
#[unsafe(no_mangle)]
pub extern "C" fn twigmantle_mend(sheet: &mut [u8], report: &mut [u32]) -> Outcome
    ensures value { result ≡ mend_outcome (mend_of sheet.old (length report.old)) }
    ensures sheet_after { sheet.new ≡ sheet_after sheet.old (mend_of sheet.old (length report.old)) }
    ensures report_after { report.new ≡ report_after (length report.old) (mend_of sheet.old (length report.old)) }
    ensures mends { Mends sheet.old (length report.old) result sheet.new report.new }
{
    twigmantle::twigmantle_mend(sheet, report)
}

// The converting call: word 7 at 1, which layout refuses, becomes 2 where the sheet lies.
#[unsafe(no_mangle)]
pub extern "C" fn twigmantle_convert(sheet: &mut [u8]) -> Outcome
    ensures value { result ≡ convert_outcome (convert_of sheet.old) }
    ensures sheet_after { sheet.new ≡ converted_sheet sheet.old (convert_of sheet.old) }
    ensures converts { Converts sheet.old result sheet.new }
{
    twigmantle::twigmantle_convert(sheet)
}

// The judging call: whether a text, laid out by any tool, is what is due of the sheet, white bytes taken out; if not, from which token on.
#[unsafe(no_mangle)]
pub extern "C" fn twigmantle_judge(sheet: &[u8], text: &[u8]) -> Judged
    ensures value { result ≡ judged_of (judge_of sheet.now text.now) }
    ensures judges { Judges sheet.now text.now result }
{
    twigmantle::twigmantle_judge(sheet, text)
}

// The default head: 48 bytes and zero after them; zero alone in a slice under 48.
#[unsafe(no_mangle)]
pub extern "C" fn twigmantle_default_head(out: &mut [u8]) -> usize
    ensures value { result ≡ head_returned (length out.old) }
    ensures out_after { out.new ≡ head_written default_head (length out.old) }
{
    twigmantle::twigmantle_default_head(out)
}

// The same with the Rust's own defaults.
#[unsafe(no_mangle)]
pub extern "C" fn twigmantle_rust_head(out: &mut [u8]) -> usize
    ensures value { result ≡ head_returned (length out.old) }
    ensures out_after { out.new ≡ head_written rust_head (length out.old) }
{
    twigmantle::twigmantle_rust_head(out)
}
