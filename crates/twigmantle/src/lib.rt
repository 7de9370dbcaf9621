// What the desk's host calls: any bytes, any buffer, any list.
#![tactic(auto)]

ghost use Rattle.std.specs.Prelude.{if◌then◌else◌, ◌≡◌, true, false, ◌&&◌, ◌*◌, ◌≤◌, length, replicate, Ok};
ghost use Rattle.rules.specs.Checks.{checked};
ghost use Rattle.rules.specs.Sheet.{env_of, tokens_of};
ghost use Rattle.rules.specs.Answer.{refusal, format, is_withdrawn, report_of, buffer_of, reported, buffer_after};
ghost use Rattle.rules.specs.Rows.{rows as rows_of, placeholders as placeholders_of, is_short, list_for, listed_report, listed_buffer, list_after};
ghost use Rattle.rules.specs.Due.{Faithful};
ghost use Rattle.rules.specs.Shown.{Pointed};
ghost use Rattle.rules.specs.Room.{room_for};
ghost use Rattle.rules.specs.Compacted.{refusal as unwritten, compact as compact_of, outcome_of, buffer_with, Compacts};
ghost use Rattle.mended.specs.Mended.{mend as mend_of, mend_outcome, sheet_after, report_after};
ghost use Rattle.mended.specs.Mends.{Mends};
ghost use Rattle.converted.specs.Converted.{convert as convert_of, convert_outcome, sheet_after as converted_sheet};
ghost use Rattle.converted.specs.Converts.{Converts, Stored};
ghost use Rattle.foreign.specs.Foreign.{judge as judge_of, judged_of};
ghost use Rattle.foreign.specs.Judges.{Judges};
ghost use Rattle.records.specs.Sheeted.{Sheeted};
ghost use Rattle.head.specs.Head.{default_head, rust_head, head_written, head_returned};
ghost use Rattle.rules.specs.Words.{body_at};
ghost use Rattle.table.specs.Table.{Filled};
ghost use Rattle.twigmantle.specs.Called.{called_as, list_called};
ghost use Rattle.twigmantle.specs.Enough.{Enough};
ghost use Rattle.twigmantle.specs.Once.{lacks_table, once_as, list_once_as, once, once_listed, once_list};

use foreign::Judged;
use rules::{Counts, Outcome, Report};
use state::Context;
use switched::{most_placeholders, placeholders};

fn refused(text: &mut [u8], rows: &mut [u32], number: u32, place: usize) -> Report
    ensures value { result ≡ report_of (refusal number place) }
    ensures text_after { text.new ≡ buffer_of (length text.old) (refusal number place) }
    ensures rows_after { rows.new ≡ replicate (length rows.old) 0 }
{
    let room = text.len();
    text::fill(text, 0, 0, room);
    rows::clear(rows);
    Report {
        refusal: number,
        place: place as u64,
        length: 0,
        lines: 0,
        width: 0,
    }
}

// A sheet that checks 1 to 4 found sound.
fn laid_out(
    sheet: &[u8],
    text: &mut [u8],
    rows: &mut [u32],
    with_rows: bool,
    table: &[u32],
    with_table: bool,
    c: Counts,
) -> Report
    requires sheeted { Sheeted sheet.now c }
    requires c_in_bounds { with_rows ≡ true → 5 * placeholders_of (tokens_of sheet.now c) ≤ length rows.old }
    requires filled { with_table ≡ true → Filled sheet.now (body_at c) c.tokens table.now }
    ensures value { result ≡ report_of (format (env_of sheet.now c (length text.old)) (tokens_of sheet.now c)) }
    ensures text_after { text.new ≡ buffer_of (length text.old) (format (env_of sheet.now c (length text.old)) (tokens_of sheet.now c)) }
    ensures rows_after { rows.new ≡ (if with_rows then list_for (length rows.old) (rows_of (env_of sheet.now c (length text.old)) (tokens_of sheet.now c)) (format (env_of sheet.now c (length text.old)) (tokens_of sheet.now c)) else replicate (length rows.old) 0) }
{
    let base = records::body_at(c);
    let options = records::options_of(sheet);
    let x = Context {
        counts: c,
        base,
        options,
    };
    formatter::format(text, rows, with_rows, sheet, x, table, with_table)
}

// Whether rows are asked for, and the list has too few words.
fn is_short(sheet: &[u8], words: usize, with_rows: bool, c: Counts) -> bool
    requires { (Sheeted sheet.now c) × (is_withdrawn sheet.now ≡ false) }
    ensures { result ≡ (with_rows && is_short sheet.now words (Ok c)) }
{
    if !with_rows {
        return false;
    }
    // A list with a row for each token is never short: then nothing is counted.
    let n = c.tokens;
    if 5 * n <= words {
        return false;
    }
    // Nor is one with a row for each placeholder: the switch is followed only for a shorter one.
    if 5 * most_placeholders(sheet, c) <= words {
        return false;
    }
    words < 5 * placeholders(sheet, c)
}

fn sound(
    sheet: &[u8],
    text: &mut [u8],
    rows: &mut [u32],
    with_rows: bool,
    table: &[u32],
    with_table: bool,
    c: Counts,
) -> Report
    requires sheeted { (Sheeted sheet.now c) × (is_withdrawn sheet.now ≡ false) }
    requires filled { with_table ≡ true → Filled sheet.now (body_at c) c.tokens table.now }
    ensures value { result ≡ report_of (called_as sheet.now (length text.old) with_rows (length rows.old) (Ok c)) }
    ensures text_after { text.new ≡ buffer_of (length text.old) (called_as sheet.now (length text.old) with_rows (length rows.old) (Ok c)) }
    ensures rows_after { rows.new ≡ list_called sheet.now (length text.old) with_rows (length rows.old) (Ok c) }
{
    let words = rows.len();
    if is_short(sheet, words, with_rows, c) {
        return refused(text, rows, 10, 0);
    }
    laid_out(sheet, text, rows, with_rows, table, with_table, c)
}

// With a table it is filled first, if it is long enough.
fn tabled(
    sheet: &[u8],
    text: &mut [u8],
    rows: &mut [u32],
    with_rows: bool,
    table: &mut [u32],
    with_table: bool,
    c: Counts,
) -> Report
    requires { (Sheeted sheet.now c) × (is_withdrawn sheet.now ≡ false) }
    ensures table_len_unchanged { length table.new ≡ length table.old }
    ensures value { result ≡ report_of (once_as sheet.now with_table (length table.old) (Ok c) (called_as sheet.now (length text.old) with_rows (length rows.old) (Ok c))) }
    ensures text_after { text.new ≡ buffer_of (length text.old) (once_as sheet.now with_table (length table.old) (Ok c) (called_as sheet.now (length text.old) with_rows (length rows.old) (Ok c))) }
    ensures rows_after { rows.new ≡ list_once_as sheet.now with_table (length table.old) (Ok c) (length rows.old) (list_called sheet.now (length text.old) with_rows (length rows.old) (Ok c)) }
{
    if !with_table {
        return sound(sheet, text, rows, with_rows, table, false, c);
    }
    let n = c.tokens;
    if table.len() < 6 * n {
        return refused(text, rows, 12, 0);
    }
    let base = records::body_at(c);
    table_fill::fill(table, sheet, base, n);
    sound(sheet, text, rows, with_rows, table, true, c)
}

// Word 7 at 1 is refused before anything else is asked of a sound sheet.
fn unless_withdrawn(
    sheet: &[u8],
    text: &mut [u8],
    rows: &mut [u32],
    with_rows: bool,
    table: &mut [u32],
    with_table: bool,
    c: Counts,
) -> Report
    requires { Sheeted sheet.now c }
    ensures table_len_unchanged { length table.new ≡ length table.old }
    ensures value { result ≡ report_of (once_as sheet.now with_table (length table.old) (Ok c) (called_as sheet.now (length text.old) with_rows (length rows.old) (Ok c))) }
    ensures text_after { text.new ≡ buffer_of (length text.old) (once_as sheet.now with_table (length table.old) (Ok c) (called_as sheet.now (length text.old) with_rows (length rows.old) (Ok c))) }
    ensures rows_after { rows.new ≡ list_once_as sheet.now with_table (length table.old) (Ok c) (length rows.old) (list_called sheet.now (length text.old) with_rows (length rows.old) (Ok c)) }
{
    if records::is_withdrawn(sheet) {
        return refused(text, rows, 14, 28);
    }
    tabled(sheet, text, rows, with_rows, table, with_table, c)
}

fn answered(
    sheet: &[u8],
    text: &mut [u8],
    rows: &mut [u32],
    with_rows: bool,
    table: &mut [u32],
    with_table: bool,
) -> Report
    ensures table_len_unchanged { length table.new ≡ length table.old }
    ensures value { result ≡ report_of (once_as sheet.now with_table (length table.old) (checked sheet.now) (called_as sheet.now (length text.old) with_rows (length rows.old) (checked sheet.now))) }
    ensures text_after { text.new ≡ buffer_of (length text.old) (once_as sheet.now with_table (length table.old) (checked sheet.now) (called_as sheet.now (length text.old) with_rows (length rows.old) (checked sheet.now))) }
    ensures rows_after { rows.new ≡ list_once_as sheet.now with_table (length table.old) (checked sheet.now) (length rows.old) (list_called sheet.now (length text.old) with_rows (length rows.old) (checked sheet.now)) }
{
    match checks::check(sheet) {
        Ok(c) => unless_withdrawn(sheet, text, rows, with_rows, table, with_table, c),
        Err(o) => refused(text, rows, o.number(), o.place()),
    }
}

// One way for every layout call: without rows the list is scratch, and so is a table.
fn called(
    sheet: &[u8],
    text: &mut [u8],
    rows: &mut [u32],
    with_rows: bool,
    table: &mut [u32],
    with_table: bool,
) -> Report
    ensures table_after { table.new ≡ replicate (length table.old) 0 }
    ensures value { result ≡ report_of (once_as sheet.now with_table (length table.old) (checked sheet.now) (called_as sheet.now (length text.old) with_rows (length rows.old) (checked sheet.now))) }
    ensures text_after { text.new ≡ buffer_of (length text.old) (once_as sheet.now with_table (length table.old) (checked sheet.now) (called_as sheet.now (length text.old) with_rows (length rows.old) (checked sheet.now))) }
    ensures rows_after { rows.new ≡ list_once_as sheet.now with_table (length table.old) (checked sheet.now) (length rows.old) (list_called sheet.now (length text.old) with_rows (length rows.old) (checked sheet.now)) }
{
    let r = answered(sheet, text, rows, with_rows, table, with_table);
    rows::clear(table);
    r
}

// The layout call: the answer in numbers, and in the buffer the text and zero after it, or zero alone; a text that is laid out is faithful (demand 3).
pub fn twigmantle_layout(sheet: &[u8], text: &mut [u8]) -> Report
    ensures value { result ≡ reported sheet.now (length text.old) }
    ensures text_after { text.new ≡ buffer_after sheet.now (length text.old) }
    ensures faithful { Faithful sheet.now result text.new }
{
    let mut list: [u32; 0] = [0; 0];
    let mut none: [u32; 0] = [0; 0];
    called(sheet, text, &mut list, false, &mut none, false)
}

// The layout call with a list: five words for each placeholder that was laid out, and zero after them, or zero alone.
pub fn twigmantle_layout_rows(sheet: &[u8], text: &mut [u8], rows: &mut [u32]) -> Report
    ensures value { result ≡ listed_report sheet.now (length text.old) (length rows.old) }
    ensures text_after { text.new ≡ listed_buffer sheet.now (length text.old) (length rows.old) }
    ensures rows_after { rows.new ≡ list_after sheet.now (length text.old) (length rows.old) }
    ensures faithful { Faithful sheet.now result text.new }
    ensures pointed { Pointed sheet.now result text.new rows.new }
{
    let mut none: [u32; 0] = [0; 0];
    called(sheet, text, rows, true, &mut none, false)
}

// The layout call that reads ahead once, into a table that is zero afterwards: the same answer, but for refusal 12.
pub fn twigmantle_layout_once(sheet: &[u8], text: &mut [u8], table: &mut [u32]) -> Report
    ensures value { result ≡ report_of (once sheet.now (length text.old) (length table.old)) }
    ensures text_after { text.new ≡ buffer_of (length text.old) (once sheet.now (length text.old) (length table.old)) }
    ensures table_after { table.new ≡ replicate (length table.old) 0 }
    ensures faithful { Faithful sheet.now result text.new }
{
    let mut list: [u32; 0] = [0; 0];
    called(sheet, text, &mut list, false, table, true)
}

// The same with a list.
pub fn twigmantle_layout_rows_once(
    sheet: &[u8],
    text: &mut [u8],
    rows: &mut [u32],
    table: &mut [u32],
) -> Report
    ensures value { result ≡ report_of (once_listed sheet.now (length text.old) (length rows.old) (length table.old)) }
    ensures text_after { text.new ≡ buffer_of (length text.old) (once_listed sheet.now (length text.old) (length rows.old) (length table.old)) }
    ensures rows_after { rows.new ≡ once_list sheet.now (length text.old) (length rows.old) (length table.old) }
    ensures table_after { table.new ≡ replicate (length table.old) 0 }
    ensures faithful { Faithful sheet.now result text.new }
    ensures pointed { (lacks_table sheet.now (length table.old) (checked sheet.now) ≡ false) → Pointed sheet.now result text.new rows.new }
{
    called(sheet, text, rows, true, table, true)
}

// The room call: how long a buffer is always enough for the sheet.
pub fn twigmantle_room(sheet: &[u8]) -> Outcome
    ensures value { result ≡ room_for sheet.now }
    ensures enough { Enough sheet.now result }
{
    room::room_for(sheet)
}

// A refusal of a call that lays nothing out.
fn not_written(out: &mut [u8], number: u32, place: usize) -> Outcome
    ensures value { result ≡ outcome_of (unwritten number place) }
    ensures out_after { out.new ≡ buffer_with (length out.old) (unwritten number place) }
{
    let room = out.len();
    text::fill(out, 0, 0, room);
    Outcome {
        refusal: number,
        place: place as u64,
        length: 0,
    }
}

// The compacting call: the sheet written anew with only the body bytes that some place covers, and zero after it, or zero alone.
pub fn twigmantle_compact(sheet: &[u8], out: &mut [u8]) -> Outcome
    ensures value { result ≡ outcome_of (compact_of sheet.now (length out.old)) }
    ensures out_after { out.new ≡ buffer_with (length out.old) (compact_of sheet.now (length out.old)) }
    ensures compacts { Compacts sheet.now result out.new }
    ensures stored { Stored sheet.now result out.new }
{
    match checks::check(sheet) {
        Ok(c) => compact::compact(sheet, out, c),
        Err(o) => not_written(out, o.number(), o.place()),
    }
}

// The mending call: every bad word and byte of the sheet made good where it lies, and a report of what changed.
pub fn twigmantle_mend(sheet: &mut [u8], report: &mut [u32]) -> Outcome
    ensures value { result ≡ mend_outcome (mend_of sheet.old (length report.old)) }
    ensures sheet_after { sheet.new ≡ sheet_after sheet.old (mend_of sheet.old (length report.old)) }
    ensures report_after { report.new ≡ report_after (length report.old) (mend_of sheet.old (length report.old)) }
    ensures mends { Mends sheet.old (length report.old) result sheet.new report.new }
{
    mend::mend(sheet, report)
}

// The converting call: word 7 at 1, which layout refuses, becomes 2 where the sheet lies.
pub fn twigmantle_convert(sheet: &mut [u8]) -> Outcome
    ensures value { result ≡ convert_outcome (convert_of sheet.old) }
    ensures sheet_after { sheet.new ≡ converted_sheet sheet.old (convert_of sheet.old) }
    ensures converts { Converts sheet.old result sheet.new }
{
    convert::convert(sheet)
}

// The judging call: whether a text, laid out by any tool, is what is due of the sheet, white bytes taken out; if not, from which token on.
pub fn twigmantle_judge(sheet: &[u8], text: &[u8]) -> Judged
    ensures value { result ≡ judged_of (judge_of sheet.now text.now) }
    ensures judges { Judges sheet.now text.now result }
{
    judge::judge(sheet, text)
}

// The default head: 48 bytes and zero after them; zero alone in a slice under 48.
pub fn twigmantle_default_head(out: &mut [u8]) -> usize
    ensures value { result ≡ head_returned (length out.old) }
    ensures out_after { out.new ≡ head_written default_head (length out.old) }
{
    head::default_head(out)
}

// The same with the Rust's own defaults.
pub fn twigmantle_rust_head(out: &mut [u8]) -> usize
    ensures value { result ≡ head_returned (length out.old) }
    ensures out_after { out.new ≡ head_written rust_head (length out.old) }
{
    head::rust_head(out)
}
