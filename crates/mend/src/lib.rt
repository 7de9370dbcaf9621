// Wish 10: a damaged sheet mended where it lies, with a report of each word and byte that was changed.
#![tactic(auto)]

ghost use Rattle.std.specs.Prelude.{◌≡◌, ◌+◌, ◌*◌, ◌≤◌, ◌<◌, length, replicate};
ghost use Rattle.rules.specs.Words.{body_at};
ghost use Rattle.records.specs.Sheeted.{Few};
ghost use Rattle.checks.specs.Sound.{Sized};
ghost use Rattle.mended.specs.Mended.{mended, mend as mend_of, mend_outcome, sheet_after, report_after, written_at};
ghost use Rattle.mend.specs.Items.{item_count, item_of, changed_in, report_of, RowIn};
ghost use Rattle.mend.specs.Refused.{number_of, answer_of};

use mended_words::{mended_byte, mended_word};
use records::body_at;
use rules::{Counts, Outcome};
use tokens::word_at;

// Check 1, or a report of fewer than three words for each change.
#[derive(Clone, Copy, PartialEq, Eq)]
enum Refusal {
    Size,
    Report,
}

impl Refusal {
    fn number(self) -> u32
        ensures { result ≡ number_of self }
    {
        match self {
            Refusal::Size => 1,
            Refusal::Report => 13,
        }
    }
}

// A word before the bodies or a body byte: where it stands, what it is and what it becomes.
#[derive(Clone, Copy)]
struct Item {
    at: u32,
    old: u32,
    new: u32,
}

// ---- what changes

fn item_count(c: Counts) -> usize
    requires { Few c }
    ensures { result ≡ item_count c }
{
    body_at(c) / 4 + c.bytes
}

#[tactic(auto, unfolding(crate::specs::Items::item_of))]
fn read_item(sheet: &[u8], c: Counts, k: usize) -> Item
    requires { (Sized sheet.now c) × (k < item_count c) }
    ensures { result ≡ item_of sheet.now c k }
{
    let base = body_at(c);
    let words = base / 4;
    if k < words {
        let at = 4 * k;
        Item {
            at: at as u32,
            old: word_at(sheet, at),
            new: mended_word(sheet, c, at),
        }
    } else {
        let at = base + (k - words);
        let b = sheet[at];
        Item {
            at: at as u32,
            old: b as u32,
            new: mended_byte(b) as u32,
        }
    }
}

#[tactic(auto, unfolding(crate::specs::Items::changed_to))]
fn count(sheet: &[u8], c: Counts) -> usize
    requires { Sized sheet.now c }
    ensures value { result ≡ length (changed_in sheet.now c) }
    ensures few { result ≤ item_count c }
{
    (0..item_count(c))
        .map(|k| read_item(sheet, c, k))
        .filter(|x| x.old != x.new)
        .count()
}

// ---- the report

// Three words for each.
#[tactic(auto, using(crate::proofs::ItemLaws::room_for))]
fn list(report: &mut [u32], sheet: &[u8], c: Counts)
    requires sized { Sized sheet.now c }
    requires zeros { report.old ≡ replicate (length report.old) 0 }
    requires room { 3 * length (changed_in sheet.now c) ≤ length report.old }
    ensures { report.new ≡ report_of (length report.old) (changed_in sheet.now c) }
{
    let mut at = 0;
    for k in 0..item_count(c) {
        let x = read_item(sheet, c, k);
        if x.old != x.new {
            report[at..at + 3].copy_from_slice(&[x.at, x.old, x.new]);
            at += 3;
        }
    }
}

// ---- the sheet

#[tactic(auto, using(crate::proofs::WriteLaws::by_byte), unfolding(mended::specs::Mended::written_at, text::specs::Put::put))]
fn write_row(sheet: &mut [u8], c: Counts, at: usize, new: u32)
    requires { (Few c) × (RowIn (body_at c) (length sheet.old) at new) }
    ensures { sheet.new ≡ written_at (body_at c) at new sheet.old }
{
    if at < body_at(c) {
        word_bytes::put_word(sheet, at, new);
    } else {
        sheet[at] = new as u8;
    }
}

// By the report, so that no word is judged by one that was already mended.
fn write(sheet: &mut [u8], c: Counts, report: &[u32], n: usize)
    requires sized { (Sized sheet.old c) × (n ≡ length (changed_in sheet.old c)) }
    requires report_value { (report.now ≡ report_of (length report.now) (changed_in sheet.old c)) × (3 * n ≤ length report.now) }
    ensures { sheet.new ≡ mended sheet.old c }
{
    for i in 0..n {
        write_row(sheet, c, report[3 * i] as usize, report[3 * i + 2]);
    }
}

// ---- the call

// A report of zeros. The changes are counted before any is written.
#[tactic(auto, using(crate::proofs::CallLaws::outcomes), unfolding(mended::specs::Mended::mend_outcome, mended::specs::Mended::sheet_after, mended::specs::Mended::report_after))]
fn try_mend(sheet: &mut [u8], report: &mut [u32]) -> Result<usize, Refusal>
    requires { report.old ≡ replicate (length report.old) 0 }
    ensures value { answer_of result ≡ mend_outcome (mend_of sheet.old (length report.old)) }
    ensures sheet_after { sheet.new ≡ sheet_after sheet.old (mend_of sheet.old (length report.old)) }
    ensures report_after { report.new ≡ report_after (length report.old) (mend_of sheet.old (length report.old)) }
{
    if checks::check_size(sheet).is_some() {
        return Err(Refusal::Size);
    }
    let c = records::counts_of(sheet);
    let n = count(sheet, c);
    if report.len() < 3 * n {
        return Err(Refusal::Report);
    }
    list(report, sheet, c);
    write(sheet, c, report, n);
    Ok(n)
}

pub fn mend(sheet: &mut [u8], report: &mut [u32]) -> Outcome
    ensures value { result ≡ mend_outcome (mend_of sheet.old (length report.old)) }
    ensures sheet_after { sheet.new ≡ sheet_after sheet.old (mend_of sheet.old (length report.old)) }
    ensures report_after { report.new ≡ report_after (length report.old) (mend_of sheet.old (length report.old)) }
{
    report.fill(0);
    match try_mend(sheet, report) {
        Ok(n) => Outcome {
            refusal: 0,
            place: 0,
            length: n as u64,
        },
        Err(refusal) => Outcome {
            refusal: refusal.number(),
            place: 0,
            length: 0,
        },
    }
}
