// The rows program: one sheet on standard input; on standard output a line for each row of its text, or its refusal.
#![tactic(auto)]

use program::{Answer, read_input};
use std::io;

// As many as a sheet can have tokens.
const ROWS: usize = 1024;

// The word of a row whose token's own value was shown.
const OWN: u32 = 4294967295;

fn write_row(rt: &impl Print, [token, entry, low, high, bytes]: [u32; 5]) -> io::Result<()> {
    print!(rt; "token {token}")?;
    match entry {
        OWN => print!(rt; " own")?,
        _ => print!(rt; " entry {entry}")?,
    }
    let position = (high as u64) * 4294967296 + (low as u64);
    println!(rt; " from {position} bytes {bytes}")
}

// Whether token 0 is a placeholder (kind 14): then it has the first row, which may be five zero words.
fn starts_with_one(sheet: &[u8]) -> bool {
    sheet.len() >= 68 && (sheet[0] != 0 || sheet[1] != 0) && sheet[48] % 32 == 14
}

// After the first row a row has a token that is not 0.
fn write_rows(rt: &impl Print, sheet: &[u8], rows: &[[u32; 5]]) -> io::Result<()> {
    let mut zero_is_a_row = starts_with_one(sheet);
    for row in rows {
        if row[0] == 0 && !zero_is_a_row {
            break;
        }
        write_row(rt, *row)?;
        zero_is_a_row = false;
    }
    Ok(())
}

fn main(rt: HostRuntime) -> io::Result<()> {
    let sheet = read_input(rt.alloc(), rt.reader())?;
    let mut text = [0; 65536];
    let mut rows = [[0; 5]; ROWS];
    let words = rows.as_flattened_mut();
    match twigmantle::twigmantle_layout_rows(&sheet, &mut text, words).or_refusal() {
        Ok(_) => write_rows(&rt, &sheet, &rows),
        Err(refusal) => println!(&rt; "{refusal}"),
    }
}
