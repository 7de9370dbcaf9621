// Replays the fixed list of the Rust's answers: each sheet laid out again, each number and byte compared.
#![tactic(auto)]

use program::system_words;
use rules::Report;
use std::{fs, io};

// One entry's words: the sheet's length, the buffer's, and the report.
#[derive(Clone, Copy)]
struct Entry {
    sheet: usize,
    room: usize,
    wanted: Report,
}

// ---- reading

// Whether the input had enough for the whole buffer; what it had stands at the start.
fn fill<R: io::Read>(from: &mut R, buf: &mut [u8]) -> io::Result<bool> {
    match from.read_exact(buf) {
        Ok(()) => Ok(true),
        Err(error) if error.kind() == io::ErrorKind::UnexpectedEof => Ok(false),
        Err(error) => Err(error),
    }
}

fn read_entry<R: io::Read>(from: &mut R) -> io::Result<Option<Entry>> {
    let mut head = [[0u8; 4]; 7];
    if !fill(from, head.as_flattened_mut())? {
        return Ok(None);
    }
    let [sheet, room, refusal, place, length, lines, width] = head.map(u32::from_le_bytes);
    let wanted = Report {
        refusal,
        place: place as u64,
        length: length as u64,
        lines: lines as u64,
        width: width as u64,
    };
    Ok(Some(Entry {
        sheet: sheet as usize,
        room: room as usize,
        wanted,
    }))
}

// A part of n bytes; none of one that the buffer does not hold.
fn read_part<R: io::Read>(from: &mut R, buf: &mut [u8], n: usize) -> io::Result<()> {
    if let Some(part) = buf.get_mut(..n) {
        fill(from, part)?;
    }
    Ok(())
}

// ---- comparing

fn numbers(r: Report) -> [u64; 5] {
    [r.refusal as u64, r.place, r.length, r.lines, r.width]
}

// The text as it should be, and zero after it.
fn same_text(text: &[u8], wanted: &[u8]) -> bool {
    match text.split_at_checked(wanted.len()) {
        Some((start, rest)) => start == wanted && rest.iter().fold(0, |all, b| all | *b) == 0,
        None => false,
    }
}

// Whether the answer is as it should be. None: an entry of parts that the buffers do not hold.
fn is_same(entry: Entry, sheet: &[u8], text: &mut [u8], bytes: &[u8]) -> Option<bool> {
    let sheet = sheet.get(..entry.sheet)?;
    let bytes = bytes.get(..entry.wanted.length as usize)?;
    let text = text.get_mut(..entry.room)?;
    let got = twigmantle::twigmantle_layout(sheet, text);
    Some(numbers(got) == numbers(entry.wanted) && same_text(text, bytes))
}

fn replay_entry<R: io::Read>(from: &mut R, entry: Entry) -> io::Result<bool> {
    let mut sheet = [0; 65536];
    let mut bytes = [0; 65536];
    // Not zero, so that what the call leaves untouched shows.
    let mut text = [7; 65536];
    read_part(from, &mut sheet, entry.sheet)?;
    read_part(from, &mut bytes, entry.wanted.length as usize)?;
    Ok(is_same(entry, &sheet, &mut text, &bytes).unwrap_or(false))
}

// ---- the list

// How many entries are as they should be, and how many there are.
fn replay_all<R: io::Read>(from: &mut R) -> io::Result<(u64, u64)> {
    let mut same = 0;
    for all in 0..1000000 {
        let Some(entry) = read_entry(from)? else {
            return Ok((same, all));
        };
        if replay_entry(from, entry)? {
            same += 1;
        }
    }
    Ok((same, 1000000))
}

fn main(rt: HostRuntime) -> io::Result<()> {
    let path = "answers";
    match fs::open(&rt, path) {
        Ok(mut file) => {
            let (same, all) = replay_all(&mut file)?;
            println!(&rt; "{same} of {all} sheets as the list has them")
        }
        Err(error) => {
            let told = format!(in rt.alloc(); "{error}")?;
            eprintln!(&rt; "{path}: {}", system_words(&told))
        }
    }
}
