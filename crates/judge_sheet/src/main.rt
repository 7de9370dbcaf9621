// The judging program: a sheet in the file that its argument names, a text on standard input; on standard output whether the text is what is due of the sheet.
#![tactic(auto)]

ghost use Rattle.std.specs.Prelude.{◌<◌};

use foreign::Judged;
use program::{Answer, Refusal, read_input, system_words};
use std::io::{self, Write};
use std::{env, fmt, fs};

// Why a text is not judged. The call takes one of any length, this program one that is shorter than what it reads.
#[derive(Clone, Copy)]
enum Unjudged {
    TooLong,
    Refused(Refusal),
}

impl From<Refusal> for Unjudged {
    fn from(refusal: Refusal) -> Unjudged {
        Unjudged::Refused(refusal)
    }
}

impl fmt::Display for Unjudged {
    fn fmt<W: fmt::Write>(&self, f: &mut fmt::Formatter<W>) -> fmt::Result {
        match self {
            Unjudged::TooLong => write!(f, "the text is too long for this program"),
            Unjudged::Refused(refusal) => write!(f, "{refusal}"),
        }
    }
}

fn judged(sheet: &[u8], text: &[u8]) -> Result<Judged, Unjudged> {
    if text.len() == 65536 {
        return Err(Unjudged::TooLong);
    }
    Ok(twigmantle::twigmantle_judge(sheet, text).or_refusal()?)
}

// A word of the sheet, and 0 past its end.
fn word(sheet: &[u8], at: usize) -> usize
    ensures { result < 4294967296 }
{
    match sheet.get(at..) {
        Some(rest) => match rest.first_chunk::<4>() {
            Some(bytes) => u32::from_le_bytes(*bytes) as usize,
            None => 0,
        },
        None => 0,
    }
}

// A token's own value.
fn value(sheet: &[u8], token: usize) -> Option<&[u8]> {
    if token >= 1024 {
        return None;
    }
    let at = 48 + 20 * token;
    let base = 48 + 20 * word(sheet, 0) + 16 * word(sheet, 4) + 8 * word(sheet, 8);
    let start = base + word(sheet, at + 4);
    sheet.get(start..start + word(sheet, at + 8))
}

fn write_judged(rt: &impl Print, sheet: &[u8], judged: Judged) -> io::Result<()> {
    if judged.matches == 1 {
        return println!(rt; "yes");
    }
    let token = judged.token as usize;
    if token == word(sheet, 0) {
        return println!(rt; "no: the text has more than the sheet");
    }
    print!(rt; "no at token {token}: ")?;
    if let Some(own) = value(sheet, token) {
        io::writer(rt).write_all(own)?;
    }
    println!(rt)
}

fn judge(rt: &(impl Input + Print + AllocGlobal), sheet: &[u8]) -> io::Result<()> {
    let text = read_input(rt.alloc(), rt.reader())?;
    match judged(sheet, &text) {
        Ok(judged) => write_judged(rt, sheet, judged),
        Err(unjudged) => println!(rt; "{unjudged}"),
    }
}

fn main(rt: HostRuntime) -> io::Result<()> {
    let Some(path) = env::args(&rt)?.nth(1) else {
        return eprintln!(rt; "sheet: Invalid argument");
    };
    match fs::open(&rt, path.as_str()) {
        Ok(file) => judge(&rt, &read_input(rt.alloc(), file)?),
        Err(error) => {
            let told = format!(in rt.alloc(); "{error}")?;
            eprintln!(rt; "{path}: {}", system_words(&told))
        }
    }
}
