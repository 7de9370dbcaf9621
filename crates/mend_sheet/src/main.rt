// The mending program: one sheet on standard input; the mended sheet on standard output and a line for each change on standard error, or its refusal there.
#![tactic(auto)]

use program::{Answer, read_input};
use std::io::{self, Write};

// One for each word and each body byte that can change, every count at its bound.
const CHANGES: usize = 39045;

// No change stands at offset 0: the counts are never changed.
fn write_changes(rt: &impl Eprint, changes: &[[u32; 3]]) -> io::Result<()> {
    for [at, old, new] in changes {
        if *at == 0 {
            break;
        }
        eprintln!(rt; "{at}: {old} becomes {new}")?;
    }
    Ok(())
}

fn mend(rt: &(impl Print + Eprint), sheet: &mut [u8]) -> io::Result<()> {
    let mut changes = [[0; 3]; CHANGES];
    match twigmantle::twigmantle_mend(sheet, changes.as_flattened_mut()).or_refusal() {
        Ok(_) => {
            write_changes(rt, &changes)?;
            io::writer(rt).write_all(sheet)
        }
        Err(refusal) => eprintln!(rt; "{refusal}"),
    }
}

fn main(rt: HostRuntime) -> io::Result<()> {
    let mut sheet = read_input(rt.alloc(), rt.reader())?;
    mend(&rt, &mut sheet)
}
