// The compacting program: one sheet on standard input; on standard output the new sheet, or its refusal on standard error.
#![tactic(auto)]

use program::{Answer, read_input};
use std::io::{self, Write};

fn main(rt: HostRuntime) -> io::Result<()> {
    let sheet = read_input(rt.alloc(), rt.reader())?;
    let mut new = [0; 65536];
    match twigmantle::twigmantle_compact(&sheet, &mut new).or_refusal() {
        // The sheet is within the buffer, which no proof here says.
        Ok(outcome) => match new.get(..outcome.length as usize) {
            Some(compacted) => io::writer(&rt).write_all(compacted),
            None => Ok(()),
        },
        Err(refusal) => eprintln!(&rt; "{refusal}"),
    }
}
