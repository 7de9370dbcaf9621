// The converting program: one sheet on standard input; the sheet with word 7 at 1 made 2 on standard output, or its refusal on standard error.
#![tactic(auto)]

use program::{Answer, read_input};
use std::io::{self, Write};

fn main(rt: HostRuntime) -> io::Result<()> {
    let mut sheet = read_input(rt.alloc(), rt.reader())?;
    match twigmantle::twigmantle_convert(&mut sheet).or_refusal() {
        Ok(_) => io::writer(&rt).write_all(&sheet),
        Err(refusal) => eprintln!(&rt; "{refusal}"),
    }
}
