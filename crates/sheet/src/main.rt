// The sheet program: one sheet on standard input, its text or its refusal on standard output.
#![tactic(auto)]

use program::{Answer, read_input};
use rules::Report;
use std::io::{self, Write};

fn write_text(rt: &impl Print, report: Report, text: &[u8]) -> io::Result<()> {
    println!(rt; "ok {} {} {}", report.length, report.lines, report.width)?;
    // The text is within the buffer, which no proof here says.
    if let Some(laid_out) = text.get(..report.length as usize) {
        let mut out = io::writer(rt);
        out.write_all(laid_out)?;
        out.write_all(b"\n")?;
    }
    Ok(())
}

fn main(rt: HostRuntime) -> io::Result<()> {
    let sheet = read_input(rt.alloc(), rt.reader())?;
    let mut text = [0; 65536];
    match twigmantle::twigmantle_layout(&sheet, &mut text).or_refusal() {
        Ok(report) => write_text(&rt, report, &text),
        Err(refusal) => println!(&rt; "{refusal}"),
    }
}
