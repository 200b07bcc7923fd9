//! Runs cases of the program in memory. Each line of the input is a case, and a line of what comes of it
//! is printed.
#![tactic(auto)]

mod cases;
mod shown;

use cases::answer_to;
use std::io::{self, BufRead, BufReader, BufWriter, Write};

fn main(rt: HostRuntime) -> io::Result<()> {
    let lines = BufReader::new(rt.alloc(), rt.reader())?.lines(rt.alloc());
    let mut out = BufWriter::new(rt.alloc(), io::writer(&rt))?;
    for line in lines {
        let answer = answer_to(rt.alloc(), line?.as_str())?;
        writeln!(out, "{answer}")?;
    }
    out.flush()
}
