// Prints what a bundle on standard input holds.
#![tactic(auto)]

use printing::Kind;
use std::io;
use std::io::{BufWriter, Write};

fn main(rt: HostRuntime) -> io::Result<()> {
    let mut out = BufWriter::new(rt.alloc(), io::writer(&rt))?;
    printing::standard_input(&rt, &mut out, Kind::Dump)?;
    out.flush()
}
