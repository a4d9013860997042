// Prints what becomes of the unit of the bundle on standard input.
#![tactic(auto)]

use printing::Kind;
use std::io;
use std::io::{BufWriter, Write};

fn main(rt: HostRuntime) -> io::Result<()> {
    let mut out = BufWriter::new(rt.alloc(), io::writer(&rt))?;
    printing::standard_input(&rt, &mut out, Kind::Thin)?;
    out.flush()
}
