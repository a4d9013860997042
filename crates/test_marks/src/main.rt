// Prints what the arguments ask for, of units made by hand; then the marks of small graphs.
#![tactic(auto)]

use std::io;
use std::io::{BufWriter, Write};

mod graphs;

fn main(rt: HostRuntime) -> io::Result<()> {
    let mut out = BufWriter::new(rt.alloc(), io::writer(&rt))?;
    printing::arguments(&rt, &mut out)?;
    writeln!(out, "# small graphs")?;
    graphs::print(&mut out)?;
    out.flush()
}
