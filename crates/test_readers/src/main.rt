// Prints what the arguments ask for, of bundles made by hand and of units of compilers; then how many references
// expressions have, by the sizes that are told.
#![tactic(auto)]

use readers::expressions::references_of_expression;
use std::io;
use std::io::{BufWriter, Write};

// The references of an expression, by the sizes of addresses and of offsets: how many, or the refusal.
fn told(
    to: &mut impl Write,
    name: &str,
    s: &[u8],
    address_size: u8,
    offset_size: u8,
    big_endian: bool,
) -> io::Result<()> {
    let order = if big_endian { ", big-endian" } else { "" };
    write!(to, "{address_size} and {offset_size} of {name}{order}")?;
    match references_of_expression(s, address_size, offset_size, big_endian, &mut [7; 9]) {
        Ok(n) => writeln!(to, ": references {n}"),
        Err(refusal) => writeln!(to, ": refused {refusal}"),
    }
}

// A size in the place of either.
fn size(to: &mut impl Write, n: u8) -> io::Result<()> {
    told(to, "nothing", &[], 8, n, false)?;
    told(to, "nothing", &[], 4, n, false)?;
    told(to, "nothing", &[], n, 8, false)
}

// What takes an offset, with eight bytes behind its code and with four; and what takes an address, with eight.
fn widths(
    to: &mut impl Write,
    address_size: u8,
    offset_size: u8,
    big_endian: bool,
) -> io::Result<()> {
    let cases: [(&str, &[u8]); 3] = [
        ("call_ref in nine bytes", &[0x9a, 0, 0, 0, 0, 0, 0, 0, 0]),
        ("call_ref in five bytes", &[0x9a, 0, 0, 0, 0]),
        (
            "an address of eight bytes",
            &[0x03, 0, 0, 0, 0, 0, 0, 0, 0, 0x98, 0, 0],
        ),
    ];
    for (name, s) in cases {
        told(to, name, s, address_size, offset_size, big_endian)?;
    }
    Ok(())
}

fn main(rt: HostRuntime) -> io::Result<()> {
    let mut out = BufWriter::new(rt.alloc(), io::writer(&rt))?;
    printing::arguments(&rt, &mut out)?;
    writeln!(out, "# references of an expression, by the sizes told")?;
    for n in [0, 1, 2, 3, 4, 5, 7, 8, 9, 16, 255] {
        size(&mut out, n)?;
    }
    told(&mut out, "no operation", &[0xff], 3, 3, false)?;
    for big_endian in [false, true] {
        for address_size in [4, 8] {
            for offset_size in [4, 8] {
                widths(&mut out, address_size, offset_size, big_endian)?;
            }
        }
    }
    out.flush()
}
