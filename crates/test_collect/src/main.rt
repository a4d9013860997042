// Prints what the arguments ask for, of kept cases, cases made by hand and bundles that thin reads; then padded
// numbers.
#![tactic(auto)]

use printing::answers::hex;
use std::io;
use std::io::{BufWriter, Write};

// A number in so many bytes at the start of a slice.
fn padded(to: &mut impl Write, value: u64, width: usize, out: &mut [u8]) -> io::Result<()> {
    write!(to, "padded {value} in {width} of {}", out.len())?;
    match rewriting::numbers::write_uleb128_padded(value, width, out) {
        Ok(()) => write!(to, " written")?,
        Err(refusal) => write!(to, " refused {refusal}")?,
    }
    hex(to, b"", out)?;
    writeln!(to)
}

// Numbers, each in so many bytes, at the start of the same slice.
fn each(to: &mut impl Write, out: &mut [u8], cases: &[(u64, usize)]) -> io::Result<()> {
    for (value, width) in cases {
        padded(to, *value, *width, out)?;
    }
    Ok(())
}

fn narrow(to: &mut impl Write) -> io::Result<()> {
    let three = [
        (16, 2),
        (127, 1),
        (128, 1),
        (128, 2),
        (0, 0),
        (0, 4),
        (0, 3),
    ];
    each(to, &mut [0xa5; 1], &[(0, 1)])?;
    each(to, &mut [0xa5; 3], &three)?;
    each(to, &mut [0xa5; 0], &[(0, 1), (0, 0)])
}

fn wide(to: &mut impl Write) -> io::Result<()> {
    let most = 0xffff_ffff_ffff_ffff;
    let mut more = [0xa5; 12];
    each(to, &mut more, &[(1, 10), (1, 11)])?;
    each(to, &mut [0xa5; 10], &[(most, 10), (most, 9)])?;
    each(to, &mut more, &[(0x8000_0000_0000_0000, 10)])?;
    let below = 0x7fff_ffff_ffff_ffff;
    each(to, &mut [0xa5; 9], &[(below, 9), (below, 10)])
}

// A number over twelve bytes that are not zeros.
fn filled(to: &mut impl Write, value: u64, width: usize) -> io::Result<()> {
    padded(to, value, width, &mut [0xa5; 12])
}

// Each width.
fn widths(to: &mut impl Write) -> io::Result<()> {
    for width in 0..14 {
        filled(to, 1, width)?;
    }
    filled(to, 1, 0xffff_ffff_ffff_ffff)
}

// Below and at each power of 128, and 2^64 - 1: its own width, and one byte less; the last also in one byte more.
fn borders(to: &mut impl Write) -> io::Result<()> {
    let cases = [
        (0x7f, 1),
        (0x80, 1),
        (0x80, 2),
        (0x3fff, 2),
        (0x4000, 2),
        (0x4000, 3),
        (0x1f_ffff, 3),
        (0x20_0000, 3),
        (0x20_0000, 4),
        (0xfff_ffff, 4),
        (0x1000_0000, 4),
        (0x1000_0000, 5),
        (0x7_ffff_ffff, 5),
        (0x8_0000_0000, 5),
        (0x8_0000_0000, 6),
        (0x3ff_ffff_ffff, 6),
        (0x400_0000_0000, 6),
        (0x400_0000_0000, 7),
        (0x1_ffff_ffff_ffff, 7),
        (0x2_0000_0000_0000, 7),
        (0x2_0000_0000_0000, 8),
        (0xff_ffff_ffff_ffff, 8),
        (0x100_0000_0000_0000, 8),
        (0x100_0000_0000_0000, 9),
        (0x7fff_ffff_ffff_ffff, 9),
        (0x8000_0000_0000_0000, 9),
        (0x8000_0000_0000_0000, 10),
        (0xffff_ffff_ffff_ffff, 9),
        (0xffff_ffff_ffff_ffff, 10),
        (0xffff_ffff_ffff_ffff, 11),
    ];
    for (value, width) in cases {
        filled(to, value, width)?;
    }
    Ok(())
}

// Slices that are one byte short, exactly full and one byte longer.
fn slices(to: &mut impl Write) -> io::Result<()> {
    padded(to, 300, 2, &mut [0xa5; 1])?;
    padded(to, 300, 2, &mut [0xa5; 2])?;
    padded(to, 300, 2, &mut [0xa5; 3])?;
    padded(to, 0, 10, &mut [0xa5; 9])?;
    padded(to, 0, 10, &mut [0xa5; 10])?;
    padded(to, 0, 10, &mut [0xa5; 11])
}

fn main(rt: HostRuntime) -> io::Result<()> {
    let mut out = BufWriter::new(rt.alloc(), io::writer(&rt))?;
    printing::arguments(&rt, &mut out)?;
    writeln!(out, "# padded numbers")?;
    narrow(&mut out)?;
    wide(&mut out)?;
    widths(&mut out)?;
    borders(&mut out)?;
    slices(&mut out)?;
    out.flush()
}
