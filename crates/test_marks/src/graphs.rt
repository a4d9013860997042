// The marks of small graphs, worked by hand from document 01.

use readers::offsets::NO_PARENT;
use std::io;
use std::io::Write;

// The letter of a mark: D dead, R retained, L live; 0 where a mark is zero.
fn letter(mark: u8) -> char {
    match mark {
        0 => '0',
        1 => 'D',
        2 => 'R',
        _ => 'L',
    }
}

// A graph: its name, parents, pairs and roots.
type Graph<'a> = (&'a str, &'a [u64], &'a [u64], &'a [u8]);

// The marks of each graph, all in the same bytes.
fn cases(to: &mut impl Write, marks: &mut [u8], graphs: &[Graph<'_>]) -> io::Result<()> {
    for (name, parents, pairs, roots) in graphs {
        match marking::marks::mark(parents, pairs, roots, marks) {
            Ok(n) => write!(to, "{name}: kept {n}")?,
            Err(refusal) => write!(to, "{name}: refused {refusal}")?,
        }
        for mark in marks.iter() {
            write!(to, " {}", letter(*mark))?;
        }
        writeln!(to)?;
    }
    Ok(())
}

// The five-entry unit under four address tables.
fn five(to: &mut impl Write) -> io::Result<()> {
    let none = NO_PARENT;
    let parents = [none, 0, 0, 0, 0];
    let pairs = [1u64, 3, 4, 2];
    cases(
        to,
        &mut [9; 5],
        &[
            ("five 01 00", &parents, &pairs, &[0, 1, 0, 0, 0]),
            ("five 00 00", &parents, &pairs, &[0, 0, 0, 0, 0]),
            ("five 00 01", &parents, &pairs, &[0, 0, 0, 0, 1]),
            ("five 01 01", &parents, &pairs, &[0, 1, 0, 0, 1]),
        ],
    )
}

// The first entry's mark, references of retained entries, and trees that are not one tree.
fn shapes(to: &mut impl Write) -> io::Result<()> {
    let none = NO_PARENT;
    cases(
        to,
        &mut [9; 2],
        &[
            ("first is a root", &[none, 0], &[], &[1, 0]),
            ("first names itself", &[none, 0], &[0, 0], &[0, 0]),
            ("a dead entry names the first", &[none, 0], &[1, 0], &[0, 0]),
            ("two trees", &[none, none], &[], &[0, 1]),
        ],
    )?;
    cases(
        to,
        &mut [9; 4],
        &[
            (
                "a retained entry's reference",
                &[none, 0, 1, 0],
                &[1, 3],
                &[0, 0, 1, 0],
            ),
            (
                "a chain of references back",
                &[none, 0, 0, 0],
                &[3, 2, 2, 1],
                &[0, 0, 0, 1],
            ),
            (
                "descendants of a named entry",
                &[none, 0, 1, 2],
                &[0, 1],
                &[0, 0, 0, 0],
            ),
        ],
    )?;
    cases(
        to,
        &mut [0; 0],
        &[
            ("no entries", &[], &[], &[]),
            ("no entries, an odd number", &[], &[7], &[]),
        ],
    )
}

// What is refused.
fn refusals(to: &mut impl Write) -> io::Result<()> {
    let none = NO_PARENT;
    cases(
        to,
        &mut [9; 2],
        &[
            ("a parent not below its child", &[none, 1], &[], &[0, 0]),
            (
                "a parent that is no entry",
                &[none, 0xffff_fffe],
                &[],
                &[0, 0],
            ),
            ("a pair leaves the tree", &[none, 0], &[0, 2], &[0, 0]),
            ("a root of 2", &[none, 0], &[], &[0, 2]),
            ("roots too few", &[none, 0], &[], &[0]),
            ("an odd last number", &[none, 0], &[0, 1, 9], &[0, 0]),
        ],
    )?;
    cases(
        to,
        &mut [9; 3],
        &[("marks too many", &[none, 0], &[], &[0, 0])],
    )?;
    cases(
        to,
        &mut [0; 0],
        &[("a pair without entries", &[], &[0, 0], &[])],
    )
}

// Indices of 64 bits: all ones are no parent, the largest of 32 bits is an index like any other, and a high word counts.
fn wide(to: &mut impl Write) -> io::Result<()> {
    let none = 0xffff_ffff_ffff_ffff;
    cases(
        to,
        &mut [9; 1],
        &[
            ("no parent", &[none], &[], &[0]),
            ("all ones of 32 bits", &[0xffff_ffff], &[], &[0]),
        ],
    )?;
    cases(
        to,
        &mut [9; 2],
        &[
            ("no parent, and a child", &[none, 0], &[], &[0, 1]),
            (
                "all ones of 32 bits as a parent",
                &[none, 0xffff_ffff],
                &[],
                &[0, 1],
            ),
            (
                "a parent with a high word",
                &[none, 0x1_0000_0000],
                &[],
                &[0, 1],
            ),
            (
                "a parent below no parent",
                &[none, 0xffff_ffff_ffff_fffe],
                &[],
                &[0, 1],
            ),
            (
                "a pair with a high word",
                &[none, none],
                &[0, 0x1_0000_0000],
                &[0, 0],
            ),
            (
                "a pair with a high word first",
                &[none, none],
                &[0x1_0000_0000, 1],
                &[0, 0],
            ),
            ("a pair of all ones", &[none, none], &[0, none], &[0, 0]),
            (
                "a pair of all ones of 32 bits",
                &[none, none],
                &[0, 0xffff_ffff],
                &[0, 0],
            ),
        ],
    )
}

// All of them.
pub fn print(to: &mut impl Write) -> io::Result<()> {
    five(to)?;
    shapes(to)?;
    refusals(to)?;
    wide(to)
}
