// What the programs print of bundles: of one on standard input, or of many that their arguments name.
#![tactic(auto)]

use crate::keep_list::{KeepList, MOST, NO_TAGS, TAG_BYTES, is_keep_list, read_list};
use crate::lengths::size;
use marking::setting::Setting;
use std::env::FillError;
use std::io::{Read, Write};
use std::rt::{Env, Files};
use std::{fs, io, str};

pub mod answers;
pub mod cases;
pub mod dump;
pub mod keep_list;
pub mod lengths;
pub mod marks;

// ---- what is printed

#[derive(Clone, Copy)]
pub enum Kind {
    Dump,
    Marks,
    Thin,
    Collect,
    Cases,
}

// By the numbers 1 and 2 a dump and marks; any other number thins.
impl From<u8> for Kind {
    fn from(number: u8) -> Kind {
        match number {
            1 => Kind::Dump,
            2 => Kind::Marks,
            _ => Kind::Thin,
        }
    }
}

// Bytes of the longest argument that is read.
const LONGEST: usize = 4096;

// ---- what is told of a unit

#[derive(Clone, Copy)]
pub struct Told<'a> {
    pub setting: Setting,
    pub keep: KeepList<'a>,
}

// The setting, and which argument has the keep list.
#[derive(Clone, Copy)]
struct Options {
    setting: Setting,
    keep: Option<usize>,
}

// Where nothing is told: no ranges base, little-endian, the roots that gc.rs finds, and no keep list.
const UNTOLD: Options = Options {
    setting: Setting {
        ranges_base: 0,
        big_endian: false,
        fixed_addresses: false,
    },
    keep: None,
};

// What argument i tells beside what these options told before; None where it is no option, or the same one again.
fn option(word: &[u8], i: usize, o: Options) -> Option<Options> {
    let mut next = o;
    match word {
        b"--big-endian" if !o.setting.big_endian => next.setting.big_endian = true,
        b"--fixed-addresses" if !o.setting.fixed_addresses => next.setting.fixed_addresses = true,
        _ if o.keep.is_none() && is_keep_list(word) => next.keep = Some(i),
        _ => return None,
    }
    Some(next)
}

// What all the arguments tell: each is an option, and none is there twice. One that is too long is no option.
fn all_options(rt: &impl Env) -> Option<Options> {
    let mut told = UNTOLD;
    for i in 1..usize::MAX {
        let mut word = [0u8; LONGEST];
        match rt.arg(i, &mut word) {
            Ok(length) => told = option(&word[..length], i, told)?,
            Err(FillError::TooLong) => return None,
            Err(FillError::NotPresent) => return Some(told),
        }
    }
    Some(told)
}

// The keep list of argument i, written into these; none where there is no argument i.
fn keep_list_of<'a>(
    rt: &impl Env,
    i: usize,
    tags: &'a mut [u8; TAG_BYTES],
    treatments: &'a mut [u8; MOST],
) -> KeepList<'a> {
    let mut word = [0u8; LONGEST];
    let Ok(length) = rt.arg(i, &mut word) else {
        return NO_TAGS;
    };
    read_list(&word[..length], tags, treatments).unwrap_or(NO_TAGS)
}

// What options tell, with the keep list written into these.
fn told_of<'a>(
    rt: &impl Env,
    o: Options,
    tags: &'a mut [u8; TAG_BYTES],
    treatments: &'a mut [u8; MOST],
) -> Told<'a> {
    let keep = match o.keep {
        Some(i) => keep_list_of(rt, i, tags, treatments),
        None => NO_TAGS,
    };
    Told {
        setting: o.setting,
        keep,
    }
}

// ---- bundles

// Of one bundle: what it holds, its marks, or what becomes of it.
fn bundle(to: &mut impl Write, s: &[u8], kind: Kind, told: Told<'_>) -> io::Result<()> {
    match kind {
        Kind::Dump => dump::dump(to, s, told.setting.big_endian),
        Kind::Marks => marks::list(to, s, told),
        Kind::Thin | Kind::Collect | Kind::Cases => answers::thin(to, s, told),
    }
}

// Prints each bundle, after a line with its place in the file.
fn list_all<W: Write, F: Fn(&mut W, &[u8]) -> io::Result<()>>(
    to: &mut W,
    s: &[u8],
    each: F,
) -> io::Result<()>
    requires { F.IsAlwaysCallable each }
{
    let mut rest = s;
    // No for: each bundle says where the next one starts.
    while !rest.is_empty() {
        writeln!(to, "-- {}", s.len() - rest.len())?;
        let (first, behind) = rest.split_at(size(rest));
        each(to, first)?;
        rest = behind;
    }
    Ok(())
}

// A file is one bundle to dump and thin, bundles one after another to marks and collect, cases of collect to cases;
// these say themselves what is told of their units.
fn file<W: Write>(to: &mut W, s: &[u8], kind: Kind, told: Told<'_>) -> io::Result<()> {
    match kind {
        Kind::Marks => list_all(to, s, |to, first| marks::list(to, first, told)),
        Kind::Collect => list_all(to, s, |to, first| answers::answer(to, first, told)),
        Kind::Cases => cases::list_all(to, s),
        Kind::Dump | Kind::Thin => bundle(to, s, kind, told),
    }
}

// The first bytes of an input, as many as there are up to so many; a read that fails is an error.
fn first_bytes<R: Alloc>(rt: &R, input: impl Read + Drop, most: u64) -> io::Result<Vec<u8, R::A>> {
    let mut bytes = Vec::new(rt.alloc());
    input.take(most).read_to_end(&mut bytes)?;
    Ok(bytes)
}

// Prints what is asked of the bundle on standard input. Its unit is little-endian, with the argument `--big-endian`
// big-endian; with `--fixed-addresses` a variable's location can make it a root by an address too; with `--keep-list=`
// and tags, entries with these are always roots, or never. With any other arguments nothing is read.
pub fn standard_input<R: Env + Input + Alloc>(
    rt: &R,
    to: &mut impl Write,
    kind: impl Into<Kind>,
) -> io::Result<()> {
    let kind = kind.into();
    let Some(o) = all_options(rt) else {
        return writeln!(
            to,
            "arguments: none, or some of --big-endian, --fixed-addresses, --keep-list=TAG=TREATMENT,.."
        );
    };
    let input = first_bytes(rt, rt.reader(), 65537)?;
    let mut tags = [0; TAG_BYTES];
    let mut treatments = [0; MOST];
    bundle(to, &input, kind, told_of(rt, o, &mut tags, &mut treatments))
}

// Prints a file, after a line with its name. What can't be opened is no file, and so is a name that is not UTF-8.
fn file_at<R: Files + Env + Alloc>(
    rt: &R,
    to: &mut impl Write,
    path: &[u8],
    kind: Kind,
    o: Options,
) -> io::Result<()> {
    to.write_all(b"== ")?;
    to.write_all(path)?;
    to.write_all(b"\n")?;
    let Ok(name) = str::from_utf8(path) else {
        return writeln!(to, "no such file");
    };
    let Ok(opened) = fs::open(rt, name) else {
        return writeln!(to, "no such file");
    };
    let input = first_bytes(rt, opened, 262144)?;
    let mut tags = [0; TAG_BYTES];
    let mut treatments = [0; MOST];
    file(to, &input, kind, told_of(rt, o, &mut tags, &mut treatments))
}

// ---- arguments

// What is asked for: what is printed of the files that follow, and what is told of their units.
#[derive(Clone, Copy)]
struct Asked {
    kind: Kind,
    options: Options,
}

// What a word asks to be printed, if it is one of the words.
fn kind_of(word: &[u8]) -> Option<Kind> {
    match word {
        b"dump" => Some(Kind::Dump),
        b"marks" => Some(Kind::Marks),
        b"thin" => Some(Kind::Thin),
        b"collect" => Some(Kind::Collect),
        b"cases" => Some(Kind::Cases),
        _ => None,
    }
}

// Argument i after those before it: a heading, an option, a word, or a file. Answers what is asked for from then on. A
// keep list holds up to the next one.
fn argument<R: Files + Env + Alloc>(
    rt: &R,
    to: &mut impl Write,
    word: &[u8],
    i: usize,
    a: Asked,
) -> io::Result<Asked> {
    if word.starts_with(b"#") {
        to.write_all(word)?;
        to.write_all(b"\n")?;
        return Ok(a);
    }
    if let Some(options) = option(word, i, a.options) {
        return Ok(Asked { options, ..a });
    }
    if is_keep_list(word) {
        let options = Options {
            keep: Some(i),
            ..a.options
        };
        return Ok(Asked { options, ..a });
    }
    if let Some(kind) = kind_of(word) {
        return Ok(Asked {
            kind,
            options: UNTOLD,
        });
    }
    file_at(rt, to, word, a.kind, a.options)?;
    Ok(a)
}

// Prints what the program's arguments ask for: `# ..` is a heading, printed as it is; `dump`, `marks`, `thin`,
// `collect` or `cases` says what is printed of the files that the arguments after it name; options after it what is
// told of their units. The arguments end before the first one that is empty or too long.
pub fn arguments<R: Files + Env + Alloc>(rt: &R, to: &mut impl Write) -> io::Result<()> {
    let mut a = Asked {
        kind: Kind::Dump,
        options: UNTOLD,
    };
    for i in 1..10000 {
        let mut word = [0u8; LONGEST];
        match rt.arg(i, &mut word) {
            Ok(length) if length > 0 => a = argument(rt, to, &word[..length], i, a)?,
            _ => return Ok(()),
        }
    }
    Ok(())
}
