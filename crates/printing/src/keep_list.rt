// A keep list in a word: `--keep-list=` and `TAG=TREATMENT` for each tag, with commas between them; each number is
// decimal, or hexadecimal behind `0x`. A word with no tag tells no list. What is told is lent as it stands: neither the
// order of the tags nor the treatments are looked at.
ghost use Rattle.std.specs.Prelude.{◌≤◌};

use std::str;

// A word has at most 4,096 bytes, so it has fewer tags.
pub(crate) const MOST: usize = 1024;

// Bytes of so many tags.
pub(crate) const TAG_BYTES: usize = 2048;

// ---- numbers

// A number of at most 16 bits, its digits in front, and what stands behind them.
fn digits(s: &[u8], base: u32) -> Option<(u16, &[u8])>
    requires low { 2 ≤ base }
    requires high { base ≤ 36 }
{
    let n = s
        .iter()
        .position(|byte| !char::from(*byte).is_digit(base))
        .unwrap_or(s.len());
    let (digits, behind) = s.split_at(n);
    let value = u16::from_str_radix(str::from_utf8(digits).ok()?, base).ok()?;
    Some((value, behind))
}

fn number(s: &[u8]) -> Option<(u16, &[u8])> {
    match s.strip_prefix(b"0x") {
        Some(hexadecimal) => digits(hexadecimal, 16),
        None => digits(s, 10),
    }
}

// ---- tags and treatments

// A keep list: two big-endian bytes for each tag, and a byte for each treatment.
#[derive(Clone, Copy)]
pub struct KeepList<'a> {
    pub tags: &'a [u8],
    pub treatments: &'a [u8],
}

// The list that has no tags.
pub(crate) const NO_TAGS: KeepList<'static> = KeepList {
    tags: &[],
    treatments: &[],
};

// A tag, its treatment, and what stands behind them.
fn pair(s: &[u8]) -> Option<(u16, u8, &[u8])> {
    let (tag, behind) = number(s)?;
    let (treatment, behind) = number(behind.strip_prefix(b"=")?)?;
    Some((tag, u8::try_from(treatment).ok()?, behind))
}

fn pairs<'a>(
    s: &[u8],
    tags: &'a mut [u8; TAG_BYTES],
    treatments: &'a mut [u8; MOST],
) -> Option<KeepList<'a>> {
    let mut rest = s;
    for n in 0..MOST {
        let (tag, treatment, behind) = pair(rest)?;
        tags[2 * n..2 * n + 2].copy_from_slice(&tag.to_be_bytes());
        treatments[n] = treatment;
        if behind.is_empty() {
            return Some(KeepList {
                tags: &tags[..2 * n + 2],
                treatments: &treatments[..n + 1],
            });
        }
        rest = behind.strip_prefix(b",")?;
    }
    None
}

// The list that a word tells, written into these.
pub(crate) fn read_list<'a>(
    word: &[u8],
    tags: &'a mut [u8; TAG_BYTES],
    treatments: &'a mut [u8; MOST],
) -> Option<KeepList<'a>> {
    let list = word.strip_prefix(b"--keep-list=")?;
    if list.is_empty() {
        return Some(NO_TAGS);
    }
    pairs(list, tags, treatments)
}

// Whether a word tells a list.
pub(crate) fn is_keep_list(word: &[u8]) -> bool {
    read_list(word, &mut [0; TAG_BYTES], &mut [0; MOST]).is_some()
}
