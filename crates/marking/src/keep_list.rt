// A keep list: tags in ascending order, two big-endian bytes each, and for each tag a byte, its treatment.
ghost use Rattle.std.specs.Prelude.{◌≡◌, ◌+◌, ◌*◌, get_or};
ghost use Rattle.marking.specs.KeepList.{tags_in, keep_in, is_treatment, each_treats, ascends, keep_refusal, list_answer};
ghost use Rattle.marking.specs.KeepList.{treatment_of, treated};

use crate::addresses::Verdict;
use readers::refusal::{Cause, Refusal};

// The treatments of a tag: entries that have it are always roots, or never. No enum: hosts lend them as bytes (document
// 02, Point 10), and `treated` goes by the byte.
const ALWAYS_ROOT: u8 = 1;

const NEVER_ROOT: u8 = 2;

// A tag that is not listed.
const NO_TREATMENT: u8 = 0;

const TAG_SIZE: usize = 2;

fn is_treatment(k: u8) -> bool
    ensures { result ≡ is_treatment k }
{
    k == ALWAYS_ROOT || k == NEVER_ROOT
}

// Whether each treatment is one.
fn each_treats(treatments: &[u8]) -> bool
    ensures { result ≡ each_treats treatments.now }
{
    treatments.iter().all(|k| is_treatment(*k))
}

// The tag in its bytes.
fn tag_of(bytes: &[u8; TAG_SIZE]) -> u64
    ensures { result ≡ 256 * get_or bytes.now 0 0 + get_or bytes.now 1 0 }
{
    u64::from(u16::from_be_bytes(*bytes))
}

// Whether each tag is above the one before it.
fn tags_ascend(tags: &[u8]) -> bool
    ensures { result ≡ ascends 0 (tags_in tags.now) }
{
    let (listed, _) = tags.as_chunks::<TAG_SIZE>();
    let mut least: u64 = 0;
    for bytes in listed {
        let tag = tag_of(bytes);
        if tag < least {
            return false;
        }
        least = tag + 1;
    }
    true
}

// Refuses a list with 19 for its treatments, over the whole list, then with 20 for its tags.
pub(crate) fn judge(tags: &[u8], treatments: &[u8]) -> Result<(), Refusal>
    ensures { result ≡ list_answer (keep_refusal (keep_in tags.now treatments.now)) }
{
    if treatments.len() != tags.len() / TAG_SIZE || !each_treats(treatments) {
        return Err(Refusal(Cause::Treatment));
    }
    if !tags_ascend(tags) {
        return Err(Refusal(Cause::TagOrder));
    }
    Ok(())
}

// The treatment of a tag, by halves.
pub(crate) fn treatment(tags: &[u8], treatments: &[u8], tag: u64) -> u8
    requires { keep_refusal (keep_in tags.now treatments.now) ≡ 0 }
    ensures { result ≡ treatment_of (keep_in tags.now treatments.now) tag }
{
    let (listed, _) = tags.as_chunks::<TAG_SIZE>();
    match listed.binary_search_by_key(&tag, tag_of) {
        Ok(i) => treatments[i],
        Err(_) => NO_TREATMENT,
    }
}

// What a treatment makes of the root test's verdict. A refusal stays one.
pub(crate) fn treat(verdict: Result<Verdict, Refusal>, k: u8) -> Result<Verdict, Refusal>
    ensures { result ≡ treated k verdict }
{
    match verdict? {
        Verdict::Live => {
            if k == NEVER_ROOT {
                return Ok(Verdict::Dead);
            }
            Ok(Verdict::Live)
        }
        Verdict::Dead => {
            if k == ALWAYS_ROOT {
                return Ok(Verdict::Live);
            }
            Ok(Verdict::Dead)
        }
    }
}
