// An answer of collect as a number and bytes.
ghost use Rattle.std.specs.Prelude.{◌≡◌, ◌+◌, ◌*◌, ◌≤◌, length};
ghost use Rattle.readers.specs.Choice.{pick, zeros, put};
ghost use Rattle.marking.specs.Columns.{pad_to};
ghost use Rattle.rewriting.specs.Written.{run_bytes};
ghost use Rattle.collector.specs.Call.{count_of, presence_of, count_bytes, is_uncounted, accepted_counts, number_for, counts_for};

use readers::refusal::Refusal;
use readers::tables::clear_bytes;
use rewriting::collect::{Collected, Counts};
use rewriting::numbers::put_big_endian;

// The numbers of an accepted answer, above every refusal's, with and without room for the counts.
const UNTOUCHED: u64 = 256;

const REWRITTEN: u64 = 257;

// How many bytes the counts take: seven numbers of eight bytes, and a byte a list.
const COUNTS: usize = 59;

// A list's count as a number: 0 where it is absent.
fn count_of(list: Option<usize>) -> u64
    ensures { result ≡ count_of list }
{
    match list {
        Some(n) => n as u64,
        None => 0,
    }
}

// 1 where a list is present.
fn presence(list: Option<usize>) -> u64
    ensures { result ≡ presence_of list }
{
    match list {
        Some(_) => 1,
        None => 0,
    }
}

// Writes numbers of so many big-endian bytes each, one after the other, from a place on.
fn put_run(numbers: &[u64], width: usize, at: usize, counts: &mut [u8])
    ensures { at + width * length numbers.now ≤ length counts.old
        → counts.new ≡ put counts.old at (run_bytes width numbers.now) }
{
    let mut to = at;
    for number in numbers {
        if to > counts.len() || width > counts.len() - to {
            return;
        }
        put_big_endian(counts, to, width, *number);
        to += width;
    }
}

// The counts, in their order, and for each list whether it is present.
fn put_counts(c: Counts, counts: &mut [u8])
    ensures { 59 ≤ length counts.old → counts.old ≡ zeros (length counts.old)
        → counts.new ≡ pad_to (length counts.old) (count_bytes c) }
{
    let numbers = [
        c.entries as u64,
        c.kept as u64,
        c.places as u64,
        c.bytes as u64,
        count_of(c.ranges),
        count_of(c.locations),
        count_of(c.strings),
    ];
    let present = [
        presence(c.ranges),
        presence(c.locations),
        presence(c.strings),
    ];
    put_run(&numbers, 8, 0, counts);
    put_run(&present, 1, 56, counts);
}

// An accepted answer, with the counts where they have room, and another number where they have none.
fn accepted(number: u64, uncounted: u64, c: Counts, counts: &mut [u8]) -> u64
    ensures answer { result ≡ pick (is_uncounted (length counts.old)) uncounted number }
    ensures counts { counts.old ≡ zeros (length counts.old)
        → counts.new ≡ accepted_counts (length counts.old) c }
{
    if counts.len() < COUNTS {
        return uncounted;
    }
    put_counts(c, counts);
    number
}

// The number of an answer, and its counts; zeros after a refusal, and where they have no room.
pub(crate) fn give(answer: Result<Collected, Refusal>, counts: &mut [u8]) -> u64
    ensures answer { result ≡ number_for (length counts.old) answer }
    ensures counts { counts.new ≡ counts_for (length counts.old) answer }
{
    clear_bytes(counts);
    match answer {
        Ok(collected) => match collected {
            Collected::Untouched(c) => accepted(UNTOUCHED, UNTOUCHED + 2, c, counts),
            Collected::Rewritten(c) => accepted(REWRITTEN, REWRITTEN + 2, c, counts),
        },
        Err(refusal) => u64::from(refusal.number()),
    }
}
