// Whether an address is live: by itself, or by the lent address table.
ghost use Rattle.std.specs.Prelude.{◌≡◌};
ghost use Rattle.marking.specs.Addresses.{is_tombstone, lookup_at};

use readers::refusal::{Cause, Refusal};

// What a test of liveness finds.
#[derive(Clone, Copy, PartialEq, Eq)]
pub enum Verdict {
    Live,
    Dead,
}

// Whether a linker put this address for code that it left out: 0, or all ones in the address's size.
pub fn is_tombstone(address: u64, size: u8) -> bool
    ensures { result ≡ is_tombstone address size }
{
    match size {
        4 => matches!(address, 0 | 0xffff_ffff),
        8 => matches!(address, 0 | 0xffff_ffff_ffff_ffff),
        _ => false,
    }
}

// An index of the address table, as gc.rs's `is_addr_live` answers it, one byte an index: 0 dead, 1 live; any other byte
// fails with 6, an index past its end with 17. Where the table is empty every index is live.
pub fn lookup(table: &[u8], index: u64) -> Result<Verdict, Refusal>
    ensures { result ≡ lookup_at table.now index }
{
    if table.len() == 0 {
        return Ok(Verdict::Live); // no address is known
    }
    if index >= (table.len() as u64) {
        return Err(Refusal(Cause::AddressTableShort));
    }
    let i = index as usize;
    let b = table[i];
    if b == 0 {
        return Ok(Verdict::Dead);
    }
    if b == 1 {
        return Ok(Verdict::Live);
    }
    Err(Refusal(Cause::AddressFlag))
}
