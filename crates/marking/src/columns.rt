// The place of an entry in the columns of lent tables.
ghost use Rattle.std.specs.Prelude.{◌≡◌};

use readers::offsets::EntryIndex;

// The place of an entry in the columns of an entry table.
pub fn place(i: EntryIndex) -> usize
    ensures { result ≡ i.0 }
{
    i.0 as usize
}
