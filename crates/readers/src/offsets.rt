// Offsets within a unit and the indexes of its entries: two types, so that neither is ever taken for the other.

// An offset from the start of a unit.
#[derive(Clone, Copy)]
pub struct UnitOffset(pub u64);

// The place of an entry among a unit's entries, counted from 0.
#[derive(Clone, Copy)]
pub struct EntryIndex(pub u64);

// What stands for the parent of an entry that has none.
pub const NO_PARENT: u64 = 0xffff_ffff_ffff_ffff;
