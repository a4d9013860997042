// Lent tables of numbers. One function for each width: `zeros` are numbers, which a type parameter's values are not.
ghost use Rattle.std.specs.Prelude.{◌≡◌, length};
ghost use Rattle.readers.specs.Choice.{zeros};

// Makes a table zeros.
pub fn clear(table: &mut [u64])
    ensures { table.new ≡ zeros (length table.old) }
{
    table.fill(0);
}

// The same for a table of entry indexes.
pub fn clear_indexes(table: &mut [u32])
    ensures { table.new ≡ zeros (length table.old) }
{
    table.fill(0);
}

// The same for bytes.
pub fn clear_bytes(table: &mut [u8])
    ensures { table.new ≡ zeros (length table.old) }
{
    table.fill(0);
}
