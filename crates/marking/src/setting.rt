// What a call tells of a unit beside its sections.
#[derive(Clone, Copy)]
pub struct Setting {
    // added to a ranges attribute in sec_offset
    pub ranges_base: u64,
    // the byte order of the unit, its lists and its expressions
    pub big_endian: bool,
    // whether an address in a variable's location, DW_OP_addr, can make it a root; gc.rs knows no such roots
    pub fixed_addresses: bool,
}
