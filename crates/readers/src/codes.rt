// The codes of the standard, by its own names: those that the code uses. All operations stand in the table of
// operations.rt.

// Tags (DWARF 5, 7.5.3, table 7.3).
pub const DW_TAG_compile_unit: u64 = 0x11;

pub const DW_TAG_subprogram: u64 = 0x2e;

pub const DW_TAG_variable: u64 = 0x34;

// Whether an entry has children (7.5.3, table 7.4).
pub const DW_CHILDREN_yes: u64 = 0x01;

// Attribute names (7.5.4, table 7.5).
pub const DW_AT_sibling: u64 = 0x01;

pub const DW_AT_location: u64 = 0x02;

pub const DW_AT_low_pc: u64 = 0x11;

pub const DW_AT_ranges: u64 = 0x55;

pub const DW_AT_rnglists_base: u64 = 0x74;

pub const DW_AT_loclists_base: u64 = 0x8c;

// Forms (7.5.6, table 7.6), and one of GNU's split units.
pub const DW_FORM_addr: u64 = 0x01;

pub const DW_FORM_sdata: u64 = 0x0d;

pub const DW_FORM_ref_addr: u64 = 0x10;

pub const DW_FORM_ref1: u64 = 0x11;

pub const DW_FORM_ref_udata: u64 = 0x15;

pub const DW_FORM_indirect: u64 = 0x16;

pub const DW_FORM_sec_offset: u64 = 0x17;

pub const DW_FORM_exprloc: u64 = 0x18;

pub const DW_FORM_flag_present: u64 = 0x19;

pub const DW_FORM_strx: u64 = 0x1a;

pub const DW_FORM_addrx: u64 = 0x1b;

pub const DW_FORM_implicit_const: u64 = 0x21;

pub const DW_FORM_loclistx: u64 = 0x22;

pub const DW_FORM_rnglistx: u64 = 0x23;

pub const DW_FORM_strx1: u64 = 0x25;

pub const DW_FORM_strx4: u64 = 0x28;

pub const DW_FORM_addrx1: u64 = 0x29;

pub const DW_FORM_addrx4: u64 = 0x2c;

pub const DW_FORM_GNU_addr_index: u64 = 0x1f01;

pub const DW_FORM_GNU_str_index: u64 = 0x1f02;

// Operations (7.7.1, table 7.9): the common ones.
pub const DW_OP_addr: u8 = 0x03;

pub const DW_OP_plus_uconst: u8 = 0x23;

pub const DW_OP_lit0: u8 = 0x30;

pub const DW_OP_reg31: u8 = 0x6f;

pub const DW_OP_breg31: u8 = 0x8f;

pub const DW_OP_fbreg: u8 = 0x91;

pub const DW_OP_piece: u8 = 0x93;

pub const DW_OP_call_frame_cfa: u8 = 0x9c;

pub const DW_OP_stack_value: u8 = 0x9f;

pub const DW_OP_addrx: u8 = 0xa1;

pub const DW_OP_entry_value: u8 = 0xa3;

pub const DW_OP_convert: u8 = 0xa8;

// Kinds of location list entries (7.7.3, table 7.10).
pub const DW_LLE_base_addressx: u8 = 0x01;

pub const DW_LLE_default_location: u8 = 0x05;

pub const DW_LLE_base_address: u8 = 0x06;

// Kinds of range list entries (7.25, table 7.30).
pub const DW_RLE_end_of_list: u8 = 0x00;

pub const DW_RLE_base_addressx: u8 = 0x01;

pub const DW_RLE_startx_length: u8 = 0x03;

pub const DW_RLE_offset_pair: u8 = 0x04;

pub const DW_RLE_base_address: u8 = 0x05;

// Unit types (7.5.1, table 7.2).
pub const DW_UT_compile: u8 = 0x01;

pub const DW_UT_split_compile: u8 = 0x05;
