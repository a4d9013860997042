// Operations of expressions, and entries of range and location lists: a code and its row of operands.
ghost use Rattle.std.specs.Prelude.{◌≡◌};
ghost use Rattle.readers.specs.Operations.{operation_row, list_row};
ghost use Rattle.readers.specs.Fields.{row_at};
ghost use Rattle.readers.specs.Steps.{operation_at, list_entry_at, row_operation, row_entry};
ghost use Rattle.readers.specs.Inner.Steps.{one_operand, two_numbers_row, third_operand};
ghost use Rattle.readers.specs.declared.cursor.Encoding.{Encoding};

use crate::codes::{
    DW_OP_addr, DW_OP_addrx, DW_OP_breg31, DW_OP_call_frame_cfa, DW_OP_convert, DW_OP_entry_value,
    DW_OP_fbreg, DW_OP_lit0, DW_OP_piece, DW_OP_plus_uconst, DW_OP_reg31, DW_OP_stack_value,
    DW_RLE_end_of_list,
};
use crate::cursor::{Cursor, Encoding};
use crate::fields::{Field, Operands, number_field};
use crate::layouts::*;

// The row of operands of each operation, by its code (specs/Operations.antt).
static OPERATIONS: [u8; 256] = [
    ROW_UNREADABLE, // 0x00
    ROW_UNREADABLE, // 0x01
    ROW_UNREADABLE, // 0x02
    ROW_ADDRESS, // 0x03 DW_OP_addr
    ROW_UNREADABLE, // 0x04
    ROW_UNREADABLE, // 0x05
    ROW_NONE, // 0x06 DW_OP_deref
    ROW_UNREADABLE, // 0x07
    ROW_BYTES1, // 0x08 DW_OP_const1u
    ROW_BYTES1, // 0x09 DW_OP_const1s
    ROW_BYTES2, // 0x0a DW_OP_const2u
    ROW_BYTES2, // 0x0b DW_OP_const2s
    ROW_BYTES4, // 0x0c DW_OP_const4u
    ROW_BYTES4, // 0x0d DW_OP_const4s
    ROW_BYTES8, // 0x0e DW_OP_const8u
    ROW_BYTES8, // 0x0f DW_OP_const8s
    ROW_ULEB128, // 0x10 DW_OP_constu
    ROW_SLEB128, // 0x11 DW_OP_consts
    ROW_NONE, // 0x12 DW_OP_dup
    ROW_NONE, // 0x13 DW_OP_drop
    ROW_NONE, // 0x14 DW_OP_over
    ROW_BYTES1, // 0x15 DW_OP_pick
    ROW_NONE, // 0x16 DW_OP_swap
    ROW_NONE, // 0x17 DW_OP_rot
    ROW_NONE, // 0x18 DW_OP_xderef
    ROW_NONE, // 0x19 DW_OP_abs
    ROW_NONE, // 0x1a DW_OP_and
    ROW_NONE, // 0x1b DW_OP_div
    ROW_NONE, // 0x1c DW_OP_minus
    ROW_NONE, // 0x1d DW_OP_mod
    ROW_NONE, // 0x1e DW_OP_mul
    ROW_NONE, // 0x1f DW_OP_neg
    ROW_NONE, // 0x20 DW_OP_not
    ROW_NONE, // 0x21 DW_OP_or
    ROW_NONE, // 0x22 DW_OP_plus
    ROW_ULEB128, // 0x23 DW_OP_plus_uconst
    ROW_NONE, // 0x24 DW_OP_shl
    ROW_NONE, // 0x25 DW_OP_shr
    ROW_NONE, // 0x26 DW_OP_shra
    ROW_NONE, // 0x27 DW_OP_xor
    ROW_BYTES2, // 0x28 DW_OP_bra
    ROW_NONE, // 0x29 DW_OP_eq
    ROW_NONE, // 0x2a DW_OP_ge
    ROW_NONE, // 0x2b DW_OP_gt
    ROW_NONE, // 0x2c DW_OP_le
    ROW_NONE, // 0x2d DW_OP_lt
    ROW_NONE, // 0x2e DW_OP_ne
    ROW_BYTES2, // 0x2f DW_OP_skip
    ROW_NONE, // 0x30 DW_OP_lit0
    ROW_NONE, // 0x31 DW_OP_lit1
    ROW_NONE, // 0x32 DW_OP_lit2
    ROW_NONE, // 0x33 DW_OP_lit3
    ROW_NONE, // 0x34 DW_OP_lit4
    ROW_NONE, // 0x35 DW_OP_lit5
    ROW_NONE, // 0x36 DW_OP_lit6
    ROW_NONE, // 0x37 DW_OP_lit7
    ROW_NONE, // 0x38 DW_OP_lit8
    ROW_NONE, // 0x39 DW_OP_lit9
    ROW_NONE, // 0x3a DW_OP_lit10
    ROW_NONE, // 0x3b DW_OP_lit11
    ROW_NONE, // 0x3c DW_OP_lit12
    ROW_NONE, // 0x3d DW_OP_lit13
    ROW_NONE, // 0x3e DW_OP_lit14
    ROW_NONE, // 0x3f DW_OP_lit15
    ROW_NONE, // 0x40 DW_OP_lit16
    ROW_NONE, // 0x41 DW_OP_lit17
    ROW_NONE, // 0x42 DW_OP_lit18
    ROW_NONE, // 0x43 DW_OP_lit19
    ROW_NONE, // 0x44 DW_OP_lit20
    ROW_NONE, // 0x45 DW_OP_lit21
    ROW_NONE, // 0x46 DW_OP_lit22
    ROW_NONE, // 0x47 DW_OP_lit23
    ROW_NONE, // 0x48 DW_OP_lit24
    ROW_NONE, // 0x49 DW_OP_lit25
    ROW_NONE, // 0x4a DW_OP_lit26
    ROW_NONE, // 0x4b DW_OP_lit27
    ROW_NONE, // 0x4c DW_OP_lit28
    ROW_NONE, // 0x4d DW_OP_lit29
    ROW_NONE, // 0x4e DW_OP_lit30
    ROW_NONE, // 0x4f DW_OP_lit31
    ROW_NONE, // 0x50 DW_OP_reg0
    ROW_NONE, // 0x51 DW_OP_reg1
    ROW_NONE, // 0x52 DW_OP_reg2
    ROW_NONE, // 0x53 DW_OP_reg3
    ROW_NONE, // 0x54 DW_OP_reg4
    ROW_NONE, // 0x55 DW_OP_reg5
    ROW_NONE, // 0x56 DW_OP_reg6
    ROW_NONE, // 0x57 DW_OP_reg7
    ROW_NONE, // 0x58 DW_OP_reg8
    ROW_NONE, // 0x59 DW_OP_reg9
    ROW_NONE, // 0x5a DW_OP_reg10
    ROW_NONE, // 0x5b DW_OP_reg11
    ROW_NONE, // 0x5c DW_OP_reg12
    ROW_NONE, // 0x5d DW_OP_reg13
    ROW_NONE, // 0x5e DW_OP_reg14
    ROW_NONE, // 0x5f DW_OP_reg15
    ROW_NONE, // 0x60 DW_OP_reg16
    ROW_NONE, // 0x61 DW_OP_reg17
    ROW_NONE, // 0x62 DW_OP_reg18
    ROW_NONE, // 0x63 DW_OP_reg19
    ROW_NONE, // 0x64 DW_OP_reg20
    ROW_NONE, // 0x65 DW_OP_reg21
    ROW_NONE, // 0x66 DW_OP_reg22
    ROW_NONE, // 0x67 DW_OP_reg23
    ROW_NONE, // 0x68 DW_OP_reg24
    ROW_NONE, // 0x69 DW_OP_reg25
    ROW_NONE, // 0x6a DW_OP_reg26
    ROW_NONE, // 0x6b DW_OP_reg27
    ROW_NONE, // 0x6c DW_OP_reg28
    ROW_NONE, // 0x6d DW_OP_reg29
    ROW_NONE, // 0x6e DW_OP_reg30
    ROW_NONE, // 0x6f DW_OP_reg31
    ROW_SLEB128, // 0x70 DW_OP_breg0
    ROW_SLEB128, // 0x71 DW_OP_breg1
    ROW_SLEB128, // 0x72 DW_OP_breg2
    ROW_SLEB128, // 0x73 DW_OP_breg3
    ROW_SLEB128, // 0x74 DW_OP_breg4
    ROW_SLEB128, // 0x75 DW_OP_breg5
    ROW_SLEB128, // 0x76 DW_OP_breg6
    ROW_SLEB128, // 0x77 DW_OP_breg7
    ROW_SLEB128, // 0x78 DW_OP_breg8
    ROW_SLEB128, // 0x79 DW_OP_breg9
    ROW_SLEB128, // 0x7a DW_OP_breg10
    ROW_SLEB128, // 0x7b DW_OP_breg11
    ROW_SLEB128, // 0x7c DW_OP_breg12
    ROW_SLEB128, // 0x7d DW_OP_breg13
    ROW_SLEB128, // 0x7e DW_OP_breg14
    ROW_SLEB128, // 0x7f DW_OP_breg15
    ROW_SLEB128, // 0x80 DW_OP_breg16
    ROW_SLEB128, // 0x81 DW_OP_breg17
    ROW_SLEB128, // 0x82 DW_OP_breg18
    ROW_SLEB128, // 0x83 DW_OP_breg19
    ROW_SLEB128, // 0x84 DW_OP_breg20
    ROW_SLEB128, // 0x85 DW_OP_breg21
    ROW_SLEB128, // 0x86 DW_OP_breg22
    ROW_SLEB128, // 0x87 DW_OP_breg23
    ROW_SLEB128, // 0x88 DW_OP_breg24
    ROW_SLEB128, // 0x89 DW_OP_breg25
    ROW_SLEB128, // 0x8a DW_OP_breg26
    ROW_SLEB128, // 0x8b DW_OP_breg27
    ROW_SLEB128, // 0x8c DW_OP_breg28
    ROW_SLEB128, // 0x8d DW_OP_breg29
    ROW_SLEB128, // 0x8e DW_OP_breg30
    ROW_SLEB128, // 0x8f DW_OP_breg31
    ROW_REGISTER, // 0x90 DW_OP_regx
    ROW_SLEB128, // 0x91 DW_OP_fbreg
    ROW_REGISTER_SLEB128, // 0x92 DW_OP_bregx
    ROW_ULEB128, // 0x93 DW_OP_piece
    ROW_BYTES1, // 0x94 DW_OP_deref_size
    ROW_BYTES1, // 0x95 DW_OP_xderef_size
    ROW_NONE, // 0x96 DW_OP_nop
    ROW_NONE, // 0x97 DW_OP_push_object_address
    ROW_REFERENCE2, // 0x98 DW_OP_call2
    ROW_REFERENCE4, // 0x99 DW_OP_call4
    ROW_OFFSET, // 0x9a DW_OP_call_ref
    ROW_NONE, // 0x9b DW_OP_form_tls_address
    ROW_NONE, // 0x9c DW_OP_call_frame_cfa
    ROW_ULEB128_ULEB128, // 0x9d DW_OP_bit_piece
    ROW_BLOCK, // 0x9e DW_OP_implicit_value
    ROW_NONE, // 0x9f DW_OP_stack_value
    ROW_OFFSET_SLEB128, // 0xa0 DW_OP_implicit_pointer
    ROW_ADDRESS_INDEX, // 0xa1 DW_OP_addrx
    ROW_ULEB128, // 0xa2 DW_OP_constx
    ROW_EXPRESSION, // 0xa3 DW_OP_entry_value
    ROW_TYPE_BLOCK1, // 0xa4 DW_OP_const_type
    ROW_REGISTER_TYPE, // 0xa5 DW_OP_regval_type
    ROW_BYTES1_TYPE, // 0xa6 DW_OP_deref_type
    ROW_BYTES1_TYPE, // 0xa7 DW_OP_xderef_type
    ROW_TYPE, // 0xa8 DW_OP_convert
    ROW_TYPE, // 0xa9 DW_OP_reinterpret
    ROW_UNREADABLE, // 0xaa
    ROW_UNREADABLE, // 0xab
    ROW_UNREADABLE, // 0xac
    ROW_UNREADABLE, // 0xad
    ROW_UNREADABLE, // 0xae
    ROW_UNREADABLE, // 0xaf
    ROW_UNREADABLE, // 0xb0
    ROW_UNREADABLE, // 0xb1
    ROW_UNREADABLE, // 0xb2
    ROW_UNREADABLE, // 0xb3
    ROW_UNREADABLE, // 0xb4
    ROW_UNREADABLE, // 0xb5
    ROW_UNREADABLE, // 0xb6
    ROW_UNREADABLE, // 0xb7
    ROW_UNREADABLE, // 0xb8
    ROW_UNREADABLE, // 0xb9
    ROW_UNREADABLE, // 0xba
    ROW_UNREADABLE, // 0xbb
    ROW_UNREADABLE, // 0xbc
    ROW_UNREADABLE, // 0xbd
    ROW_UNREADABLE, // 0xbe
    ROW_UNREADABLE, // 0xbf
    ROW_UNREADABLE, // 0xc0
    ROW_UNREADABLE, // 0xc1
    ROW_UNREADABLE, // 0xc2
    ROW_UNREADABLE, // 0xc3
    ROW_UNREADABLE, // 0xc4
    ROW_UNREADABLE, // 0xc5
    ROW_UNREADABLE, // 0xc6
    ROW_UNREADABLE, // 0xc7
    ROW_UNREADABLE, // 0xc8
    ROW_UNREADABLE, // 0xc9
    ROW_UNREADABLE, // 0xca
    ROW_UNREADABLE, // 0xcb
    ROW_UNREADABLE, // 0xcc
    ROW_UNREADABLE, // 0xcd
    ROW_UNREADABLE, // 0xce
    ROW_UNREADABLE, // 0xcf
    ROW_UNREADABLE, // 0xd0
    ROW_UNREADABLE, // 0xd1
    ROW_UNREADABLE, // 0xd2
    ROW_UNREADABLE, // 0xd3
    ROW_UNREADABLE, // 0xd4
    ROW_UNREADABLE, // 0xd5
    ROW_UNREADABLE, // 0xd6
    ROW_UNREADABLE, // 0xd7
    ROW_UNREADABLE, // 0xd8
    ROW_UNREADABLE, // 0xd9
    ROW_UNREADABLE, // 0xda
    ROW_UNREADABLE, // 0xdb
    ROW_UNREADABLE, // 0xdc
    ROW_UNREADABLE, // 0xdd
    ROW_UNREADABLE, // 0xde
    ROW_UNREADABLE, // 0xdf
    ROW_NONE, // 0xe0 DW_OP_GNU_push_tls_address
    ROW_UNREADABLE, // 0xe1
    ROW_UNREADABLE, // 0xe2
    ROW_UNREADABLE, // 0xe3
    ROW_UNREADABLE, // 0xe4
    ROW_UNREADABLE, // 0xe5
    ROW_UNREADABLE, // 0xe6
    ROW_UNREADABLE, // 0xe7
    ROW_UNREADABLE, // 0xe8
    ROW_UNREADABLE, // 0xe9
    ROW_UNREADABLE, // 0xea
    ROW_UNREADABLE, // 0xeb
    ROW_UNREADABLE, // 0xec
    ROW_UNREADABLE, // 0xed
    ROW_UNREADABLE, // 0xee
    ROW_UNREADABLE, // 0xef
    ROW_UNREADABLE, // 0xf0
    ROW_UNREADABLE, // 0xf1
    ROW_OFFSET_SLEB128, // 0xf2 DW_OP_GNU_implicit_pointer
    ROW_EXPRESSION, // 0xf3 DW_OP_GNU_entry_value
    ROW_TYPE_BLOCK1, // 0xf4 DW_OP_GNU_const_type
    ROW_REGISTER_TYPE, // 0xf5 DW_OP_GNU_regval_type
    ROW_BYTES1_TYPE, // 0xf6 DW_OP_GNU_deref_type
    ROW_TYPE, // 0xf7 DW_OP_GNU_convert
    ROW_UNREADABLE, // 0xf8
    ROW_TYPE, // 0xf9 DW_OP_GNU_reinterpret
    ROW_REFERENCE4, // 0xfa DW_OP_GNU_parameter_ref
    ROW_ADDRESS_INDEX, // 0xfb DW_OP_GNU_addr_index
    ROW_ULEB128, // 0xfc DW_OP_GNU_const_index
    ROW_OFFSET, // 0xfd DW_OP_GNU_variable_value
    ROW_UNREADABLE, // 0xfe
    ROW_UNREADABLE, // 0xff
];

// The same for the kinds of range list entries, and of location list entries in version 5 and in version 4. No row is
// read for the kind that ends a list.
const RANGE_ENTRIES: [u8; 8] = [
    ROW_UNREADABLE, // 0x00 DW_RLE_end_of_list
    ROW_ULEB128, // 0x01 DW_RLE_base_addressx
    ROW_ULEB128_ULEB128, // 0x02 DW_RLE_startx_endx
    ROW_ULEB128_ULEB128, // 0x03 DW_RLE_startx_length
    ROW_ULEB128_ULEB128, // 0x04 DW_RLE_offset_pair
    ROW_ADDRESS, // 0x05 DW_RLE_base_address
    ROW_ADDRESS_ADDRESS, // 0x06 DW_RLE_start_end
    ROW_ADDRESS_ULEB128, // 0x07 DW_RLE_start_length
];

const LOCATION_ENTRIES: [u8; 9] = [
    ROW_UNREADABLE, // 0x00 DW_LLE_end_of_list
    ROW_ULEB128, // 0x01 DW_LLE_base_addressx
    ROW_ULEB128_ULEB128_EXPRESSION, // 0x02 DW_LLE_startx_endx
    ROW_ULEB128_ULEB128_EXPRESSION, // 0x03 DW_LLE_startx_length
    ROW_ULEB128_ULEB128_EXPRESSION, // 0x04 DW_LLE_offset_pair
    ROW_EXPRESSION, // 0x05 DW_LLE_default_location
    ROW_ADDRESS, // 0x06 DW_LLE_base_address
    ROW_ADDRESS_ADDRESS_EXPRESSION, // 0x07 DW_LLE_start_end
    ROW_ADDRESS_ULEB128_EXPRESSION, // 0x08 DW_LLE_start_length
];

const LOCATION_ENTRIES_4: [u8; 5] = [
    ROW_UNREADABLE, // 0x00 DW_LLE_GNU_end_of_list_entry
    ROW_ULEB128, // 0x01 DW_LLE_GNU_base_address_selection_entry
    ROW_ULEB128_ULEB128_BLOCK2, // 0x02 DW_LLE_GNU_start_end_entry
    ROW_ULEB128_BYTES4_BLOCK2, // 0x03 DW_LLE_GNU_start_length_entry
    ROW_BYTES4_BYTES4_BLOCK2, // 0x04 DW_LLE_GNU_offset_pair_entry
];

// An operation: its row, its first two operands, and the cursor past it.
#[derive(Clone, Copy)]
pub struct Operation {
    pub row: u8,
    pub first: Field,
    pub second: Field,
    pub next: Cursor,
}

// A list entry: its kind, its operands, and the cursor past it.
#[derive(Clone, Copy)]
pub struct ListEntry {
    pub kind: u8,
    pub first: Field,
    pub second: Field,
    pub third: Field,
    pub next: Cursor,
}

// One step through a list: an entry, or the list's end (its end entry, or the section's end between two entries).
#[derive(Clone, Copy)]
pub enum ListStep {
    Entry(ListEntry),
    End,
}

// The row of an operation code. The common codes are tested before the table is looked into.
pub fn operation_row(code: u8) -> u8
    ensures { result ≡ operation_row code }
{
    if code >= DW_OP_lit0 {
        if code <= DW_OP_reg31 {
            return ROW_NONE;
        }
        if code <= DW_OP_breg31 {
            return ROW_SLEB128;
        }
        if code == DW_OP_fbreg {
            return ROW_SLEB128;
        }
        if code == DW_OP_piece {
            return ROW_ULEB128;
        }
        if code == DW_OP_call_frame_cfa {
            return ROW_NONE;
        }
        if code == DW_OP_stack_value {
            return ROW_NONE;
        }
        if code == DW_OP_addrx {
            return ROW_ADDRESS_INDEX;
        }
        if code == DW_OP_entry_value {
            return ROW_EXPRESSION;
        }
        if code == DW_OP_convert {
            return ROW_TYPE;
        }
    }
    if code == DW_OP_addr {
        return ROW_ADDRESS;
    }
    if code == DW_OP_plus_uconst {
        return ROW_ULEB128;
    }
    let i = code as usize;
    OPERATIONS[i]
}

// The row of a list entry's kind, by the unit's version; unreadable for an unknown kind and for the end entry.
pub fn list_row(version: u16, location: bool, kind: u8) -> u8
    ensures { result ≡ list_row version location kind }
{
    let rows: &[u8] = if !location {
        &RANGE_ENTRIES
    } else if version == 4 {
        &LOCATION_ENTRIES_4
    } else {
        &LOCATION_ENTRIES
    };
    rows.get(kind as usize).copied().unwrap_or(ROW_UNREADABLE)
}

// An operation of one operand, or of none: the second field has no bytes.
fn one_operand(row: u8, read: Option<Field>) -> Option<Operation>
    ensures { result ≡ one_operand row read }
{
    let first = read?;
    let end = first.end;
    Some(Operation {
        row,
        first,
        second: Field {
            value: 0,
            start: end,
            end,
        },
        next: Cursor { at: end },
    })
}

// An operation with the operands of its row.
fn operation_of(row: u8, read: Option<Operands>) -> Option<Operation>
    ensures { result ≡ row_operation row read }
{
    let Operands {
        first,
        second,
        third,
    } = read?;
    Some(Operation {
        row,
        first,
        second,
        next: third.next(),
    })
}

// A list entry with the operands of its row.
fn entry_of(kind: u8, read: Option<Operands>) -> Option<ListStep>
    ensures { result ≡ row_entry kind read }
{
    let Operands {
        first,
        second,
        third,
    } = read?;
    Some(ListStep::Entry(ListEntry {
        kind,
        first,
        second,
        third,
        next: third.next(),
    }))
}

// A list entry of two operands and a third one.
fn third_operand(kind: u8, first: Field, second: Field, read: Option<Field>) -> Option<ListStep>
    ensures { result ≡ third_operand kind first second read }
{
    let third = read?;
    Some(ListStep::Entry(ListEntry {
        kind,
        first,
        second,
        third,
        next: third.next(),
    }))
}

impl Cursor {
    // The operation at a place. A nested expression is stepped over, not read.
    pub fn operation(self, s: &[u8], e: Encoding) -> Option<Operation>
        ensures { result ≡ operation_at e s.now self.at }
    {
        let at = self.at;
        if at >= s.len() {
            return None;
        }
        let row = operation_row(s[at]);
        let start = at + 1;
        // The commonest row is no arm of the match, where it took two fifths more instructions.
        if row == ROW_NONE {
            return one_operand(
                row,
                Some(Field {
                    value: 0,
                    start,
                    end: start,
                }),
            );
        }
        let operands = Cursor { at: start };
        match row {
            ROW_SLEB128 => one_operand(row, number_field(start, operands.sleb(s))),
            ROW_ULEB128 | ROW_TYPE | ROW_ADDRESS_INDEX => {
                one_operand(row, number_field(start, operands.uleb(s)))
            }
            ROW_ADDRESS => one_operand(row, number_field(start, operands.address(s, e))),
            ROW_EXPRESSION => one_operand(row, operands.exprloc(s)),
            _ => operation_of(row, operands.row(s, row, e)),
        }
    }

    // The entry of a range list, or of a location list, at a place.
    pub fn list_entry(self, s: &[u8], location: bool, e: Encoding) -> Option<ListStep>
        ensures { result ≡ list_entry_at e location s.now self.at }
    {
        let at = self.at;
        if at >= s.len() {
            return Some(ListStep::End);
        }
        let kind = s[at];
        if kind == DW_RLE_end_of_list {
            return Some(ListStep::End);
        }
        let row = list_row(e.version, location, kind);
        let start = at + 1;
        let operands = Cursor { at: start };
        match row {
            ROW_ULEB128_ULEB128 => operands.two_numbers(s, kind, false),
            ROW_ULEB128_ULEB128_EXPRESSION => operands.two_numbers(s, kind, true),
            _ => entry_of(kind, operands.row(s, row, e)),
        }
    }

    // A list entry whose operands are two ULEB128 numbers, and an expression behind them where there is one.
    fn two_numbers(self, s: &[u8], kind: u8, expression: bool) -> Option<ListStep>
        ensures { (e : Encoding) →
            result ≡ row_entry kind (row_at e s.now self.at (two_numbers_row expression)) }
    {
        let start = self.at;
        let (a, after) = self.uleb(s)?;
        let middle = after.at;
        let (b, last) = after.uleb(s)?;
        let end = last.at;
        let first = Field {
            value: a,
            start,
            end: middle,
        };
        let second = Field {
            value: b,
            start: middle,
            end,
        };
        if expression {
            return third_operand(kind, first, second, last.exprloc(s));
        }
        third_operand(
            kind,
            first,
            second,
            Some(Field {
                value: 0,
                start: end,
                end,
            }),
        )
    }
}
