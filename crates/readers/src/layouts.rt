// The tokens that forms, operations and list entries are laid out by, and the rows of tokens that are operands, each
// by its number (specs/Tokens.antt, specs/Operations.antt): one more than the one before it. No enums: `Cursor::field`
// and `Cursor::row` answer for every byte, the tables are bytes, and a token up to 8 is its own width.

// Tokens. Numbers of 1 to 8 bytes have the numbers 1 to 8.
pub const NO_BYTES: u8 = 0;

pub const BYTES1: u8 = NO_BYTES + 1;

pub const BYTES2: u8 = NO_BYTES + 2;

pub const BYTES3: u8 = NO_BYTES + 3;

pub const BYTES4: u8 = NO_BYTES + 4;

pub const BYTES8: u8 = NO_BYTES + 8;

pub const ADDRESS: u8 = BYTES8 + 1;

pub const OFFSET: u8 = ADDRESS + 1;

pub const ULEB128: u8 = OFFSET + 1;

pub const SLEB128: u8 = ULEB128 + 1;

pub const NULL_TERMINATED: u8 = SLEB128 + 1;

pub const DATA16: u8 = NULL_TERMINATED + 1;

pub const BLOCK1: u8 = DATA16 + 1;

pub const BLOCK2: u8 = BLOCK1 + 1;

pub const BLOCK4: u8 = BLOCK2 + 1;

pub const BLOCK_ULEB128: u8 = BLOCK4 + 1;

pub const EXPRLOC: u8 = BLOCK_ULEB128 + 1;

pub const REGISTER: u8 = EXPRLOC + 1;

pub const UNREADABLE: u8 = REGISTER + 1;

// Rows: the operands in their order.
pub const ROW_UNREADABLE: u8 = 0;

pub const ROW_NONE: u8 = ROW_UNREADABLE + 1;

pub const ROW_ADDRESS: u8 = ROW_NONE + 1;

pub const ROW_BYTES1: u8 = ROW_ADDRESS + 1;

pub const ROW_BYTES2: u8 = ROW_BYTES1 + 1;

pub const ROW_BYTES4: u8 = ROW_BYTES2 + 1;

pub const ROW_BYTES8: u8 = ROW_BYTES4 + 1;

pub const ROW_ULEB128: u8 = ROW_BYTES8 + 1;

pub const ROW_SLEB128: u8 = ROW_ULEB128 + 1;

pub const ROW_REGISTER: u8 = ROW_SLEB128 + 1;

pub const ROW_REGISTER_SLEB128: u8 = ROW_REGISTER + 1;

pub const ROW_ULEB128_ULEB128: u8 = ROW_REGISTER_SLEB128 + 1;

pub const ROW_REFERENCE2: u8 = ROW_ULEB128_ULEB128 + 1;

pub const ROW_REFERENCE4: u8 = ROW_REFERENCE2 + 1;

pub const ROW_TYPE: u8 = ROW_REFERENCE4 + 1;

pub const ROW_REGISTER_TYPE: u8 = ROW_TYPE + 1;

pub const ROW_BYTES1_TYPE: u8 = ROW_REGISTER_TYPE + 1;

pub const ROW_TYPE_BLOCK1: u8 = ROW_BYTES1_TYPE + 1;

pub const ROW_BLOCK: u8 = ROW_TYPE_BLOCK1 + 1;

pub const ROW_EXPRESSION: u8 = ROW_BLOCK + 1;

pub const ROW_OFFSET: u8 = ROW_EXPRESSION + 1;

pub const ROW_OFFSET_SLEB128: u8 = ROW_OFFSET + 1;

pub const ROW_ADDRESS_INDEX: u8 = ROW_OFFSET_SLEB128 + 1;

pub const ROW_ADDRESS_ADDRESS: u8 = ROW_ADDRESS_INDEX + 1;

pub const ROW_ADDRESS_ULEB128: u8 = ROW_ADDRESS_ADDRESS + 1;

pub const ROW_ULEB128_ULEB128_EXPRESSION: u8 = ROW_ADDRESS_ULEB128 + 1;

pub const ROW_ADDRESS_ADDRESS_EXPRESSION: u8 = ROW_ULEB128_ULEB128_EXPRESSION + 1;

pub const ROW_ADDRESS_ULEB128_EXPRESSION: u8 = ROW_ADDRESS_ADDRESS_EXPRESSION + 1;

pub const ROW_ULEB128_ULEB128_BLOCK2: u8 = ROW_ADDRESS_ULEB128_EXPRESSION + 1;

pub const ROW_ULEB128_BYTES4_BLOCK2: u8 = ROW_ULEB128_ULEB128_BLOCK2 + 1;

pub const ROW_BYTES4_BYTES4_BLOCK2: u8 = ROW_ULEB128_BYTES4_BLOCK2 + 1;
