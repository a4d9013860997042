// Readers of DWARF 5 units: numbers, headers, abbreviations, attributes, entries, expressions and lists, over lent
// slices.
#![tactic(auto)]

pub mod abbreviations;
pub mod attributes;
pub mod codes;
pub mod cursor;
pub mod entries;
pub mod entry_attributes;
pub mod expressions;
pub mod fields;
pub mod header;
pub mod layouts;
pub mod lists;
pub mod offsets;
pub mod operations;
pub mod refusal;
mod slots;
pub mod tables;
