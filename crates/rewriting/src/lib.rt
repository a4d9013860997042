// Rewriting, by its passes: the kept items of a unit, index lists, new offsets (the map), emission; and collect.
#![tactic(auto)]

pub mod collect;
pub mod emit_entry;
pub mod emit_unit;
pub mod gathering;
pub mod hints;
pub mod indices;
pub mod kept_items;
pub mod lists;
pub mod map;
pub mod numbers;
pub mod offset_pass;
pub mod rows;
pub mod siblings;
pub mod work_column;
