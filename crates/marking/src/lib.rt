// Which entries of a unit survive: addresses, the root test, references, the analysis of a unit, and marking.
#![tactic(auto)]

pub mod addresses;
pub mod analysis;
pub mod columns;
mod keep_list;
pub mod marks;
mod named;
pub mod references;
pub mod root_test;
mod rules;
pub mod setting;
mod spread;
pub mod units;
