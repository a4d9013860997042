// The collector for hosts in C: include/collector.h declares these calls.
#![tactic(auto)]

pub mod answers;
pub mod calls;
pub mod own_tables;
