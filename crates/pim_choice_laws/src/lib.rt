//! Laws on merges of chosen records. Nothing in this crate is to be called.
//!
//! A choice of records is a filter. A merge without those that are not chosen takes all others as
//! before, at the same moments (`choices_are_filters`). It ends in a fault where the merge of all
//! records does (`both_end_in_a_fault`). Neither merge ends at a time.
#![tactic(auto)]

pub mod laws;
