//! Packets whose fragments are incomplete.

/// The place of a record in a capture.
#[derive(Clone, Copy, Debug, PartialEq, Eq)]
pub struct RecordPlace {
    /// The number of its file, counted from 0.
    pub file: u64,
    /// Its number in this file, counted from 1.
    pub record: u64,
}

/// Packets of which only some fragments were captured.
#[derive(Clone, Copy, Debug, PartialEq, Eq)]
pub struct Incomplete {
    /// How many they are. The count stops at 2^64 - 1.
    pub packets: u64,
    /// The place of the first record that began one of them.
    pub first: RecordPlace,
}
