// What the owner's calls answer. What they mean is in specs/: definitions that the code and the theorems share.
#![tactic(auto)]

use numbers::Numbers;

// A live document: its four numbers, the seconds that are left, none where it never expires, and where its value stands: a place and a
// length.
#[derive(Clone, Copy)]
pub struct Document {
    pub numbers: Numbers,
    pub left: Option<i64>,
    pub at: usize,
    pub len: usize,
}

// Why there is no live document to show: outcome 5, or status 0x01, for an expired document with the seconds that are left.
#[derive(Clone, Copy, Debug, PartialEq, Eq)]
pub enum ReadError {
    Damaged,
    Missing,
    Expired(i64),
}

// Why nothing was purged: outcome 5.
#[derive(Clone, Copy, Debug, PartialEq, Eq)]
pub enum PurgeError {
    Damaged,
}

// Why a table wasn't made active: outcome 5, or status 0x07.
#[derive(Clone, Copy, Debug, PartialEq, Eq)]
pub enum ActivateError {
    Damaged,
    Dead,
}

// Why no table was made: outcome 5. The row count, state or mode is out of range, or the memory has another size.
#[derive(Clone, Copy, Debug, PartialEq, Eq)]
pub enum MakeError {
    OutOfRange,
}
