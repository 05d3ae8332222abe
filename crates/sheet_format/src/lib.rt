// The record format: its sizes; the rest of it is definitions, and laws both ways.
#![tactic(auto)]

// A record's body length and kind, which stand before its body.
pub const HEADER: usize = 4;

// The head's body, and its whole record.
pub const HEAD_BODY: usize = 4;

pub const HEAD_BYTES: usize = HEADER + HEAD_BODY;
