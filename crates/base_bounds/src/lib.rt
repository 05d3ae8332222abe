// The paper's bounds, each once: what stands elsewhere is set from these.
#![tactic(auto)]

// The fields of an item.
pub const FIELDS: u8 = 4;

// The items that a queue has room for.
pub const ROOM: u8 = 64;

// The most inputs, queues, variables and operators of a sheet.
pub const INPUTS: u8 = 4;

pub const QUEUES: u8 = 24;

pub const VARIABLES: u8 = 16;

pub const OPERATORS: u8 = 16;

// The most bytes of an input of a program.
pub const INPUT_BYTES: usize = 32768;
