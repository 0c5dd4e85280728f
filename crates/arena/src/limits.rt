//! The limits of document 01 and the sizes of what lies in lent words, each in this one place.

pub const MAX_QUBITS: u32 = 256;

pub const MAX_CBITS: u32 = 65536;

pub const MAX_NODES: u32 = 65536;

pub const MAX_OPERATIONS: u32 = 65536;

/// u32 words of a node.
pub const NODE_WORDS: usize = 2;
/// u32 words of an operation.
pub const OPERATION_WORDS: usize = 5;

/// Gate records of a list.
pub const MAX_GATES: u32 = 65536;

/// The last word of an operation that was added by hand.
pub const HAND_MARK: u32 = 4294967295;
