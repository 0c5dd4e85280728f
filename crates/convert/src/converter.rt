//! A conversion in the making. What its steps do: write.rt.

ghost use Rattle.std.specs.Prelude.{◌≡◌, true, ◌+◌, ◌*◌, ◌≤◌, length};
ghost use Rattle.arena.specs.Limits.{max_qubits, max_nodes, max_operations, node_words, operation_words};
ghost use Rattle.convert.specs.Planes.{part_words};
ghost use Rattle.convert.specs.Conversion.{max_gate_words};
ghost use Rattle.convert.specs.Code.Raw.{is_capped, Fits, needs_last};
ghost use Rattle.convert.specs.Code.Passed.{props};

use crate::flush::Used;

/// A conversion in the making: the lent words, the gates, which passed the checks, the qubits, the words of a part of the planes, the cap, and what is
/// used and measured so far. What the conversion needs fits the words lent.
#[derive(Drop)]
pub(crate) struct Converter<'a> {
    pub(crate) nodes: &'a mut [u32],
    pub(crate) operations: &'a mut [u32],
    pub(crate) frame: &'a mut [u32],
    pub(crate) planes: &'a mut [u64],
    pub(crate) gates: &'a [u32],
    pub(crate) qubits: usize,
    pub(crate) width: usize,
    pub(crate) cap: Option<u32>,
    pub(crate) used: Used,
    pub(crate) given: u32,
    ghost few: { qubits ≤ max_qubits },
    ghost parts: { width ≡ part_words qubits },
    ghost fits: { Fits qubits gates.now } by { Prim.hlevel props },
    ghost short: { length gates.now ≤ max_gate_words },
    ghost nodes_fit: { (needs_last qubits cap gates.now).nodes ≤ max_nodes },
    ghost nodes_lent: { node_words * (needs_last qubits cap gates.now).nodes ≤ length nodes.now },
    ghost operations_fit: { (needs_last qubits cap gates.now).operations ≤ max_operations },
    ghost operations_lent: { operation_words * (needs_last qubits cap gates.now).operations ≤ length operations.now },
    ghost room: { is_capped cap ≡ true → (qubits + qubits) * (width + width) ≤ length planes.now },
    ghost images: { qubits + qubits ≤ length frame.now },
}
