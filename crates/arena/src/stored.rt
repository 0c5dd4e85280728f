//! The stored words of a circuit, read entry by entry: whether a used one is malformed, and the axis of an operation.

ghost use Rattle.std.specs.Prelude.{◌≡◌, true, false, ◌||◌, ℕ, ◌+◌, ◌*◌, ◌≤◌, ◌<◌, length, get_or};
ghost use Rattle.arena.specs.Limits.{max_qubits, node_words, operation_words};
ghost use Rattle.arena.specs.Nodes.{decode, node_at};
ghost use Rattle.arena.specs.Expansion.{is_malformed, any_malformed, bad_nodes, op_at, is_bad_op, is_no_source, is_bad_at, any_bad_op, bad_operations};
ghost use Rattle.arena.specs.Operations.{decode_op, source_of};
ghost use Rattle.arena.specs.Code.Stored.{is_product, is_single, is_identity, is_rotation, is_measurement, is_conditional, is_source};
ghost use Rattle.arena.specs.Store.{Header};
ghost use Rattle.arena.specs.Code.Roots.{weighed_at};

use crate::header::Header;
use crate::limits::{HAND_MARK, MAX_GATES, NODE_WORDS, OPERATION_WORDS};
use crate::op::{AxisKind, kind_of};

// A word, or 0 past the end.
fn word_at(words: &[u32], i: usize) -> u32
    ensures { result ≡ get_or words.now i 0 }
{
    words.get(i).copied().unwrap_or(0)
}

// ---- nodes: tests of their two words with no branch, so that a loop takes several nodes at a time

// A product of nodes older than i.
// kept: tests joined by & have no branch: the loop over nodes takes several at a time (docs/PROVING.md)
fn is_product(i: u32, first: u32, second: u32) -> bool
    ensures { result ≡ is_product i first second }
{
    (first % 4 == 2) & (first / 4 / 4 < i) & (second / 4 < i)
}

// kept: tests joined by & have no branch: the loop over nodes takes several at a time (docs/PROVING.md)
fn is_single(qubits: u32, first: u32, second: u32) -> bool
    ensures { result ≡ is_single qubits first second }
{
    (first % 4 == 1) & (1 <= first / 4) & (first / 4 <= 3) & (second < qubits)
}

// kept: tests joined by & have no branch: the loop over nodes takes several at a time (docs/PROVING.md)
fn is_identity(first: u32, second: u32) -> bool
    ensures { result ≡ is_identity first second }
{
    (first % 4 == 0) & (first / 4 == 0) & (second == 0)
}

fn is_malformed(qubits: u32, i: u32, first: u32, second: u32) -> bool
    ensures { result ≡ is_malformed (decode qubits i first second) }
{
    let product = is_product(i, first, second);
    let single = is_single(qubits, first, second);
    !(product | single | is_identity(first, second))
}

// Whether one of the first nodes is malformed.
// kept: the words are lent longer than what is used, and the header says how many are
fn any_malformed(qubits: u32, nodes: &[u32], count: u32) -> bool
    requires { node_words * count ≤ length nodes.now }
    ensures { result ≡ any_malformed (node_at qubits nodes.now) count }
{
    let mut any = false;
    for (i, &[first, second]) in nodes.as_chunks::<NODE_WORDS>().0[..count as usize]
        .iter()
        .enumerate()
    {
        any |= is_malformed(qubits, i as u32, first, second);
    }
    any
}

// Whether all nodes from one on are products: then those before it decide.
// kept: the words are lent longer than what is used, and the header says how many are; skip(from) makes an iterator of its own, no plainer
fn all_products(nodes: &[u32], from: u32, count: u32) -> bool
    requires { (from ≤ count) × (node_words * count ≤ length nodes.now) }
    ensures { (n : ℕ) → result ≡ true → any_malformed (node_at n nodes.now) from ≡ any_malformed (node_at n nodes.now) count }
{
    let mut all = true;
    let pairs = nodes.as_chunks::<NODE_WORDS>().0;
    // An index of 64 bits: with one of 32 the loop takes nearly three times the instructions.
    for i in from as usize..count as usize {
        let [first, second] = pairs[i];
        all &= is_product(i as u32, first, second);
    }
    all
}

// How many of the first nodes decide. In a circuit that was converted those are the ones of `Header::new`, since all later ones are products.
// kept: the words are lent longer than what is used, and the header says how many are
fn deciding(qubits: u32, nodes: &[u32], count: u32) -> u32
    requires { (qubits ≤ max_qubits) × (node_words * count ≤ length nodes.now) }
    ensures { (result ≤ count) × (any_malformed (node_at qubits nodes.now) result ≡ any_malformed (node_at qubits nodes.now) count) }
{
    let start = 1 + 2 * qubits;
    if count < start {
        return count;
    }
    if all_products(nodes, start, count) {
        return start;
    }
    count
}

// Whether the header or a used node stands in the way of a walk. O(nodes).
pub(crate) fn bad_nodes(header: Header, nodes: &[u32]) -> bool
    ensures { result ≡ bad_nodes header nodes.now }
{
    if header.breaks_limit() | header.exceeds_nodes(nodes.len()) {
        return true;
    }
    let count = deciding(header.qubits, nodes, header.nodes);
    any_malformed(header.qubits, nodes, count)
}

// ---- operations

// kept: tests joined by & have no branch, as those of nodes (docs/PROVING.md)
fn is_rotation(first: u32, measurement: u32, target: u32) -> bool
    ensures { result ≡ is_rotation first measurement target }
{
    (first % 4 == 0) & (first / 4 < 8) & (measurement == 0) & (target == 0)
}

// kept: tests joined by & have no branch, as those of nodes (docs/PROVING.md)
fn is_measurement(header: Header, first: u32, measurement: u32, target: u32) -> bool
    ensures { result ≡ is_measurement header first measurement target }
{
    (first % 4 == 1)
        & (first / 4 == 0)
        & (target <= header.cbits)
        & !(header.measurements <= measurement)
}

// kept: tests joined by & have no branch, as those of nodes (docs/PROVING.md)
fn is_conditional(header: Header, first: u32, measurement: u32, target: u32) -> bool
    ensures { result ≡ is_conditional header first measurement target }
{
    (first % 4 == 2) & (first / 4 < 8) & (target == 0) & !(header.measurements <= measurement)
}

// An index of a gate record, or the mark of an operation that was added by hand.
fn is_source(gate: u32) -> bool
    ensures { result ≡ is_source gate }
{
    (gate < MAX_GATES) | (gate == HAND_MARK)
}

// Whether the words of an operation are malformed, name an unused node or measurement, or end in no gate and no mark.
fn is_bad_op(
    header: Header,
    first: u32,
    axis: u32,
    measurement: u32,
    target: u32,
    gate: u32,
) -> bool
    ensures { result ≡ (is_bad_op header (decode_op header.owner header.cbits first axis measurement target) || is_no_source (source_of gate)) }
{
    let rotation = is_rotation(first, measurement, target);
    let measures = is_measurement(header, first, measurement, target);
    let formed = rotation | measures | is_conditional(header, first, measurement, target);
    !formed | (header.nodes <= axis / 4) | !is_source(gate)
}

// kept: the words are lent longer than what is used, and the header says how many are
fn is_bad_at(header: Header, operations: &[u32], index: u32) -> bool
    requires { operation_words * index + 4 < length operations.now }
    ensures { result ≡ is_bad_at header operations.now index }
{
    // kept: one record by its place, of lent flat words (no heap, C calls it so); a chunk of all is no shorter
    let at = OPERATION_WORDS * (index as usize);
    is_bad_op(
        header,
        operations[at],
        operations[at + 1],
        operations[at + 2],
        operations[at + 3],
        operations[at + 4],
    )
}

fn any_bad_op(header: Header, operations: &[u32]) -> bool
    requires { operation_words * header.operations ≤ length operations.now }
    ensures { result ≡ any_bad_op header operations.now header.operations }
{
    let mut any = false;
    for i in 0..header.operations {
        any |= is_bad_at(header, operations, i);
    }
    any
}

// Whether a used operation stands in the way of a walk over operations. O(operations), for a header within its limits.
pub(crate) fn bad_operations(header: Header, operations: &[u32]) -> bool
    ensures { result ≡ bad_operations header operations.now }
{
    if header.exceeds_operations(operations.len()) {
        return true;
    }
    any_bad_op(header, operations)
}

// The word of the axis of an operation that is not bad.
// kept: an operation by its place in lent words; its chunk is no shorter, and word_at is 0 past the end
pub(crate) fn axis_word(operations: &[u32], index: u32) -> usize
    ensures { (h : Header) → is_bad_op h (op_at h operations.now index) ≡ false → result ≡ (weighed_at h operations.now index).word }
{
    // kept: one record by its place, of lent flat words (no heap, C calls it so); a chunk of all is no shorter
    word_at(operations, OPERATION_WORDS * (index as usize) + 1) as usize
}

// The kind of the axis of an operation that is not bad.
// kept: an operation by its place in lent words; its chunk is no shorter, and word_at is 0 past the end
pub(crate) fn kind_at(operations: &[u32], index: u32) -> AxisKind
    ensures { (h : Header) → is_bad_op h (op_at h operations.now index) ≡ false → result ≡ (weighed_at h operations.now index).kind }
{
    // kept: one record by its place, of lent flat words (no heap, C calls it so); a chunk of all is no shorter
    let first = word_at(operations, OPERATION_WORDS * (index as usize));
    if first % 2 == 1 {
        return AxisKind::Measurement;
    }
    kind_of((first / 4 % 8) as u8)
}
