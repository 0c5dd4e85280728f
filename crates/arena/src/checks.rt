//! The checks of each call, in document 01's order.

ghost use Rattle.std.specs.Prelude.{◌≡◌, ◌||◌, ◌*◌, ltb};
ghost use Rattle.arena.specs.Errors.{Fine, BadStore, ForeignPauli, NoOperations, ◌⟫◌⇒◌};
ghost use Rattle.arena.specs.Store.{target_bit, target_outside, breaks_limit, exceeds_nodes, no_operation_room, foreign};
ghost use Rattle.arena.specs.Builder.{nodes_for, new_check, single_check, product_check, axis_check, rotate_check, measure_check, conditional_check};
ghost use Rattle.arena.specs.Expansion.{bad_nodes, bad_operations, expand_check, hermitian_check, report_check, axes_size, axes_check};

use crate::error::{PbcError, refuse_if};
use crate::header::Header;
use crate::limits::{MAX_CBITS, MAX_QUBITS, NODE_WORDS};
use crate::op::MeasId;
use crate::pauli_ref::{PauliAxis, PauliRef};
use crate::stored::{bad_nodes, bad_operations};
use pauli::Pauli;

// The nodes that a letter adds.
pub(crate) fn nodes_for(pauli: Pauli) -> u32
    ensures { result ≡ nodes_for pauli }
{
    match pauli {
        Pauli::I => 0,
        Pauli::X => 1,
        Pauli::Y => 1,
        Pauli::Z => 1,
    }
}

fn target_outside(header: Header, target: Option<u32>) -> bool
    ensures { result ≡ target_outside header target }
{
    target.is_some_and(|bit| header.cbits <= bit)
}

fn target_bit(target: Option<u32>) -> u32
    ensures { result ≡ target_bit target }
{
    target.unwrap_or(0)
}

pub(crate) fn check_new(qubits: u32, cbits: u32, nodes: usize, frame: usize) -> Result<(), PbcError>
    ensures { result ≡ new_check qubits cbits nodes frame }
{
    refuse_if(
        (MAX_QUBITS < qubits) | (MAX_CBITS < cbits),
        PbcError::TooManyQubits,
    )?;
    refuse_if(frame < 2 * (qubits as usize), PbcError::NoFrame)?;
    refuse_if(
        nodes / NODE_WORDS < 1 + 2 * (qubits as usize),
        PbcError::NoNodes,
    )
}

// What a call that adds a node asks first.
fn check_nodes(header: Header, nodes: usize) -> Result<(), PbcError>
    ensures { result ≡ (Fine ⟫ breaks_limit header || exceeds_nodes header nodes ⇒ BadStore) }
{
    refuse_if(
        header.breaks_limit() | header.exceeds_nodes(nodes),
        PbcError::BadStore,
    )
}

// kept: what was alike is check_nodes; the rows after it differ
pub(crate) fn check_single(
    header: Header,
    nodes: usize,
    qubit: u32,
    pauli: Pauli,
) -> Result<(), PbcError>
    ensures { result ≡ single_check header nodes qubit pauli }
{
    check_nodes(header, nodes)?;
    refuse_if(
        header.qubits <= qubit,
        PbcError::QubitOutOfRange {
            index: 0,
            qubit: qubit as u64,
        },
    )?;
    refuse_if(
        header.no_node_room(nodes, nodes_for(pauli)),
        PbcError::NoNodes,
    )
}

// kept: what was alike is check_nodes; the rows after it differ
pub(crate) fn check_product(
    header: Header,
    nodes: usize,
    left: PauliRef,
    right: PauliRef,
) -> Result<(), PbcError>
    ensures { result ≡ product_check header nodes left right }
{
    check_nodes(header, nodes)?;
    refuse_if(
        header.is_foreign(left) | header.is_foreign(right),
        PbcError::ForeignPauli,
    )?;
    refuse_if(header.no_node_room(nodes, 1), PbcError::NoNodes)
}

// What a call that adds an operation asks first.
fn check_axis(header: Header, operations: usize, axis: PauliAxis) -> Result<(), PbcError>
    ensures { result ≡ axis_check header operations axis }
{
    refuse_if(
        header.breaks_limit() | header.exceeds_operations(operations),
        PbcError::BadStore,
    )?;
    refuse_if(header.is_foreign(axis.as_ref()), PbcError::ForeignPauli)
}

// What such a call asks last.
fn check_room(header: Header, operations: usize) -> Result<(), PbcError>
    ensures { result ≡ (Fine ⟫ no_operation_room header operations 1 ⇒ NoOperations) }
{
    refuse_if(
        header.no_operation_room(operations, 1),
        PbcError::NoOperations,
    )
}

// kept: what was alike is check_axis and check_room
pub(crate) fn check_rotate(
    header: Header,
    operations: usize,
    axis: PauliAxis,
) -> Result<(), PbcError>
    ensures { result ≡ rotate_check header operations axis }
{
    check_axis(header, operations, axis)?;
    check_room(header, operations)
}

// kept: what was alike is check_axis and check_room; the row between differs
pub(crate) fn check_measure(
    header: Header,
    operations: usize,
    axis: PauliAxis,
    target: Option<u32>,
) -> Result<(), PbcError>
    ensures { result ≡ measure_check header operations axis target }
{
    let bit = target_bit(target);
    check_axis(header, operations, axis)?;
    refuse_if(
        target_outside(header, target),
        PbcError::ClassicalBitOutOfRange {
            index: 0,
            bit: bit as u64,
        },
    )?;
    check_room(header, operations)
}

// kept: what was alike is check_axis and check_room; the row between differs
pub(crate) fn check_conditional(
    header: Header,
    operations: usize,
    axis: PauliAxis,
    outcome: MeasId,
) -> Result<(), PbcError>
    ensures { result ≡ conditional_check header operations axis outcome }
{
    check_axis(header, operations, axis)?;
    refuse_if(header.is_unknown(outcome), PbcError::UnknownMeasurement)?;
    check_room(header, operations)
}

// What a reader of one reference asks first.
fn check_reference(header: Header, nodes: &[u32], reference: PauliRef) -> Result<(), PbcError>
    ensures { result ≡ (Fine ⟫ bad_nodes header nodes.now ⇒ BadStore ⟫ foreign header reference ⇒ ForeignPauli) }
{
    refuse_if(bad_nodes(header, nodes), PbcError::BadStore)?;
    refuse_if(header.is_foreign(reference), PbcError::ForeignPauli)
}

// A walk has four words for each used node.
fn short_scratch(header: Header, scratch: usize) -> bool
    ensures { result ≡ ltb scratch (4 * header.nodes) }
{
    scratch < 4 * (header.nodes as usize)
}

// kept: what was alike is check_reference and short_scratch
pub(crate) fn check_expand(
    header: Header,
    nodes: &[u32],
    reference: PauliRef,
    letters: usize,
    scratch: usize,
) -> Result<(), PbcError>
    ensures { result ≡ expand_check header nodes.now reference letters scratch }
{
    check_reference(header, nodes, reference)?;
    refuse_if(
        short_scratch(header, scratch) | (letters < (header.qubits as usize)),
        PbcError::NoScratch,
    )
}

// kept: what was alike is check_reference and short_scratch
pub(crate) fn check_hermitian(
    header: Header,
    nodes: &[u32],
    reference: PauliRef,
    scratch: usize,
) -> Result<(), PbcError>
    ensures { result ≡ hermitian_check header nodes.now reference scratch }
{
    check_reference(header, nodes, reference)?;
    refuse_if(short_scratch(header, scratch), PbcError::NoScratch)
}

// What a reader of all operations asks first.
fn check_words(header: Header, nodes: &[u32], operations: &[u32]) -> Result<(), PbcError>
    ensures { result ≡ (Fine ⟫ bad_nodes header nodes.now || bad_operations header operations.now ⇒ BadStore) }
{
    refuse_if(
        bad_nodes(header, nodes) | bad_operations(header, operations),
        PbcError::BadStore,
    )
}

// kept: what was alike is check_words and short_scratch
pub(crate) fn check_report(
    header: Header,
    nodes: &[u32],
    operations: &[u32],
    scratch: usize,
) -> Result<(), PbcError>
    ensures { result ≡ report_check header nodes.now operations.now scratch }
{
    check_words(header, nodes, operations)?;
    refuse_if(short_scratch(header, scratch), PbcError::NoScratch)
}

// The bytes of the rows of all operations.
pub(crate) fn axes_size(header: Header) -> usize
    ensures { result ≡ axes_size header }
{
    (header.operations as usize) * (header.qubits as usize + 1)
}

// kept: what was alike is check_words and short_scratch
pub(crate) fn check_axes(
    header: Header,
    nodes: &[u32],
    operations: &[u32],
    rows: usize,
    scratch: usize,
) -> Result<(), PbcError>
    ensures { result ≡ axes_check header nodes.now operations.now rows scratch }
{
    check_words(header, nodes, operations)?;
    refuse_if(
        short_scratch(header, scratch) | (rows < axes_size(header)),
        PbcError::NoScratch,
    )
}
