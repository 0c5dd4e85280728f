//! The checks of a conversion and of a frame gate, in the order of documents 01 and 02.

ghost use Rattle.std.specs.Prelude.{◌≡◌, true, List, [], ◌∷◌, ℕ, ◌*◌, ◌<◌, ◌≤◌, ◌/◌, leb, length, get_or, take};
ghost use Rattle.std.specs.List.{list_any};
ghost use Rattle.arena.specs.Limits.{max_cbits};
ghost use Rattle.arena.specs.Errors.{◌⟫◌⇒◌};
ghost use Rattle.convert.specs.Types.{QubitOutOfRange, Checked, Fine};
ghost use Rattle.convert.specs.Records.{records};
ghost use Rattle.convert.specs.Code.Parts.{record_in};
ghost use Rattle.convert.specs.Frame.{qubits_of, operands_checked, clifford_check};
ghost use Rattle.convert.specs.Conversion.{taken_with, record_checked, records_checked, cap_too_small, planes_too_few, gates_checked, room_checked, limits};
ghost use Rattle.convert.specs.Planes.{part_words};
ghost use Rattle.convert.specs.Code.Marks.{Marks};
ghost use Rattle.convert.specs.Code.Tables.{table_of, bound_of, apart_of, Passes, AllPass};

use crate::gate::{GateKind, Shape};
use crate::targets::{take_bit, take_target};
use arena::{
    Header, MAX_CBITS, MAX_GATES, MAX_NODES, MAX_OPERATIONS, MAX_QUBITS, NODE_WORDS,
    OPERATION_WORDS, PbcError, refuse_if,
};

/// The most words of a gate list.
pub const MAX_GATE_WORDS: usize = 4 * (MAX_GATES as usize);

// A mark for each classical bit.
const TARGET_WORDS: usize = (MAX_CBITS as usize) / 64;

// Of a list with no more classical bits than these, fewer words hold the marks.
const FEW_CBITS: u32 = 1024;

const FEW_TARGET_WORDS: usize = (FEW_CBITS as usize) / 64;

// A qubit of gate i.
fn check_operand(n: u32, i: u64, q: u32) -> Result<(), PbcError>
    ensures { result ≡ (Fine ⟫ leb n q ⇒ QubitOutOfRange i q) }
{
    refuse_if(
        n <= q,
        PbcError::QubitOutOfRange {
            index: i,
            qubit: q as u64,
        },
    )
}

// Two qubits of gate i.
fn check_pair(n: u32, i: u64, a: u32, b: u32) -> Result<(), PbcError>
    ensures { result ≡ operands_checked Fine n i [] (a ∷ b ∷ []) }
{
    check_operand(n, i, a)?;
    check_operand(n, i, b)?;
    refuse_if(
        b == a,
        PbcError::RepeatedOperand {
            index: i,
            qubit: b as u64,
        },
    )
}

// The qubits of gate i: 7, then 8, operand by operand.
fn check_qubits(n: u32, i: u64, kind: GateKind, a: u32, b: u32, c: u32) -> Result<(), PbcError>
    ensures { result ≡ operands_checked Fine n i [] (qubits_of kind a b c) }
{
    match kind.shape() {
        Shape::None => Ok(()),
        Shape::One | Shape::Measured => check_operand(n, i, a),
        Shape::Two => check_pair(n, i, a, b),
        Shape::Three => {
            check_pair(n, i, a, b)?;
            check_operand(n, i, c)?;
            refuse_if(
                c == b || c == a,
                PbcError::RepeatedOperand {
                    index: i,
                    qubit: c as u64,
                },
            )
        }
    }
}

// Gate i: 5, then 7 and 8, then 9, then 24; its target is taken from now on.
fn check_record(
    n: u32,
    cbits: u32,
    i: u64,
    words: &[u32; 4],
    taken: &mut [u64],
) -> Result<(), PbcError>
    requires { cbits ≤ 64 * length taken.old }
    ensures checked { (bits : List ℕ) → Marks bits taken.old → result ≡ record_checked Fine n cbits i bits (record_in words.now) }
    ensures marked { (bits : List ℕ) → Marks bits taken.old → result ≡ Fine → Marks (taken_with (record_in words.now) bits) taken.new }
{
    let [number, a, b, c] = *words;
    let kind = GateKind::of(number);
    refuse_if(
        kind.has_shape(Shape::None),
        PbcError::UnsupportedGate {
            index: i,
            kind: number as u64,
        },
    )?;
    check_qubits(n, i, kind, a, b, c)?;
    if !kind.has_shape(Shape::Measured) {
        return Ok(());
    }
    refuse_if(
        cbits <= b,
        PbcError::ClassicalBitOutOfRange {
            index: i,
            bit: b as u64,
        },
    )?;
    refuse_if(
        take_bit(taken, b as usize),
        PbcError::TargetTaken {
            index: i,
            bit: b as u64,
        },
    )
}

// An entry for the second operand of each kind: that of a qubit, that of a measurement's bit, and 2^32 where it has none. With n and 0 it is what the
// operand stays below; of a measurement that says nothing. With 0 and 2^32 it is a bit above every operand for the kinds whose second is no qubit:
// with it that one is never the first. Tables are lent, so that no read copies one.
// kept: one word a kind, 2^32 for none, so that the pass over the gates has no jump by kind.
fn entries(qubit: u64, bit: u64) -> [u64; 21]
    ensures bound { bit ≡ 0 → result ≡ table_of (bound_of qubit) }
    ensures apart { qubit ≡ 0 → bit ≡ 4294967296 → result ≡ table_of apart_of }
{
    let any: u64 = 4294967296;
    [
        any, any, any, any, any, any, any, 0, qubit, qubit, qubit, qubit, bit, 0, 0, any, any, 0,
        0, qubit, qubit,
    ]
}

// Whether a record that is no measurement passes its checks, by its kind's entries. Of the jumps by kind, which a processor would have to guess,
// one is left: ccx and ccz, 10 and 11.
fn is_sound(n: usize, bound: u64, above: u64, words: &[u32; 4]) -> bool
    requires { get_or words.now 0 0 < 21 }
    ensures { result ≡ true → Passes n (get_or words.now 0 0) bound above (get_or words.now 1 0) (get_or words.now 2 0) (get_or words.now 3 0) }
{
    let [number, a, b, c] = *words;
    if n <= (a as usize) {
        return false;
    }
    if bound <= (b as u64) {
        return false;
    }
    if ((b as u64) | above) == (a as u64) {
        return false;
    }
    // kept: by number, with no jump by kind: with the matches of `check_each` alone conversions took 1.40 and 1.60 times as long (drafts; adders, random).
    if number / 2 != 5 {
        return true;
    }
    if n <= (c as usize) {
        return false;
    }
    c != a && c != b
}

// Whether every gate passes its checks, by the tables and a mark for each classical bit. What the tables do not pass can still be a measurement.
// kept: beside `check_each`; without it conversions took 1.40 and 1.60 times as long (drafts, no cap; adders, random).
fn sound_by(
    n: usize,
    cbits: usize,
    limits: &[u64; 21],
    above: &[u64; 21],
    gates: &[u32],
    taken: &mut [u64],
) -> bool
    requires { (cbits ≤ 64 * length taken.old) × Marks [] taken.old }
    ensures { result ≡ true → AllPass n cbits limits.now above.now gates.now }
{
    for words in gates.as_chunks::<4>().0 {
        let [number, a, b, _] = *words;
        let kind = number as usize;
        if 20 < kind {
            return false;
        }
        if is_sound(n, limits[kind], above[kind], words) {
            continue;
        }
        // kept: by number, with no jump by kind: with the matches of `check_each` alone conversions took 1.40 and 1.60 times as long (drafts; adders, random).
        if number != 12 || !take_target(taken, n, cbits, a as usize, b as usize) {
            return false;
        }
    }
    true
}

// Whether every gate passes its checks. A list with few classical bits gets few words for its marks: to clear those of all would show on a short one.
fn all_sound(n: u32, cbits: u32, gates: &[u32]) -> bool
    requires { cbits ≤ max_cbits }
    ensures { result ≡ true → ((checked : Checked) → records_checked checked n cbits 0 [] (records gates.now) ≡ checked) }
{
    let limits = entries(n as u64, 0);
    let above = entries(0, 4294967296);
    if cbits <= FEW_CBITS {
        let mut few = [0u64; FEW_TARGET_WORDS];
        return sound_by(n as usize, cbits as usize, &limits, &above, gates, &mut few);
    }
    let mut all = [0u64; TARGET_WORDS];
    sound_by(n as usize, cbits as usize, &limits, &above, gates, &mut all)
}

// Every gate of the list, the first faulty one deciding.
// kept: beside `sound_by`, which says nothing of the fault.
fn check_each(n: u32, cbits: u32, gates: &[u32], taken: &mut [u64]) -> Result<(), PbcError>
    requires { (cbits ≤ 64 * length taken.old) × Marks [] taken.old }
    ensures { result ≡ records_checked Fine n cbits 0 [] (records gates.now) }
{
    for (i, words) in gates.as_chunks::<4>().0.iter().enumerate() {
        check_record(n, cbits, i as u64, words, taken)?;
    }
    Ok(())
}

// The same. Where no gate is faulty, that is seen faster.
fn check_records(n: u32, cbits: u32, gates: &[u32]) -> Result<(), PbcError>
    requires { cbits ≤ max_cbits }
    ensures { result ≡ records_checked Fine n cbits 0 [] (records gates.now) }
{
    if all_sound(n, cbits, gates) {
        return Ok(());
    }
    let mut taken = [0u64; TARGET_WORDS];
    check_each(n, cbits, gates, &mut taken)
}

// Cap 0.
fn cap_too_small(cap: Option<u32>) -> bool
    ensures { result ≡ cap_too_small cap }
{
    cap == Some(0)
}

// L, the words of a part.
pub(crate) fn part_words(n: u32) -> usize
    ensures { result ≡ part_words n }
{
    (n as usize).div_ceil(64).max(1)
}

// Fewer than 4nL plane words under a cap.
fn planes_too_few(cap: Option<u32>, n: u32, planes: usize) -> bool
    ensures { result ≡ planes_too_few cap n planes }
{
    cap.is_some() && planes < 4 * (n as usize) * part_words(n)
}

// A conversion up to its planes: 1, 2, then gate by gate, then 11, 12.
pub(crate) fn check_gates(
    qubits: u32,
    cbits: u32,
    cap: Option<u32>,
    gates: &[u32],
    planes: usize,
) -> Result<(), PbcError>
    ensures { result ≡ gates_checked limits qubits cbits cap gates.now planes }
{
    refuse_if(
        MAX_QUBITS < qubits || MAX_CBITS < cbits,
        PbcError::TooManyQubits,
    )?;
    refuse_if(
        gates.len() % 4 != 0 || MAX_GATE_WORDS < gates.len(),
        PbcError::BrokenGateList,
    )?;
    check_records(qubits, cbits, gates)?;
    refuse_if(cap_too_small(cap), PbcError::CapTooSmall)?;
    refuse_if(planes_too_few(cap, qubits, planes), PbcError::NoPlanes)
}

/// The words lent for a circuit.
#[derive(Clone, Copy, Debug, PartialEq, Eq)]
pub(crate) struct Lent {
    pub(crate) frame: usize,
    pub(crate) nodes: usize,
    pub(crate) operations: usize,
}

// The needs of a conversion: 13, 14, 15.
pub(crate) fn check_room(needed: u32, written: u32, qubits: u32, lent: Lent) -> Result<(), PbcError>
    ensures { result ≡ room_checked limits Fine needed written qubits lent.frame lent.nodes lent.operations }
{
    refuse_if(lent.frame < 2 * (qubits as usize), PbcError::NoFrame)?;
    refuse_if(
        MAX_NODES < needed || lent.nodes / NODE_WORDS < (needed as usize),
        PbcError::NoNodes,
    )?;
    refuse_if(
        MAX_OPERATIONS < written || lent.operations / OPERATION_WORDS < (written as usize),
        PbcError::NoOperations,
    )
}

// The first words, all of them if there are fewer.
fn first(words: &[u32], count: usize) -> &[u32]
    ensures { result.now ≡ take count words.now }
{
    words.get(..count).unwrap_or(words)
}

// Whether one of the words names an unused node. No word ends the loop, so that it takes several at a time (docs/PROVING.md).
fn any_unused(used: u32, words: &[u32]) -> bool
    ensures { result ≡ list_any (λ w. leb used (w / 4)) words.now }
{
    let mut any = false;
    for &w in words {
        any |= used <= w / 4;
    }
    any
}

// A frame gate: 3, 6, 7, 8, 13, 14.
pub(crate) fn check_clifford(
    header: Header,
    nodes: usize,
    frame: &[u32],
    kind: u32,
    a: u32,
    b: u32,
) -> Result<(), PbcError>
    ensures { result ≡ clifford_check header nodes frame.now kind a b }
{
    let gate = GateKind::of(kind);
    let words = 2 * (header.qubits as usize);
    let unused = any_unused(header.nodes, first(frame, words));
    refuse_if(
        header.breaks_limit() || header.exceeds_nodes(nodes) || unused,
        PbcError::BadStore,
    )?;
    refuse_if(
        !gate.is_frame(),
        PbcError::NonCliffordFrameGate { kind: kind as u64 },
    )?;
    check_qubits(header.qubits, 0, gate, a, b, 0)?;
    refuse_if(frame.len() < words, PbcError::NoFrame)?;
    refuse_if(
        header.no_node_room(nodes, gate.frame_nodes()),
        PbcError::NoNodes,
    )
}
