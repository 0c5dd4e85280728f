//! The circuits that are read. A call that is refused leaves the header as it was, and says so.

use crate::read::{OWNER, reference, refused};
use arena::{Header, PauliAxis, PbcError};
use pauli::PauliAngle;
use std::io;

fn or_before(
    rt: &impl Print,
    before: Header,
    answer: Result<Header, PbcError>,
) -> io::Result<Header> {
    match answer {
        Ok(made) => Ok(made),
        Err(error) => {
            refused(rt, error)?;
            Ok(before)
        }
    }
}

// No node but the first and those of the qubits.
pub(crate) fn start(
    rt: &impl Print,
    qubits: u32,
    nodes: &mut [u32],
    frame: &mut [u32],
) -> io::Result<Header> {
    let nothing = Header {
        qubits,
        cbits: 0,
        owner: OWNER,
        nodes: 0,
        operations: 0,
        measurements: 0,
    };
    or_before(rt, nothing, Header::new(qubits, 0, OWNER, nodes, frame))
}

// The products of these words, each a left and a right one.
pub(crate) fn products(
    rt: &impl Print,
    begun: Header,
    nodes: &mut [u32],
    pairs: &[(u32, u32)],
) -> io::Result<Header> {
    let mut header = begun;
    for &(left, right) in pairs {
        let answer = header.product(nodes, reference(left), reference(right));
        header = or_before(rt, header, answer.map(|(made, _)| made))?;
    }
    Ok(header)
}

// Rotations along these words, each with its eighths.
pub(crate) fn rotations(
    rt: &impl Print,
    begun: Header,
    operations: &mut [u32],
    turns: &[(u32, i64)],
) -> io::Result<Header> {
    let mut header = begun;
    for &(word, eighths) in turns {
        let axis = PauliAxis::assume_hermitian(reference(word));
        let answer = header.rotate(operations, axis, PauliAngle::new(eighths));
        header = or_before(rt, header, answer)?;
    }
    Ok(header)
}
