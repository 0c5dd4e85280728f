//! Headers, references, and answers as they are printed.

use arena::{Header, PauliRef, PbcError};
use std::io;

pub(crate) const OWNER: u64 = 11;

pub(crate) fn header(
    qubits: u32,
    cbits: u32,
    nodes: u32,
    operations: u32,
    measurements: u32,
) -> Header {
    Header {
        qubits,
        cbits,
        owner: OWNER,
        nodes,
        operations,
        measurements,
    }
}

pub(crate) fn reference(owner: u64, word: u32) -> PauliRef {
    PauliRef { owner, word }
}

// The new header of a call, and its value if it has one; or the refusal.
pub(crate) fn answered(
    rt: &impl Print,
    label: &str,
    answer: Result<(Header, Option<u32>), PbcError>,
) -> io::Result<()> {
    match answer {
        Ok((h, value)) => {
            print!(rt;
                "{label} ok {} {} {}",
                h.nodes, h.operations, h.measurements
            )?;
            match value {
                Some(value) => print!(rt; " {value}"),
                None => Ok(()),
            }
        }
        Err(error) => {
            let r = error.refusal();
            print!(rt; "{label} err {} {} {}", r.number, r.index, r.operand)
        }
    }
}

// The first and the last word of a slice.
pub(crate) fn ends(rt: &impl Print, words: &[u32]) -> io::Result<()> {
    match (words.first(), words.last()) {
        (Some(first), Some(last)) => println!(rt; " | {first} {last}"),
        _ => println!(rt; " |"),
    }
}

// All words of a slice.
pub(crate) fn whole(rt: &impl Print, words: &[u32]) -> io::Result<()> {
    print!(rt; " |")?;
    for word in words {
        print!(rt; " {word}")?;
    }
    println!(rt; "")
}
