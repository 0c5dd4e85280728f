//! The calls that write operations: `rotate`, `measure` and `conditional_rotate`.

use crate::print::{OWNER, answered, header, reference, whole};
use arena::{MeasId, PauliAxis};
use pauli::PauliAngle;
use std::io;

fn axis(word: u32) -> PauliAxis {
    PauliAxis::assume_hermitian(reference(OWNER, word))
}

fn rotate(
    rt: &impl Print,
    label: &str,
    words: &mut [u32],
    operations: u32,
    word: u32,
) -> io::Result<()> {
    let made = header(1, 2, 3, operations, 0).rotate(words, axis(word), PauliAngle::new(-1));
    answered(rt, label, made.map(|h| (h, None)))?;
    whole(rt, words)
}

pub(crate) fn refused_rotations(rt: &impl Print) -> io::Result<()> {
    let mut more = [7u32; 13];
    let mut short = [7u32; 9];
    rotate(rt, "rotate over the slice", &mut more, 3, 4)?;
    rotate(rt, "rotate along an unused node", &mut more, 1, 12)?;
    rotate(rt, "rotate in a full slice", &mut more, 2, 4)?;
    rotate(rt, "rotate at the limit", &mut more, 65536, 4)?;
    rotate(rt, "rotate one word short", &mut short, 1, 4)
}

pub(crate) fn rotations(rt: &impl Print) -> io::Result<()> {
    let mut full = [7u32; 10];
    let mut more = [7u32; 13];
    rotate(rt, "rotate in the last place", &mut full, 1, 4)?;
    rotate(rt, "rotate in the first place", &mut more, 0, 11)
}

fn measure(
    rt: &impl Print,
    label: &str,
    words: &mut [u32],
    cbits: u32,
    measurements: u32,
    target: Option<u32>,
) -> io::Result<()> {
    let made = header(1, cbits, 3, 1, measurements).measure(words, axis(6), target);
    answered(
        rt,
        label,
        made.map(|(new, outcome)| (new, Some(outcome.index()))),
    )?;
    whole(rt, words)
}

pub(crate) fn refused_measurements(rt: &impl Print) -> io::Result<()> {
    let mut full = [7u32; 10];
    let mut short = [7u32; 9];
    let far = Some(u32::MAX);
    measure(rt, "measure one word short", &mut short, 2, 0, Some(1))?;
    measure(rt, "measure into bit 2 of 2", &mut full, 2, 0, Some(2))?;
    measure(
        rt,
        "measure into the greatest bit",
        &mut full,
        65536,
        0,
        far,
    )
}

// Each in the second place, over what the one before wrote there.
pub(crate) fn measurements(rt: &impl Print) -> io::Result<()> {
    let mut full = [7u32; 10];
    let last = Some(65535);
    measure(rt, "measure into bit 1 of 2", &mut full, 2, 0, Some(1))?;
    measure(rt, "measure into bit 65535", &mut full, 65536, 1, last)?;
    measure(rt, "measure into none", &mut full, 0, 1, None)
}

fn conditional(
    rt: &impl Print,
    label: &str,
    words: &mut [u32],
    operations: u32,
    outcome: MeasId,
) -> io::Result<()> {
    let h = header(1, 2, 3, operations, 1);
    let made = h.conditional_rotate(words, axis(4), PauliAngle::new(4), outcome);
    answered(rt, label, made.map(|h| (h, None)))?;
    whole(rt, words)
}

pub(crate) fn conditions(rt: &impl Print) -> io::Result<()> {
    let mut full = [7u32; 10];
    let mut short = [7u32; 9];
    let given = MeasId::new(OWNER, 0);
    let another = MeasId::new(12, 0);
    let later = MeasId::new(OWNER, 1);
    conditional(rt, "condition on another's", &mut full, 1, another)?;
    conditional(rt, "condition not yet given", &mut full, 1, later)?;
    conditional(rt, "condition in a full slice", &mut full, 2, given)?;
    conditional(rt, "condition one word short", &mut short, 1, given)?;
    conditional(rt, "condition in the last place", &mut full, 1, given)
}
