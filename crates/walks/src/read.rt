//! The readers, called on words filled with 7: the answer, what was written, and how far scratch and pool are zero, a line for each call.

ghost use Rattle.std.specs.Prelude.{◌<◌};

use arena::{Header, PauliRef, PbcError};
use std::{fmt, io};

pub(crate) const OWNER: u64 = 11;

// A circuit, and the words lent with it.
#[derive(Clone, Copy, Debug, PartialEq, Eq)]
pub(crate) struct Circuit<'a> {
    pub header: Header,
    pub nodes: &'a [u32],
    pub operations: &'a [u32],
}

pub(crate) fn reference(word: u32) -> PauliRef {
    PauliRef { owner: OWNER, word }
}

pub(crate) fn refused(rt: &impl Print, error: PbcError) -> io::Result<()> {
    print!(rt; " err {}", error.number())
}

fn list<T: fmt::Display>(rt: &impl Print, name: &str, numbers: &[T]) -> io::Result<()> {
    print!(rt; " {name}")?;
    for number in numbers {
        print!(rt; " {number}")?;
    }
    Ok(())
}

fn answered<const N: usize>(
    rt: &impl Print,
    label: &str,
    answer: Result<[usize; N], PbcError>,
) -> io::Result<()> {
    print!(rt; "{label}")?;
    match answer {
        Ok(values) => list(rt, "ok", &values),
        Err(error) => refused(rt, error),
    }
}

// How many words from the front are zero.
fn zeros(words: &[u32]) -> usize {
    words.iter().position(|w| *w != 0).unwrap_or(words.len())
}

fn left(rt: &impl Print, scratch: &[u32], pool: &[u32]) -> io::Result<()> {
    println!(rt;
        " | {} of {} | {} of {}",
        zeros(scratch),
        scratch.len(),
        zeros(pool),
        pool.len()
    )
}

pub(crate) fn expand<const POOL: usize>(
    rt: &impl Print,
    label: &str,
    c: Circuit<'_>,
    word: u32,
    cells: usize,
) -> io::Result<()>
    requires { POOL < 100 }
{
    let mut letters = [7u8; 4];
    let mut scratch = [7u32; 29];
    let mut pool = [7u32; POOL];
    let answer = c.header.expand(
        c.nodes,
        &mut letters,
        &mut scratch,
        &mut pool,
        reference(word),
        cells,
    );
    let values = answer.map(|a| [a.phase.number() as usize, a.work, a.commute as usize]);
    answered(rt, label, values)?;
    list(rt, "letters", &letters)?;
    left(rt, &scratch, &pool)
}

pub(crate) fn axis<const POOL: usize>(
    rt: &impl Print,
    label: &str,
    c: Circuit<'_>,
    word: u32,
    limit: usize,
) -> io::Result<()>
    requires { POOL < 100 }
{
    let mut scratch = [7u32; 17];
    let mut pool = [7u32; POOL];
    let answer = c
        .header
        .hermitian_axis(c.nodes, &mut scratch, &mut pool, reference(word), limit);
    let values = answer.map(|a| [a.axis.as_ref().word as usize, a.work]);
    answered(rt, label, values)?;
    left(rt, &scratch, &pool)
}

pub(crate) fn weights<const SCRATCH: usize, const POOL: usize>(
    rt: &impl Print,
    label: &str,
    c: Circuit<'_>,
    limit: usize,
) -> io::Result<()>
    requires { (SCRATCH < 100) × (POOL < 100) }
{
    let mut scratch = [7u32; SCRATCH];
    let mut pool = [7u32; POOL];
    let answer = c
        .header
        .max_axis_weights(c.nodes, c.operations, &mut scratch, &mut pool, limit);
    let values = answer.map(|a| [a.non_clifford as usize, a.clifford as usize, a.work]);
    answered(rt, label, values)?;
    left(rt, &scratch, &pool)
}

pub(crate) fn axes<const POOL: usize>(
    rt: &impl Print,
    label: &str,
    c: Circuit<'_>,
    rows: &mut [u8],
    limit: usize,
) -> io::Result<()>
    requires { POOL < 100 }
{
    let mut scratch = [7u32; 45];
    let mut pool = [7u32; POOL];
    let answer = c.header.expand_axes(c.nodes, c.operations, rows, &mut scratch, &mut pool, limit);
    answered(rt, label, answer.map(|work| [work]))?;
    list(rt, "rows", rows)?;
    left(rt, &scratch, &pool)
}
