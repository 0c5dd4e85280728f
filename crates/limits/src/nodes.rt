//! The calls that write nodes: `new`, `single` and `product`.

ghost use Rattle.std.specs.Prelude.{◌<◌};

use crate::print::{OWNER, answered, ends, header, reference};
use arena::{Header, PauliRef};
use pauli::Pauli;
use std::io;

fn new<const NODES: usize, const FRAME: usize>(
    rt: &impl Print,
    label: &str,
    qubits: u32,
    cbits: u32,
) -> io::Result<()>
    requires { (NODES < 2000) × (FRAME < 2000) }
{
    let mut nodes = [7u32; NODES];
    let mut frame = [7u32; FRAME];
    let made = Header::new(qubits, cbits, OWNER, &mut nodes, &mut frame);
    answered(rt, label, made.map(|h| (h, None)))?;
    ends(rt, &nodes)
}

pub(crate) fn refused_news(rt: &impl Print) -> io::Result<()> {
    let most = u32::MAX;
    new::<1027, 512>(rt, "new 257 qubits", 257, 0)?;
    new::<1027, 512>(rt, "new 65537 bits", 0, 65537)?;
    new::<1027, 512>(rt, "new the greatest numbers", most, most)?;
    new::<1027, 511>(rt, "new a frame one word short", 256, 65536)?;
    new::<1025, 511>(rt, "new both one word short", 256, 65536)?;
    new::<1025, 512>(rt, "new nodes one word short", 256, 65536)
}

pub(crate) fn small_news(rt: &impl Print) -> io::Result<()> {
    new::<0, 0>(rt, "new nothing lent", 0, 0)?;
    new::<1, 0>(rt, "new one word lent", 0, 0)?;
    new::<2, 0>(rt, "new no qubit", 0, 0)
}

pub(crate) fn large_news(rt: &impl Print) -> io::Result<()> {
    new::<1026, 512>(rt, "new exactly full", 256, 65536)?;
    new::<1027, 512>(rt, "new one word more", 256, 65536)
}

// A node added to a slice of six.
fn single(rt: &impl Print, label: &str, h: Header, qubit: u32, pauli: Pauli) -> io::Result<()> {
    let mut nodes = [7u32; 12];
    let made = h.single(&mut nodes, qubit, pauli);
    answered(
        rt,
        label,
        made.map(|(new, axis)| (new, Some(axis.as_ref().word))),
    )?;
    ends(rt, &nodes)
}

pub(crate) fn bad_stores(rt: &impl Print) -> io::Result<()> {
    let most = u32::MAX;
    let stores = [
        ("over the qubits", header(257, 0, 5, 0, 0)),
        ("over the bits", header(2, 65537, 5, 0, 0)),
        ("with no node", header(2, 0, 0, 0, 0)),
        ("over the nodes", header(2, 0, 65537, 0, 0)),
        ("over the operations", header(2, 0, 5, 65537, 0)),
        ("over the measurements", header(2, 0, 5, 3, 4)),
        ("over the slice", header(2, 0, 7, 0, 0)),
        ("all greatest", header(most, most, most, most, most)),
    ];
    for (label, h) in stores {
        single(rt, label, h, 0, Pauli::X)?;
    }
    Ok(())
}

pub(crate) fn singles(rt: &impl Print) -> io::Result<()> {
    let none = header(0, 0, 1, 0, 0);
    let full = header(2, 0, 6, 0, 0);
    let last = header(2, 0, 5, 0, 0);
    let far = u32::MAX;
    single(rt, "single of I at no qubit", none, 0, Pauli::I)?;
    single(rt, "single past the qubits", last, 2, Pauli::Z)?;
    single(rt, "single far past the qubits", full, far, Pauli::Z)?;
    single(rt, "single of Z on a full slice", full, 1, Pauli::Z)?;
    single(rt, "single of I on a full slice", full, 1, Pauli::I)?;
    single(rt, "single of Y in the last place", last, 1, Pauli::Y)
}

// A product added to a slice of six.
fn product(
    rt: &impl Print,
    label: &str,
    used: u32,
    left: PauliRef,
    right: PauliRef,
) -> io::Result<()> {
    let mut nodes = [7u32; 12];
    let made = header(2, 0, used, 0, 0).product(&mut nodes, left, right);
    answered(rt, label, made.map(|(new, pair)| (new, Some(pair.word))))?;
    ends(rt, &nodes)
}

pub(crate) fn products(rt: &impl Print) -> io::Result<()> {
    let own = reference(OWNER, 4);
    let other = reference(12, 4);
    let unused = reference(OWNER, 20);
    let far = reference(OWNER, u32::MAX);
    let first = reference(OWNER, 19);
    let second = reference(OWNER, 13);
    product(rt, "product of another's", 5, other, own)?;
    product(rt, "product with another's", 5, own, other)?;
    product(rt, "product of an unused node", 5, unused, own)?;
    product(rt, "product with the greatest word", 5, own, far)?;
    product(rt, "product in a full slice", 6, own, own)?;
    product(rt, "product in the last place", 5, first, second)
}
