//! The axes of all operations as rows of bytes: the roots of one walk, which is the weight report's.

ghost use Rattle.std.specs.Prelude.{◌≡◌, ◌+◌, ◌-◌, ◌%◌, ◌<◌, length};
ghost use Rattle.arena.specs.Builder.{overlay};
ghost use Rattle.arena.specs.Expansion.{axes_size, expanded_axes_of, axes_step};
ghost use Rattle.arena.specs.Code.WalkWords.{ShowReady};
ghost use Rattle.arena.specs.Code.Roots.{cells, laid_at};
ghost use Rattle.arena.specs.Limits.{cap_of};

use crate::checks::{axes_size, check_axes};
use crate::error::PbcError;
use crate::header::Header;
use crate::materialize::Walk;
use crate::pool::{NOTHING_LEFT, Value, cap_of};
use crate::roots::{show, wipe};
use crate::visit::Visit;

// ---- a row

// The n letters of a chain, then the phase.
fn fill_row(row: &mut [u8], pool: &[u32], n: usize, v: Value)
    requires { ShowReady pool.now v.head v.count × (n < length row.old) }
    ensures { (g : ShowReady pool.now v.head v.count) → row.new ≡ overlay (cells n g.fs (v.phase % 4)) row.old }
{
    show(row, pool, n, v.head, v.count);
    row[n] = (v.phase % 4) as u8;
}

// The same, from byte `at` on.
fn put_row(rows: &mut [u8], at: usize, pool: &[u32], n: usize, v: Value)
    requires { ShowReady pool.now v.head v.count × (at + n < length rows.old) }
    ensures { (g : ShowReady pool.now v.head v.count) → rows.new ≡ laid_at at (cells n g.fs (v.phase % 4)) rows.old }
{
    fill_row(&mut rows[at..], pool, n, v);
}

// ---- the walk

// A row for each axis.
#[derive(Drop)]
pub(crate) struct Rows<'a> {
    pub rows: &'a mut [u8],
    pub qubits: usize,
}

impl Visit for Rows<'_> {
    ghost use Rattle.std.specs.Prelude.{◌+◌, ◌*◌, ◌<◌, length};
    ghost use Rattle.arena.specs.Sparse.{dense};
    ghost use Rattle.arena.specs.Expansion.{row_bytes};
    ghost use Rattle.arena.specs.Code.Roots.{laid_at};

    ghost Fits = { λ v i. i * (v.qubits + 1) + v.qubits < length v.rows.now };

    ghost step = { λ v i x. record v { rows = record v.rows { now = laid_at (i * (v.qubits + 1)) (row_bytes (dense v.qubits x)) v.rows.now } } };

    fn visit(&mut self, index: u32, value: Value, pool: &[u32]) {
        let at = (index as usize) * (self.qubits + 1);
        put_row(self.rows, at, pool, self.qubits, value);
    }
}

impl Walk<'_> {
    ghost use Rattle.std.specs.Prelude.{◌≡◌, ◌-◌, ◌≤◌, length};
    ghost use Rattle.arena.specs.Limits.{cap_of};
    ghost use Rattle.arena.specs.Nodes.{node_at};
    ghost use Rattle.arena.specs.Walk.{walk_nodes};
    ghost use Rattle.arena.specs.Readers.{words_of, axes_walk};
    ghost use Rattle.arena.specs.Expansion.{axes_size, expanded_axes_of, rows_made};
    ghost use Rattle.arena.specs.Code.Results.{Says, out_of};
    ghost use Rattle.arena.specs.Code.Roots.{Fit, axes_of, OpsSound, RowsShown};

    // The whole walk. Scratch and pool are left as they are then, and so are the rows of a walk that is refused.
    // kept: the walk is one function, visit_axes; each of the two makes its own visitor and answer of it
    fn axes_walk(
        &mut self,
        header: Header,
        operations: &[u32],
        rows: &mut [u8],
    ) -> Result<usize, PbcError>
        requires { (self.old.count ≡ header.nodes) × Fit header self.old.nodes.now self.old.scratch.now × OpsSound header operations.now × (header.operations ≤ 65536) × (length rows.old ≡ axes_size header) }
        ensures { Says (walk_nodes self.old.limit (cap_of (length self.old.pool.now) - 1) (node_at header.qubits self.old.nodes.now) header.nodes
            (words_of (axes_of header operations.now))) (out_of result) (RowsShown header.qubits rows.new) }
    {
        let mut made = Rows {
            rows,
            qubits: header.qubits as usize,
        };
        self.visit_axes(header, operations, &mut made)
    }

    // The walk, and zero rows if it is refused.
    fn rows_or_zero(
        &mut self,
        header: Header,
        operations: &[u32],
        rows: &mut [u8],
    ) -> Result<usize, PbcError>
        requires { (self.old.count ≡ header.nodes) × Fit header self.old.nodes.now self.old.scratch.now × OpsSound header operations.now × (header.operations ≤ 65536) × (length rows.old ≡ axes_size header) }
        ensures value { result ≡ expanded_axes_of (axes_walk self.old.limit (cap_of (length self.old.pool.now) - 1) header.qubits header.nodes self.old.nodes.now
            (words_of (axes_of header operations.now))) }
        ensures rows_after { rows.new ≡ rows_made (axes_walk self.old.limit (cap_of (length self.old.pool.now) - 1) header.qubits header.nodes self.old.nodes.now
            (words_of (axes_of header operations.now))) (axes_size header) }
    {
        let answer = self.axes_walk(header, operations, rows);
        if answer.is_err() {
            rows.fill(0);
        }
        answer
    }
}

impl Header {
    /// The axis of every operation as a row of bytes, in order: a letter a qubit (0 I, 1 X, 2 Y, 3 Z), then the phase (0 to 3). One walk under one limit, the weight report's.
    /// Refuses with 3, 16, 17, 18; 17 and 18 leave the rows zero. Scratch and pool as in `expand`. O((nodes + operations) × qubits). Promise: `axes_step`.
    // kept: public, as README has it, with the words that it is lent; it shares Walk and wipe with the other readers
    pub fn expand_axes(
        self,
        nodes: &[u32],
        operations: &[u32],
        rows: &mut [u8],
        scratch: &mut [u32],
        pool: &mut [u32],
        limit: usize,
    ) -> Result<usize, PbcError>
        ensures value { result ≡ expanded_axes_of (axes_step self nodes.now operations.now rows.old scratch.old pool.old limit).answer }
        ensures rows_after { rows.new ≡ (axes_step self nodes.now operations.now rows.old scratch.old pool.old limit).rows }
        ensures scratch_after { scratch.new ≡ (axes_step self nodes.now operations.now rows.old scratch.old pool.old limit).scratch }
        ensures pool_after { pool.new ≡ (axes_step self nodes.now operations.now rows.old scratch.old pool.old limit).pool }
    {
        check_axes(self, nodes, operations, rows.len(), scratch.len())?;
        let size = axes_size(self);
        let used = 4 * (self.nodes as usize);
        let counted = 3 * cap_of(pool.len());
        let mut walk = Walk {
            nodes,
            count: self.nodes as usize,
            scratch: &mut scratch[..used],
            pool: &mut pool[..counted],
            limit,
            left: NOTHING_LEFT,
        };
        let answer = walk.rows_or_zero(self, operations, &mut rows[..size]);
        wipe(scratch, pool, used);
        answer
    }
}
