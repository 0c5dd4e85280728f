//! The axes of all operations as the roots of one walk: each is shown, visited and released, in order.

ghost use Rattle.std.specs.Prelude.{◌≡◌, ℕ, ◌%◌};
ghost use Rattle.pauli.specs.Letters.{phase_number};
ghost use Rattle.arena.specs.Sparse.{Sparse};
ghost use Rattle.arena.specs.Code.WalkWords.{ShowReady};

use crate::error::PbcError;
use crate::header::Header;
use crate::materialize::Walk;
use crate::pool::Value;
use crate::stored::axis_word;
use crate::weights::count_axes;

// What is done with the value of each axis of a walk.
pub(crate) trait Visit {
    // whether the axis of an index can be visited
    ghost Fits: { Self → ℕ → Type 0 };

    ghost step: { Self → ℕ → Sparse → Self };

    // The axis of operation `index` has this value, a chain of the pool.
    // kept: what `ShowReady` holds is asked once a root; it is no field of the visitor
    fn visit(&mut self, index: u32, value: Value, pool: &[u32])
        requires { ShowReady pool.now value.head value.count × Fits self.old index }
        ensures after { (g : ShowReady pool.now value.head value.count) (x : Sparse) → x.factors ≡ g.fs → value.phase % 4 ≡ phase_number x.phase
            → self.new ≡ step self.old index x }
        ensures fits { (i : ℕ) → Fits self.old i → Fits self.new i };
}

impl Walk<'_> {
    ghost use Rattle.std.specs.Prelude.{◌≡◌, ℕ, ◌-◌, ◌≤◌, ◌<◌, length};
    ghost use Rattle.arena.specs.Limits.{cap_of};
    ghost use Rattle.arena.specs.References.{node_in};
    ghost use Rattle.arena.specs.Nodes.{node_at};
    ghost use Rattle.arena.specs.Walk.{show_roots, walk_nodes};
    ghost use Rattle.arena.specs.Readers.{words_of};
    ghost use Rattle.arena.specs.Code.Results.{Says, out_of, left_after, StillLent};
    ghost use Rattle.arena.specs.Code.WalkWords.{Rooted};
    ghost use Rattle.arena.specs.Code.Roots.{Fit, OpsSound, axes_of, show_root, Weighing, RootVisited, AxesVisited};

    // The axis w is shown, visited and released.
    // kept: what `Rooted` holds changes from step to step, so it is no ghost field
    fn visit_root<V: Visit>(
        &mut self,
        index: u32,
        w: usize,
        visitor: &mut V,
    ) -> Result<(), PbcError>
        requires { Rooted self.old.nodes.now self.old.scratch.now self.old.pool.now self.old.count self.old.limit (node_in w) self.old.left × V.Fits visitor.old index }
        ensures says { (g : Rooted self.old.nodes.now self.old.scratch.now self.old.pool.now self.old.count self.old.limit (node_in w) self.old.left)
            → Says (show_root self.old.limit g.at.room (node_at g.at.n self.old.nodes.now) self.old.count (node_in w) g.at.s) (out_of (left_after result self.new.left))
            (RootVisited V.step index w g visitor.old visitor.new self.new.scratch.now self.new.pool.now) }
        ensures fits { (i : ℕ) → V.Fits visitor.old i → V.Fits visitor.new i }
        ensures lent { StillLent self.old self.new }
    {
        let v = self.show_root(w)?;
        let pool = &mut *self.pool;
        visitor.visit(index, v, pool);
        self.release(w / 4, v);
        Ok(())
    }

    // Each axis is shown, visited and released, in order.
    fn visit_all<V: Visit>(
        &mut self,
        header: Header,
        operations: &[u32],
        visitor: &mut V,
    ) -> Result<usize, PbcError>
        requires { (self.old.count ≡ header.nodes) × Weighing header self.old.nodes.now operations.now self.old.scratch.now self.old.pool.now self.old.limit self.old.left
            × ((i : ℕ) → i < header.operations → V.Fits visitor.old i) }
        ensures says { (g : Weighing header self.old.nodes.now operations.now self.old.scratch.now self.old.pool.now self.old.limit self.old.left)
            → Says (show_roots self.old.limit g.room (node_at header.qubits self.old.nodes.now) header.nodes (words_of (axes_of header operations.now)) g.s)
            (out_of result) (AxesVisited V.step header.operations visitor.old visitor.new) }
        ensures lent { StillLent self.old self.new }
    {
        for i in 0..header.operations {
            let w = axis_word(operations, i);
            self.visit_root(i, w, visitor)?;
        }
        Ok(self.left.work)
    }

    // The whole walk. Scratch and pool are left as they are then, and so is the visitor of a walk that is refused.
    pub(crate) fn visit_axes<V: Visit>(
        &mut self,
        header: Header,
        operations: &[u32],
        visitor: &mut V,
    ) -> Result<usize, PbcError>
        requires { (self.old.count ≡ header.nodes) × Fit header self.old.nodes.now self.old.scratch.now × OpsSound header operations.now × (header.operations ≤ 65536)
            × ((i : ℕ) → i < header.operations → V.Fits visitor.old i) }
        ensures { Says (walk_nodes self.old.limit (cap_of (length self.old.pool.now) - 1) (node_at header.qubits self.old.nodes.now) header.nodes
            (words_of (axes_of header operations.now))) (out_of result) (AxesVisited V.step header.operations visitor.old visitor.new) }
    {
        let s = &mut *self.scratch;
        s.fill(0);
        count_axes(header, operations, s);
        self.begin(header.operations as usize)?;
        self.visit_all(header, operations, visitor)
    }
}
