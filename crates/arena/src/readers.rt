//! Readers of one reference: its letters, and whether it can be an axis. Each checks what it is lent, walks, and leaves zero what it was lent to work in.

ghost use Rattle.std.specs.Prelude.{◌≡◌, ℕ, ◌+◌, ◌-◌, ◌≤◌, ◌<◌, length};
ghost use Rattle.arena.specs.References.{node_in};
ghost use Rattle.arena.specs.Nodes.{node_at, factors_commute};
ghost use Rattle.arena.specs.Readers.{expand_walk, hermitian_walk};
ghost use Rattle.arena.specs.Expansion.{expansion_of, hermitian_of, letters_left, expand_step, hermitian_step};
ghost use Rattle.arena.specs.Code.WalkWords.{RootReady, Settled};
ghost use Rattle.arena.specs.Code.Roots.{Fit};
ghost use Rattle.arena.specs.Limits.{cap_of};

use crate::checks::{check_expand, check_hermitian};
use crate::error::PbcError;
use crate::expansion::{Expansion, HermitianAxis};
use crate::header::Header;
use crate::pauli_ref::{PauliAxis, PauliRef};
use crate::pool::cap_of;
use crate::roots::{show, walk_root, wipe};
use crate::scratch::{first_word, named_value, second_word};
use pauli::Phase;

// Whether the two factors of the root w, which is done, commute: the phase that their letters add is 1 or -1. Yes if the root is no product.
fn factors_commute(nodes: &[u32], s: &[u32], w: usize) -> bool
    requires { RootReady nodes.now s.now (node_in w + 1) w }
    ensures { (g : RootReady nodes.now s.now (node_in w + 1) w) (count : ℕ) → node_in w < count
        → Settled g.n count nodes.now s.now (node_in w)
        → result ≡ factors_commute g.n count nodes.now (node_at g.n nodes.now (node_in w)) }
{
    let i = w / 4;
    let a = first_word(nodes, i);
    // kept: a kind by its word: PauliNode::decode asks for the qubits, which a walk has not, and tests what bad_nodes has tested
    if a % 4 != 2 {
        return true;
    }
    let left = named_value(s, (a / 4) as usize);
    let right = named_value(s, second_word(nodes, i) as usize);
    let own = named_value(s, 4 * i);
    (left.phase + right.phase + own.phase) % 2 == 0
}

// The walk of `expand`, with the scratch and the pool left as they are then.
// kept: a Walk made of parts of the lent slices loses what is known of them after the call (tried), so a function is lent the parts and makes it
fn expand_walk(
    header: Header,
    nodes: &[u32],
    letters: &mut [u8],
    s: &mut [u32],
    pool: &mut [u32],
    word: u32,
    cells: usize,
) -> Result<Expansion, PbcError>
    requires { Fit header nodes.now s.old × (node_in word < header.nodes) × (header.qubits ≤ length letters.old) }
    ensures value { result ≡ expansion_of (expand_walk cells (cap_of (length pool.old) - 1) header.qubits header.nodes nodes.now word) }
    ensures letters_after { letters.new
        ≡ letters_left (expand_walk cells (cap_of (length pool.old) - 1) header.qubits header.nodes nodes.now word) letters.old }
{
    let n = header.qubits as usize;
    if cells < n {
        return Err(PbcError::ExpansionLimit);
    }
    let (v, left) = walk_root(nodes, s, pool, cells - n, word as usize)?;
    show(letters, pool, n, v.head, v.count);
    let commute = factors_commute(nodes, s, word as usize);
    Ok(Expansion {
        phase: Phase::power((v.phase % 4) as u32),
        work: left.work,
        commute,
    })
}

// The walk of `hermitian_axis`, in the same way.
// kept: a Walk made of parts of the lent slices loses what is known of them after the call (tried), so a function is lent the parts and makes it
fn hermitian_walk(
    header: Header,
    nodes: &[u32],
    s: &mut [u32],
    pool: &mut [u32],
    reference: PauliRef,
    limit: usize,
) -> Result<HermitianAxis, PbcError>
    requires { Fit header nodes.now s.old × (node_in reference.word < header.nodes) }
    ensures { result ≡ hermitian_of reference
        (hermitian_walk limit (cap_of (length pool.old) - 1) header.qubits header.nodes nodes.now reference.word) }
{
    let (v, left) = walk_root(nodes, s, pool, limit, reference.word as usize)?;
    if v.phase % 2 == 1 {
        return Err(PbcError::NonHermitianAxis);
    }
    Ok(HermitianAxis {
        axis: PauliAxis::assume_hermitian(reference),
        work: left.work,
    })
}

impl Header {
    /// The letters of a reference, one byte a qubit, its phase, and whether the two factors of its node commute; `max_cells` bounds the qubits and the work together. Refuses with 3, 4, 16, 17, 18.
    /// Scratch has four words a node; the words and records that a walk uses are zero afterwards, whatever it answers. O(nodes × qubits). Promise: `expand_step`.
    // kept: public, as README has it, with the words that it is lent; it shares Walk and wipe with the other readers
    pub fn expand(
        self,
        nodes: &[u32],
        letters: &mut [u8],
        scratch: &mut [u32],
        pool: &mut [u32],
        reference: PauliRef,
        max_cells: usize,
    ) -> Result<Expansion, PbcError>
        ensures value { result ≡ expansion_of (expand_step self nodes.now letters.old scratch.old pool.old reference max_cells).answer }
        ensures letters_after { letters.new ≡ (expand_step self nodes.now letters.old scratch.old pool.old reference max_cells).letters }
        ensures scratch_after { scratch.new ≡ (expand_step self nodes.now letters.old scratch.old pool.old reference max_cells).scratch }
        ensures pool_after { pool.new ≡ (expand_step self nodes.now letters.old scratch.old pool.old reference max_cells).pool }
    {
        check_expand(self, nodes, reference, letters.len(), scratch.len())?;
        let used = 4 * (self.nodes as usize);
        let counted = 3 * cap_of(pool.len());
        let answer = expand_walk(
            self,
            nodes,
            letters,
            &mut scratch[..used],
            &mut pool[..counted],
            reference.word,
            max_cells,
        );
        wipe(scratch, pool, used);
        answer
    }

    /// The reference as an axis, if the phase of what it stands for is +1 or -1. Refuses with 3, 4, 16, 17, 18, 19. Scratch and pool as in `expand`.
    /// O(nodes × qubits). Promise: `hermitian_step`.
    // kept: public, as README has it, with the words that it is lent; it shares Walk and wipe with the other readers
    pub fn hermitian_axis(
        self,
        nodes: &[u32],
        scratch: &mut [u32],
        pool: &mut [u32],
        reference: PauliRef,
        limit: usize,
    ) -> Result<HermitianAxis, PbcError>
        ensures value { result ≡ hermitian_of reference (hermitian_step self nodes.now scratch.old pool.old reference limit).answer }
        ensures scratch_after { scratch.new ≡ (hermitian_step self nodes.now scratch.old pool.old reference limit).scratch }
        ensures pool_after { pool.new ≡ (hermitian_step self nodes.now scratch.old pool.old reference limit).pool }
    {
        check_hermitian(self, nodes, reference, scratch.len())?;
        let used = 4 * (self.nodes as usize);
        let counted = 3 * cap_of(pool.len());
        let answer = hermitian_walk(
            self,
            nodes,
            &mut scratch[..used],
            &mut pool[..counted],
            reference,
            limit,
        );
        wipe(scratch, pool, used);
        answer
    }
}
