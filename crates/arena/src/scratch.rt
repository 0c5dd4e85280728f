//! The scratch words of a walk: four for each node, its uses left in two words, its value, and the link of the path that is being walked; and the counting of uses.
//! What these words stand for: specs/Code/WalkWords.antt.

ghost use Rattle.std.specs.Prelude.{◌≡◌, ◌+◌, ◌*◌, ◌-◌, ◌/◌, ◌≤◌, ◌<◌, length, get_or, set};
ghost use Rattle.arena.specs.Code.Results.{top_of};
ghost use Rattle.arena.specs.Code.WalkWords.{scratch_at, uses_at, with_use, value_at, value_word, value_named, ValuesKept, Visiting, Visited, Counting, CountedUp};

use crate::pool::Value;

// ---- the words of a node

fn joined(low: u32, high: u32) -> usize
    ensures { result ≡ low + 4294967296 * high }
{
    (low as usize) + 4294967296 * (high as usize)
}

fn use_of(s: &[u32], i: usize) -> usize
    requires { 4 * i + 1 < length s.now }
    ensures { result ≡ uses_at s.now i }
{
    // kept: one node by its place, of lent flat words (no heap, C calls it so); a chunk of all is no shorter
    joined(s[4 * i], s[4 * i + 1])
}

fn set_use(s: &mut [u32], i: usize, v: usize)
    requires { 4 * i + 1 < length s.old }
    ensures { s.new ≡ with_use s.old i v }
{
    // kept: written word by word: std says nothing of what a slice holds after as_chunks_mut
    s[4 * i] = (v % 4294967296) as u32;
    // kept: written word by word: std says nothing of what a slice holds after as_chunks_mut
    s[4 * i + 1] = (v / 4294967296) as u32;
}

pub(crate) fn value_of(s: &[u32], i: usize) -> usize
    requires { 4 * i + 2 < length s.now }
    ensures { result ≡ value_at s.now i }
{
    // kept: one node by its place, of lent flat words (no heap, C calls it so); a chunk of all is no shorter
    s[4 * i + 2] as usize
}

pub(crate) fn set_value(s: &mut [u32], i: usize, v: Value)
    requires { (v.head < 65536) × (v.count ≤ 256) × (v.phase < 4) × (4 * i + 2 < length s.old) }
    ensures { s.new ≡ set s.old (4 * i + 2) (value_word v.head v.count v.phase) }
{
    // kept: written word by word: std says nothing of what a slice holds after as_chunks_mut
    s[4 * i + 2] = (1 + 2 * (v.phase + 4 * (v.count + 512 * v.head))) as u32;
}

// The value of the node that the word w names, turned by the phase in w.
pub(crate) fn named_value(s: &[u32], w: usize) -> Value
    requires { 4 * (w / 4) + 2 < length s.now }
    ensures { result ≡ value_named s.now w }
{
    let m = value_of(s, w / 4);
    Value {
        head: m / 4096,
        count: m / 8 % 512,
        phase: (w % 4 + m / 2 % 4) % 4,
    }
}

// The node above i on the path, or none.
pub(crate) fn link_of(s: &[u32], i: usize) -> Option<usize>
    requires { 4 * i + 3 < length s.now }
    ensures { top_of result ≡ scratch_at 3 s.now i }
{
    // kept: one node by its place, of lent flat words (no heap, C calls it so); a chunk of all is no shorter
    (s[4 * i + 3] as usize).checked_sub(1)
}

pub(crate) fn set_link(s: &mut [u32], i: usize, v: usize)
    requires { (v < 4294967296) × (4 * i + 3 < length s.old) }
    ensures { s.new ≡ set s.old (4 * i + 3) v }
{
    // kept: written word by word: std says nothing of what a slice holds after as_chunks_mut
    s[4 * i + 3] = v as u32;
}

// kept: one word of a node; with the word as an argument no plainer
pub(crate) fn first_word(nodes: &[u32], i: usize) -> u32
    requires { 2 * i < length nodes.now }
    ensures { result ≡ get_or nodes.now (2 * i) 0 }
{
    // kept: one node by its place, of lent flat words (no heap, C calls it so); a chunk of all is no shorter
    nodes[2 * i]
}

// kept: one word of a node; with the word as an argument no plainer
pub(crate) fn second_word(nodes: &[u32], i: usize) -> u32
    requires { 2 * i + 1 < length nodes.now }
    ensures { result ≡ get_or nodes.now (2 * i + 1) 0 }
{
    // kept: one node by its place, of lent flat words (no heap, C calls it so); a chunk of all is no shorter
    nodes[2 * i + 1]
}

// ---- uses

pub(crate) fn add_use(s: &mut [u32], i: usize)
    requires { (4 * i + 1 < length s.old) × (uses_at s.old i < 18446744073709551615) }
    ensures { s.new ≡ with_use s.old i (uses_at s.old i + 1) }
{
    let u = use_of(s, i);
    set_use(s, i, u + 1);
}

// One use less: how many there were is returned.
pub(crate) fn drop_use(s: &mut [u32], i: usize) -> usize
    requires { (4 * i + 1 < length s.old) × (1 ≤ uses_at s.old i) }
    ensures { (result ≡ uses_at s.old i) × (s.new ≡ with_use s.old i (result - 1)) }
{
    let u = use_of(s, i);
    set_use(s, i, u - 1);
    u
}

// A node with a use is reachable, and uses its children: 1 for such a node.
fn count_node(nodes: &[u32], s: &mut [u32], k: usize) -> usize
    requires { Visiting nodes.now s.old k }
    ensures visited { (g : Visiting nodes.now s.old k) → Visited g s.new result }
    ensures values_kept { ValuesKept s.old s.new }
{
    let u = use_of(s, k);
    if u == 0 {
        return 0;
    }
    let a = first_word(nodes, k);
    // kept: a kind by its word: PauliNode::decode asks for the qubits, which a walk has not, and tests what bad_nodes has tested
    if a % 4 != 2 {
        return 1;
    }
    let b = second_word(nodes, k);
    add_use(s, (a / 4) as usize / 4);
    add_use(s, b as usize / 4);
    1
}

// Uses are counted from the top index down; the nodes reached are returned.
// kept: the nodes are lent longer than those of a walk (walk_root walks a part), so the count says how many
pub(crate) fn scan_uses(nodes: &[u32], s: &mut [u32], count: usize) -> usize
    requires { Counting nodes.now s.old count }
    ensures counted_up { (g : Counting nodes.now s.old count) → CountedUp g s.new result }
    ensures values_kept { ValuesKept s.old s.new × (result ≤ count) }
{
    let mut reached = 0;
    for k in (0..count).rev() {
        reached += count_node(nodes, s, k);
    }
    reached
}
