//! The gates by their names, the reserved words, and which words may name a register.

ghost use Rattle.std.specs.Prelude.{◌≡◌, find, nat_eq, map};
ghost use Rattle.std.specs.List.{list_all, list_any};
ghost use Rattle.std.specs.Cmp.Lexicographic.{pointwise};
ghost use Rattle.std.specs.Option.{option_map};
ghost use Rattle.qasm.specs.Bytes.{word_byte, among};
ghost use Rattle.qasm.specs.Names.{is_name, gate_names, reserved};
ghost use Rattle.qasm.specs.Code.Rest.{gate_found};

use crate::word::{Class, WordBytes};

// The gates: name, number of the kind, qubits.
// kept: both numbers are those of `gate_names`, which may not change; enums would be turned back to them in each contract.
const GATES: [(&[u8], u32, u32); 12] = [
    (b"h", 0, 1),
    (b"x", 1, 1),
    (b"y", 15, 1),
    (b"z", 2, 1),
    (b"s", 3, 1),
    (b"sdg", 4, 1),
    (b"t", 5, 1),
    (b"tdg", 6, 1),
    (b"cx", 8, 2),
    (b"cy", 20, 2),
    (b"cz", 9, 2),
    (b"ccx", 10, 3),
];

// The kind of a measurement.
// kept: `take_measure` of the definitions has this number, and may not change.
pub(crate) const MEASURE: u32 = 12;

const RESERVED: [&[u8]; 16] = [
    b"include", b"qreg", b"creg", b"measure", b"gate", b"opaque", b"if", b"barrier", b"reset",
    b"pi", b"sin", b"cos", b"tan", b"exp", b"ln", b"sqrt",
];

// The kind and the qubits of the first gate of this name.
fn find_gate(gates: &[(&[u8], u32, u32)], word: &[u8]) -> Option<(u32, u32)>
    ensures { result ≡ option_map (λ g. (g.1, g.2)) (find (λ g. pointwise nat_eq word.now g.0.now) gates.now) }
{
    gates.iter().find(|g| word == g.0).map(|g| (g.1, g.2))
}

// Whether the word is one of these.
fn is_among(words: &[&[u8]], word: &[u8]) -> bool
    ensures { result ≡ list_any (λ v. pointwise nat_eq word.now v.now) words.now }
{
    words.iter().any(|v| word == *v)
}

// The kind of a gate of this name, and its number of qubits.
#[tactic(auto, unfolding(crate::specs::Code::Rest::gate_found))]
pub(crate) fn gate_named(word: &[u8]) -> Option<(u32, u32)>
    ensures { result ≡ gate_found word.now }
{
    find_gate(&GATES, word)
}

// Whether all its bytes may stand in a word.
fn is_word(word: &[u8]) -> bool
    ensures { result ≡ list_all word_byte word.now }
{
    word.iter().all(|b| WordBytes::holds(*b))
}

#[tactic(auto, unfolding(crate::specs::Code::Rest::gate_found))]
fn is_gate(word: &[u8]) -> bool
    ensures { result ≡ among word.now (map (λ g. g.name) gate_names) }
{
    gate_named(word).is_some()
}

fn is_reserved(word: &[u8]) -> bool
    ensures { result ≡ among word.now reserved }
{
    is_among(&RESERVED, word)
}

// Whether a word may name a register.
#[tactic(auto, using(crate::proofs::Answered::all_every))]
pub(crate) fn is_name(word: &[u8]) -> bool
    ensures { result ≡ is_name word.now }
{
    match word {
        [first, ..] if first.is_ascii_lowercase() => {
            is_word(word) && !is_gate(word) && !is_reserved(word)
        }
        _ => false,
    }
}
