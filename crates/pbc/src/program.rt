//! The command that reads an OpenQASM 2 text into the words of its line.

#![tactic(auto, using(crate::proofs::TextBytes::room_fits, crate::proofs::TextBytes::text_none, crate::proofs::TextBytes::text_more), unfolding(crate::specs::Qasm::text_fits, crate::specs::Qasm::qasm_command))]

ghost use Rattle.std.specs.Prelude.{◌≡◌};
ghost use Rattle.pbc.specs.Buffers.{copied};
ghost use Rattle.pbc.specs.Qasm.{text_fits, text_in, text_read, qasm_command};

use crate::buffers::{LETTERS, LINE_WORDS, part, put, word};
use crate::hex::{MOST_DIGITS, byte_in};
use crate::line::Line;
use crate::state::{CommandState, LineAnswer, LineReply};
use qasm::read_qasm;

/// The most gate words that a line lends.
const MOST_ROOM: usize = 262148;

// The line has a room and a text, and both are within their limits.
fn is_fine(line: Line, words: &[u32]) -> bool
    ensures { result ≡ text_fits line words.now }
{
    line.has(1) && line.digits <= MOST_DIGITS && word(words, 0) as usize <= MOST_ROOM
}

// The bytes of the text, so many, come to the front of the letters.
fn unpack(words: &[u32], count: usize, letters: &mut [u8])
    ensures { letters.new ≡ copied (text_in words.now count) letters.old }
{
    // kept: no slice of the text's bytes is at hand, only its packed words: `byte_in` takes the place k, which `enumerate` over the letters would count too.
    for k in 0..count {
        put(letters, k, byte_in(words, k));
    }
}

/// `qasm ROOM HEX`: the text's bytes then stand at the front of the letters, its gate records at the front of the words. Promise: `qasm_command`.
// kept: two of the buffers, in fixed memory: lent alone, they tell that the command leaves every other one as it is, which `Buffers` whole would not.
pub(crate) fn answer(
    state: CommandState,
    line: Line,
    words: &mut [u32; LINE_WORDS],
    letters: &mut [u8; LETTERS],
) -> LineReply
    ensures { text_read result words.new letters.new ≡ qasm_command state line words.old letters.old }
{
    if !is_fine(line, words) {
        return state.bad();
    }
    let room = word(words, 0) as usize;
    let count = line.digits / 2;
    unpack(words, count, letters);
    let read = read_qasm(part(letters, 0, count), &mut words[..room]);
    state.tells(read.map(|program| {
        LineAnswer::Gates(
            u64::from(program.qubits),
            u64::from(program.cbits),
            program.gates,
        )
    }))
}
