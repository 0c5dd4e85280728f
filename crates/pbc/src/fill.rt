//! The command that sets every word of every buffer.

ghost use Rattle.std.specs.Prelude.{◌≡◌, cond, slice_index};
ghost use Rattle.pbc.specs.Buffers.{filled};
ghost use Rattle.pbc.specs.Lines.{has_numbers};
ghost use Rattle.pbc.specs.State.{empty_header, headed_of, says_of, Bad, Done};

use crate::buffers::{Buffers, word};
use crate::line::Line;
use crate::state::{CommandState, LineAnswer, LineReply, empty};

/// `fill VALUE`: every word of every buffer becomes the value, and the current circuit one with no qubit.
pub(crate) fn answer(state: CommandState, line: Line, buffers: &mut Buffers) -> LineReply
    ensures value { result ≡ cond (has_numbers line 1) (headed_of state empty_header Done) (says_of state Bad) }
    ensures after { buffers.new ≡ cond (has_numbers line 1) (filled buffers.old (slice_index buffers.old.words 0)) buffers.old }
{
    if !line.has(1) {
        return state.bad();
    }
    let value = word(&buffers.words, 0);
    buffers.fill_all(value);
    state.with_header(empty(), LineAnswer::Done)
}
