//! The classical bits that measurements write to, as bits of lent words: specs/Code/Marks.antt.

ghost use Rattle.std.specs.Prelude.{◌≡◌, true, false, ◌*◌, ◌/◌, ◌<◌, ◌≤◌, length};
ghost use Rattle.convert.specs.Code.Marks.{is_marked, marked};

use crate::planes::bit;

// Whether a classical bit is taken already; from now on it is.
pub(crate) fn take_bit(taken: &mut [u64], b: usize) -> bool
    requires { b / 64 < length taken.old }
    ensures value { result ≡ is_marked b taken.old }
    ensures taken_after { taken.new ≡ marked b taken.old }
{
    let word = taken[b / 64];
    taken[b / 64] = word | bit(b % 64);
    (word >> ((b % 64) as u32)) % 2 == 1
}

// Whether a measurement passes its checks, into a bit that is not taken; from now on it is.
pub(crate) fn take_target(taken: &mut [u64], n: usize, cbits: usize, a: usize, b: usize) -> bool
    requires { cbits ≤ 64 * length taken.old }
    ensures { result ≡ true → (a < n) × (b < cbits) × (is_marked b taken.old ≡ false) × (taken.new ≡ marked b taken.old) }
{
    a < n && b < cbits && !take_bit(taken, b)
}
