//! Past blanks: white space, and comments to the end of their line; and signs, bytes as they stand past blanks.

#![tactic(auto, unfolding(crate::specs::Reading::blank, crate::specs::Reading::take_sign))]

ghost use Rattle.std.specs.Prelude.{◌≡◌, false, ◌≤◌, length};
ghost use Rattle.qasm.specs.Tokens.{slashed};
ghost use Rattle.qasm.specs.Reading.{skip, blank, take_sign};
ghost use Rattle.qasm.specs.Code.Rest.{left_of};

use crate::word::{Line, White, split_run};

// Whether a comment begins here.
#[inline(always)]
fn begins_comment(text: &[u8]) -> bool
    ensures { result ≡ slashed text.now }
{
    text.starts_with(b"//")
}

// Past white space, then as long as a comment begins, past its line and past white space.
#[tactic(auto, using(crate::proofs::Runs::skip_white, crate::proofs::Runs::left_again, crate::proofs::Runs::left_shorter, crate::proofs::Runs::past_comment, crate::proofs::Runs::line_shorter, crate::proofs::Runs::no_blank), unfolding(crate::specs::Reading::blank))]
#[inline(always)]
fn past_blanks(text: &[u8]) -> &[u8]
    ensures value { result.now ≡ skip false text.now }
    ensures shorter { length result.now ≤ length text.now }
{
    let (_, mut rest) = split_run::<White>(text);
    // kept: what is left past a comment says whether another begins; there is nothing to iterate over.
    while begins_comment(rest) {
        let (_, line_feed) = split_run::<Line>(rest);
        let (_, after) = split_run::<White>(line_feed);
        rest = after;
    }
    rest
}

// Past blanks. Most often none stands there, and the first byte tells.
#[inline(always)]
pub(crate) fn skip_blanks(text: &[u8]) -> &[u8]
    ensures value { result.now ≡ blank text.now }
    ensures shorter { length result.now ≤ length text.now }
{
    match text {
        [first, ..] if b' ' < *first && *first != b'/' => text,
        _ => past_blanks(text),
    }
}

// Bytes as they stand, past blanks.
#[tactic(auto, using(crate::proofs::Answered::stripped), unfolding(crate::specs::Reading::take_sign))]
#[inline(always)]
pub(crate) fn take_sign<'a>(text: &'a [u8], sign: &[u8]) -> Option<&'a [u8]>
    ensures { left_of result ≡ take_sign sign.now text.now }
{
    skip_blanks(text).strip_prefix(sign)
}
