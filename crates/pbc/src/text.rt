//! Names, numbers and words in a text: what is read is taken off its front.

ghost use Rattle.std.specs.Prelude.{◌≡◌, ◌+◌, ◌≤◌, ◌<◌, length, IfSome};

use crate::names::Name;

pub(crate) const SPACE: u8 = b' ';

pub(crate) const LINE_FEED: u8 = b'\n';

/// What is left past spaces.
pub(crate) fn past_spaces(text: &[u8]) -> &[u8]
    ensures { length result.now ≤ length text.now }
{
    let mut rest = text;
    // kept: the pattern is the loop's test and its step, and there is no index.
    while let [SPACE, after @ ..] = rest {
        rest = after;
    }
    rest
}

/// From the line feed that ends the line, or from the text's end.
pub(crate) fn line_end(text: &[u8]) -> &[u8]
    ensures { length result.now ≤ length text.now }
{
    let mut rest = text;
    // kept: as above.
    while let [byte, after @ ..] = rest {
        if *byte == LINE_FEED {
            return rest;
        }
        rest = after;
    }
    rest
}

// Whether a name or a number ends where this is left.
fn ends_before(rest: &[u8]) -> bool {
    matches!(rest, [SPACE | LINE_FEED, ..])
}

/// A whole name, and what is left. Each byte is looked at once: most lines are names and numbers.
pub(crate) fn take_name(text: &[u8]) -> Option<(Name, &[u8])>
    ensures { IfSome result (λ read. length read.1.now ≤ length text.now) }
{
    let mut name = Name::new();
    let mut rest = text;
    // kept: as above.
    while let [byte, after @ ..] = rest {
        if ends_before(rest) {
            return Some((name, rest));
        }
        name = name.with_byte(*byte)?;
        rest = after;
    }
    None
}

/// The value of the digits in front, at most the greatest of 64 bits, and what is left; `None` if there is no digit.
pub(crate) fn take_digits(text: &[u8]) -> Option<(u64, &[u8])>
    ensures { IfSome result (λ read. length read.1.now < length text.now) }
{
    let mut value = 0u64;
    let mut rest = text;
    // kept: as above.
    while let [digit @ b'0'..=b'9', after @ ..] = rest {
        value = value
            .saturating_mul(10)
            .saturating_add(u64::from(digit.saturating_sub(b'0')));
        rest = after;
    }
    if rest.len() < text.len() {
        Some((value, rest))
    } else {
        None
    }
}

/// A whole number below 2^32, and what is left.
pub(crate) fn take_number(text: &[u8]) -> Option<(u32, &[u8])>
    ensures { IfSome result (λ read. length read.1.now < length text.now) }
{
    let (value, rest) = take_digits(text)?;
    if !ends_before(rest) {
        return None;
    }
    Some((u32::try_from(value).ok()?, rest))
}

/// What stands before a word, and after it, where it stands first.
pub(crate) fn split_once<'a>(text: &'a [u8], word: &[u8]) -> Option<(&'a [u8], &'a [u8])> {
    for place in 0..text.len() {
        let (before, rest) = text.split_at(place);
        if let Some(after) = rest.strip_prefix(word) {
            return Some((before, after));
        }
    }
    None
}
