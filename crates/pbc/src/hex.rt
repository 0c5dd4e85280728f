//! The text of a line: hex digits, two a byte. Its bytes are packed four to a word, from word 1 of the line on, since a line that turns out bad changes no buffer.

#![tactic(auto, unfolding(crate::specs::Qasm::digit_of, crate::specs::Qasm::word_with, crate::specs::Qasm::byte_at, crate::specs::Qasm::packed_byte, crate::specs::Qasm::byte_in, crate::specs::Qasm::packed_digit, crate::specs::Qasm::has_text, crate::specs::Qasm::awaits_hex, crate::specs::Qasm::hex_line, crate::specs::Qasm::hex_words, crate::specs::Qasm::hex_ended))]

ghost use Rattle.std.specs.Prelude.{◌≡◌};
ghost use Rattle.pbc.specs.Qasm.{digit_of, byte_of, word_with, byte_at, packed_byte, byte_in, packed_digit, has_text, awaits_hex, last_digit, hex_line, hex_words, hex_ended};

use crate::buffers::{LINE_WORDS, put, word};
use crate::line::{Line, Token};

// The command that has a text.
const COMMAND: &[u8] = b"qasm";

/// The most hex digits of a line: those of 1,048,576 bytes.
pub const MOST_DIGITS: usize = 2097152;

// The value of a hex digit.
fn digit_of(byte: u8) -> Option<u8>
    ensures { result ≡ digit_of byte }
{
    match byte {
        b'0'..=b'9' => Some(byte - b'0'),
        b'a'..=b'f' => Some(byte - b'a' + 10),
        _ => None,
    }
}

// The byte of two hex digits.
fn byte_of(high: u8, low: u8) -> u8
    ensures { result ≡ byte_of high low }
{
    16 * (high % 16) + low % 16
}

// A word with a byte at one of its four places; those after it become 0.
fn word_with(place: usize, word: u32, byte: u8) -> u32
    ensures { result ≡ word_with place word byte }
{
    let [first, second, third, _] = word.to_le_bytes();
    match place {
        0 => u32::from_le_bytes([byte, 0, 0, 0]),
        1 => u32::from_le_bytes([first, byte, 0, 0]),
        2 => u32::from_le_bytes([first, second, byte, 0]),
        _ => u32::from_le_bytes([first, second, third, byte]),
    }
}

// The byte at one of a word's four places.
fn byte_at(place: usize, word: u32) -> u8
    ensures { result ≡ byte_at place word }
{
    word.to_le_bytes()[place.min(3)]
}

// Byte k of the text is stored.
fn put_byte(words: &mut [u32], k: usize, byte: u8)
    ensures { words.new ≡ packed_byte words.old k byte }
{
    let place = 1 + k / 4;
    let joined = word_with(k % 4, word(words, place), byte);
    put(words, place, joined);
}

/// Byte k of the text. Promise: `byte_in`.
pub(crate) fn byte_in(words: &[u32], k: usize) -> u8
    ensures { result ≡ byte_in words.now k }
{
    byte_at(k % 4, word(words, 1 + k / 4))
}

// Hex digit k of the text is read, after another: the second of a byte stores it.
fn put_digit(words: &mut [u32], k: usize, before: u8, digit: u8)
    ensures { words.new ≡ packed_digit words.old k before digit }
{
    if k % 2 == 1 {
        put_byte(words, k / 2, byte_of(before, digit));
    }
}

impl Line {
    /// The command has a text. Promise: `has_text`.
    pub(crate) fn has_text(&self) -> bool
        ensures { result ≡ has_text self.now }
    {
        self.name.as_bytes() == COMMAND
    }

    /// The next token is a text. Promise: `awaits_hex`.
    pub(crate) fn awaits_hex(&self) -> bool
        ensures { result ≡ awaits_hex self.now }
    {
        self.has_text() && self.numbers == 1 && self.digits == 0
    }

    // The digit before, where one is.
    fn last_digit(&self) -> u8
        ensures { result ≡ last_digit self.now.token }
    {
        match self.token {
            Token::Hex(digit) => digit,
            _ => 0,
        }
    }

    /// One byte more of the text. Promise: `hex_line` and `hex_words`.
    pub(crate) fn put_hex(&mut self, byte: u8, words: &mut [u32; LINE_WORDS])
        ensures line_after { self.new ≡ hex_line self.old byte }
        ensures words_after { words.new ≡ hex_words self.old byte words.old }
    {
        match digit_of(byte) {
            Some(digit) if self.digits < MOST_DIGITS => {
                put_digit(words, self.digits, self.last_digit(), digit);
                self.token = Token::Hex(digit);
                self.digits += 1;
            }
            _ => self.spoil(),
        }
    }

    /// The text has ended: an odd number of digits is none. Promise: `hex_ended`.
    pub(crate) fn end_hex(&mut self)
        ensures { self.new ≡ hex_ended self.old }
    {
        if self.digits % 2 == 1 {
            self.spoil()
        } else {
            self.pause()
        }
    }
}
