//! A line read byte by byte.

use crate::buffers::{LINE_WORDS, put};
use crate::line::{Line, Number, Token, Wide};
use crate::names::Name;
use crate::text::SPACE;

// Before the first digit.
const ZERO: Number = Number {
    magnitude: 0,
    negative: false,
};

const MINUS_ZERO: Number = Number {
    magnitude: 0,
    negative: true,
};

impl Number {
    // With one digit more; a magnitude of more than 64 bits stays the greatest.
    fn with_digit(self, digit: u8) -> Number {
        let magnitude = self
            .magnitude
            .saturating_mul(10)
            .saturating_add(u64::from(digit));
        Number { magnitude, ..self }
    }

    // Of 64 bits.
    fn fits(self) -> bool {
        self.magnitude <= i64::MAX as u64 || (self.negative && self.magnitude == 1 << 63)
    }
}

impl Line {
    /// One byte more, which is no line feed.
    pub(crate) fn push(&mut self, byte: u8, words: &mut [u32; LINE_WORDS]) {
        self.grow(1);
        if self.bad {
            return;
        }
        if byte == SPACE {
            self.end(words)
        } else {
            self.go_on(byte, words)
        }
    }

    // A byte of a name, a number or a text.
    fn go_on(&mut self, byte: u8, words: &mut [u32; LINE_WORDS]) {
        match self.token {
            Token::Between => self.begin(byte, words),
            Token::Name => self.name = self.longer(self.name, byte),
            Token::Buffer => self.buffer = self.longer(self.buffer, byte),
            Token::Minus => self.put_digit(MINUS_ZERO, byte),
            Token::Number(number) => self.put_digit(number, byte),
            Token::Hex(_) => self.put_hex(byte, words),
        }
    }

    // The first byte.
    fn begin(&mut self, byte: u8, words: &mut [u32; LINE_WORDS]) {
        if self.name.is_empty() {
            self.token = Token::Name;
            self.name = self.longer(self.name, byte)
        } else if self.awaits_hex() {
            self.put_hex(byte, words)
        } else if byte.is_ascii_lowercase() {
            self.begin_buffer(byte)
        } else if byte == b'-' {
            self.token = Token::Minus
        } else {
            self.put_digit(ZERO, byte)
        }
    }

    // A name with one byte more; one that is too long stays, and spoils the line.
    fn longer(&mut self, name: Name, byte: u8) -> Name {
        match name.with_byte(byte) {
            Some(longer) => longer,
            None => {
                self.spoil();
                name
            }
        }
    }

    // A buffer's name stands before every number, and once.
    fn begin_buffer(&mut self, byte: u8) {
        if self.has(0) {
            self.token = Token::Buffer;
            self.buffer = self.longer(self.buffer, byte)
        } else {
            self.spoil()
        }
    }

    // A digit after those of a number.
    fn put_digit(&mut self, number: Number, byte: u8) {
        if byte.is_ascii_digit() {
            self.token = Token::Number(number.with_digit(byte - b'0'))
        } else {
            self.spoil()
        }
    }

    /// The name, number or text that was being read has ended.
    pub(crate) fn end(&mut self, words: &mut [u32; LINE_WORDS]) {
        match self.token {
            Token::Number(number) => self.end_number(number, words),
            Token::Minus => self.spoil(),
            Token::Hex(_) => self.end_hex(),
            Token::Between | Token::Name | Token::Buffer => self.pause(),
        }
    }

    fn end_number(&mut self, number: Number, words: &mut [u32; LINE_WORDS]) {
        match u32::try_from(number.magnitude) {
            Ok(word) if !number.negative => put(words, self.numbers, word),
            _ => self.put_wide(number),
        }
        self.numbers = self.numbers.saturating_add(1);
        self.pause();
    }

    // The first of its kind, and of 64 bits.
    fn put_wide(&mut self, number: Number) {
        if self.wide.is_some() || !number.fits() {
            return self.spoil();
        }
        self.wide = Some(Wide {
            place: self.numbers,
            number,
        });
    }
}
