//! Names of commands and buffers: lower-case letters and decimal digits.

#![tactic(auto, unfolding(crate::specs::Names::extended_name, crate::specs::Names::name_byte))]

ghost use Rattle.std.specs.Prelude.{◌≡◌, ◌==◌};
ghost use Rattle.pbc.specs.Names.{no_name, extended_name, name_bytes};

// The most bytes of a name.
const LONGEST: usize = 12;

/// A name, or what was read of it so far.
#[derive(Clone, Copy, Debug, PartialEq, Eq)]
pub struct Name {
    bytes: [u8; LONGEST],
    length: usize,
}

impl Name {
    /// Nothing is read yet.
    pub(crate) fn new() -> Name
        ensures { result ≡ no_name }
    {
        Name {
            bytes: [0; LONGEST],
            length: 0,
        }
    }

    pub(crate) fn is_empty(&self) -> bool
        ensures { result ≡ (self.now.length == 0) }
    {
        self.length == 0
    }

    pub(crate) fn as_bytes(&self) -> &[u8]
        ensures { result.now ≡ name_bytes self.now }
    {
        self.bytes.get(..self.length).unwrap_or(&self.bytes)
    }

    /// The name with one byte more; none if it has twelve, or the byte is no lower-case letter and no digit.
    pub(crate) fn with_byte(mut self, byte: u8) -> Option<Name>
        ensures { result ≡ extended_name self byte }
    {
        if LONGEST <= self.length || !(byte.is_ascii_lowercase() || byte.is_ascii_digit()) {
            return None;
        }
        self.bytes[self.length] = byte;
        self.length += 1;
        Some(self)
    }
}
