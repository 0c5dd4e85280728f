//! The statements before the gates: version, include and the two registers.

#![tactic(auto, unfolding(crate::specs::Reading::and_then, crate::specs::Reading::take_register, crate::specs::Reading::take_version, crate::specs::Reading::take_include))]

ghost use Rattle.std.specs.Prelude.{◌≡◌};
ghost use Rattle.qasm.specs.Reading.{take_register, take_version, take_include};
ghost use Rattle.qasm.specs.Code.Rest.{left_of, register_of};

use crate::blanks::take_sign;
use crate::name::is_name;
use crate::number::take_index;
use crate::word::{take_this, take_word};

// A register's name and its size.
#[derive(Clone, Copy, Debug, PartialEq, Eq)]
pub(crate) struct Register<'a> {
    pub name: &'a [u8],
    pub size: u32,
}

// `OPENQASM 2.0;`
pub(crate) fn take_version(text: &[u8]) -> Option<&[u8]>
    ensures { left_of result ≡ take_version text.now }
{
    let rest = take_this(text, b"OPENQASM")?;
    let rest = take_sign(rest, b"2.0")?;
    take_sign(rest, b";")
}

// `include "qelib1.inc";`
pub(crate) fn take_include(text: &[u8]) -> Option<&[u8]>
    ensures { left_of result ≡ take_include text.now }
{
    let rest = take_this(text, b"include")?;
    let rest = take_sign(rest, b"\"qelib1.inc\"")?;
    take_sign(rest, b";")
}

// A register of this keyword, with a name that differs from another.
pub(crate) fn take_register<'a>(
    text: &'a [u8],
    keyword: &[u8],
    other: &[u8],
) -> Option<(Register<'a>, &'a [u8])>
    ensures { register_of result ≡ take_register keyword.now other.now text.now }
{
    let rest = take_this(text, keyword)?;
    let (name, rest) = take_word(rest)?;
    if !is_name(name) || name == other {
        return None;
    }
    let (size, rest) = take_index(rest)?;
    if size == 0 {
        return None;
    }
    let rest = take_sign(rest, b";")?;
    Some((Register { name, size }, rest))
}
