//! Names of variables.

ghost use Rattle.std.specs.Prelude.{◌≡◌, ◌↔◌, IsTrue, bytes_eq};
ghost use Rattle.lin_model.specs.Names.{IsName, is_name_start, is_name_byte, is_reserved};

use std::alloc::AllocError;
use std::marker::Model;

/// The most bytes that a name has.
pub const MAX_NAME: usize = 64;

/// The name of a variable: a letter, `_` or `$`, and then these, digits and `.`, at most 64 bytes in
/// all, and none of the reserved words.
#[derive(Debug, Drop)]
pub struct Name {
    bytes: Vec<u8>,
}

impl Model for Name {
    ghost use Rattle.std.specs.Prelude.{List, ℕ};
    ghost use Rattle.lin_model.specs.Names.{IsName};

    ghost Value = { List ℕ };

    ghost view = { λ name. name.bytes.items };

    ghost invariant = { λ name. IsName name.bytes.items };
}

impl Clone for Name {
    /// A copy equals what it was made of.
    ghost is_clone = { λ name copy. copy ≡ name };

    fn clone(&self) -> Result<Name, AllocError> {
        Ok(Name {
            bytes: self.bytes.clone()?,
        })
    }
}

impl Name {
    /// The name with these bytes.
    pub fn new(bytes: Vec<u8>) -> Name
        requires { IsName bytes.items }
        ensures { result ≡ bytes.items }
    {
        Name { bytes }
    }

    /// The bytes of the name, all of them ASCII.
    pub fn as_bytes(&self) -> &[u8]
        ensures bytes { result.now ≡ self.now }
        ensures name { IsName self.now }
    {
        &self.bytes
    }
}

/// Whether the byte begins a name: a letter, `_` or `$`.
pub fn begins_name(byte: u8) -> bool
    ensures { result ≡ is_name_start byte }
{
    byte.is_ascii_alphabetic() || byte == b'_' || byte == b'$'
}

/// Whether a name goes on with the byte: what begins one, a digit or `.`.
pub fn continues_name(byte: u8) -> bool
    ensures { result ≡ is_name_byte byte }
{
    begins_name(byte) || byte.is_ascii_digit() || byte == b'.'
}

/// Whether the bytes spell this word.
fn is_word(bytes: &[u8], word: &str) -> bool
    ensures { result ≡ bytes_eq bytes.now word.now }
{
    bytes == word.as_bytes()
}

/// Whether the bytes are one of the eleven reserved words, which are no names.
pub fn is_reserved(bytes: &[u8]) -> bool
    ensures { result ≡ is_reserved bytes.now }
{
    is_word(bytes, "green")
        || is_word(bytes, "executor")
        || is_word(bytes, "query")
        || is_word(bytes, "var")
        || is_word(bytes, "end")
        || is_word(bytes, "import")
        || is_word(bytes, "push")
        || is_word(bytes, "pop")
        || is_word(bytes, "least")
        || is_word(bytes, "greatest")
        || is_word(bytes, "mod")
}

/// Whether the bytes are a name, as `Name::new` asks for one.
pub fn is_name(bytes: &[u8]) -> bool
    ensures { IsTrue result ↔ IsName bytes.now }
{
    bytes.len() <= MAX_NAME
        && bytes.first().is_some_and(|first| begins_name(*first))
        && bytes.iter().all(|byte| continues_name(*byte))
        && !is_reserved(bytes)
}
