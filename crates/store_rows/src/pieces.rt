//! Bytes as texts, in which pieces may have names.
use crate::stored::text_of;
use cert_check::Entry;
use entry_codec::read_frame;
use row_table::RowFault;
use std::alloc::Global;

/// Bytes with a name.
#[derive(Drop)]
struct Piece {
    name: String,
    bytes: Vec<u8>,
    /// The text of the entry whose frame they are; empty where they are none.
    entry: String,
}

/// The pieces that were named. A text of bytes has words with blanks between them, from left to right: two hexadecimal
/// digits in small letters for a byte, or the name of a piece; `N*WORD` for N times such a word; `<N` to keep only the
/// first N of the bytes so far; `@N=BYTE` to put a byte in place of byte N of them.
#[derive(Drop)]
pub struct Pieces {
    pieces: Vec<Piece>,
}

impl Pieces {
    /// No pieces.
    pub fn new(alloc: Global) -> Pieces {
        Pieces {
            pieces: Vec::new(alloc),
        }
    }

    /// Gives the bytes of a text a name, which stands before it. The answer is how many there are.
    pub fn name(&mut self, alloc: Global, text: &str) -> Result<String, RowFault> {
        let (name, text) = text.split_once(' ').ok_or(RowFault::NoCall)?;
        let bytes = self.bytes_of(alloc, text)?;
        let size = bytes.len();
        let entry = entry_text(alloc, &bytes)?;
        let name = String::from_str(alloc, name)?;
        self.pieces.push(Piece { name, bytes, entry })?;
        Ok(format!(in alloc; "{size}")?)
    }

    /// The bytes of a text.
    pub fn bytes_of(&self, alloc: Global, text: &str) -> Result<Vec<u8>, RowFault> {
        let mut bytes = Vec::new(alloc);
        for word in text.split_whitespace() {
            self.take_word(&mut bytes, word)?;
        }
        Ok(bytes)
    }

    /// Does what a word says.
    fn take_word(&self, bytes: &mut Vec<u8>, word: &str) -> Result<(), RowFault> {
        if let Some(size) = word.strip_prefix('<') {
            return keep_front(bytes, size);
        }
        if let Some(change) = word.strip_prefix('@') {
            return put(bytes, change);
        }
        match word.split_once('*') {
            Some((times, word)) => self.push_times(bytes, times.parse::<u64>()?, word),
            None => self.push_word(bytes, word),
        }
    }

    /// Adds so many times what a word stands for.
    fn push_times(&self, bytes: &mut Vec<u8>, times: u64, word: &str) -> Result<(), RowFault> {
        for _ in 0..times {
            self.push_word(bytes, word)?;
        }
        Ok(())
    }

    /// Adds the piece of this name, or the byte of two digits.
    fn push_word(&self, bytes: &mut Vec<u8>, word: &str) -> Result<(), RowFault> {
        match self.pieces.iter().find(|piece| piece.name.as_str() == word) {
            Some(piece) => bytes.extend_from_slice(&piece.bytes)?,
            None => bytes.push(byte_of(word)?)?,
        }
        Ok(())
    }

    /// The text of some bytes: from each place on the piece that stands there and was named first, or else one byte.
    pub fn spelled(&self, alloc: Global, bytes: &[u8]) -> Result<String, RowFault> {
        let mut text = String::new(alloc);
        let mut rest = bytes;
        for _ in 0..bytes.len() {
            if rest.is_empty() {
                break;
            }
            rest = self.push_front(alloc, &mut text, rest)?;
        }
        Ok(text)
    }

    /// Adds the word for the front of some bytes, and gives those behind it.
    fn push_front<'a>(
        &self,
        alloc: Global,
        text: &mut String,
        rest: &'a [u8],
    ) -> Result<&'a [u8], RowFault> {
        match self.pieces.iter().find(|piece| piece.begins(rest)) {
            Some(piece) => {
                push_word(text, piece.name.as_str())?;
                Ok(rest.get(piece.bytes.len()..).unwrap_or(&[]))
            }
            None => push_byte(alloc, text, rest),
        }
    }

    /// The name of the piece that is the frame of the entry, or the entry's text in brackets.
    pub fn entry_name(&self, alloc: Global, entry: &Entry) -> Result<String, RowFault> {
        let text = text_of(alloc, entry)?;
        match self
            .pieces
            .iter()
            .find(|piece| piece.entry.as_str() == text.as_str())
        {
            Some(piece) => Ok(String::from_str(alloc, piece.name.as_str())?),
            None => Ok(format!(in alloc; "[{text}]")?),
        }
    }
}

impl Piece {
    /// Whether it stands in front of the bytes, and isn't empty.
    fn begins(&self, bytes: &[u8]) -> bool {
        !self.bytes.is_empty() && bytes.starts_with(&self.bytes)
    }
}

/// The text of the entry whose frame the bytes are; empty where they are none.
fn entry_text(alloc: Global, bytes: &[u8]) -> Result<String, RowFault> {
    match read_frame(alloc, bytes) {
        Ok((entry, taken)) if taken == bytes.len() => text_of(alloc, &entry),
        _ => Ok(String::new(alloc)),
    }
}

/// Adds a word, behind a blank where others stand before it.
pub fn push_word(text: &mut String, word: &str) -> Result<(), RowFault> {
    if !text.is_empty() {
        text.push(' ')?;
    }
    text.push_str(word)?;
    Ok(())
}

/// Adds the word for the first byte, and gives those behind it.
fn push_byte<'a>(alloc: Global, text: &mut String, bytes: &'a [u8]) -> Result<&'a [u8], RowFault> {
    match bytes {
        [first, rest @ ..] => {
            push_word(text, format!(in alloc; "{first:02x}")?.as_str())?;
            Ok(rest)
        }
        [] => Ok(bytes),
    }
}

/// Each byte as two digits.
pub fn hex(alloc: Global, bytes: &[u8]) -> Result<String, RowFault> {
    let mut text = String::new(alloc);
    for byte in bytes {
        push_word(&mut text, format!(in alloc; "{byte:02x}")?.as_str())?;
    }
    Ok(text)
}

/// Keeps the first so many of the bytes.
fn keep_front(bytes: &mut Vec<u8>, size: &str) -> Result<(), RowFault> {
    let size = size.parse::<usize>()?;
    if bytes.len() < size {
        return Err(RowFault::NoCall);
    }
    bytes.truncate(size);
    Ok(())
}

/// Puts a byte in its place, as `46=04`.
fn put(bytes: &mut [u8], change: &str) -> Result<(), RowFault> {
    let (place, word) = change.split_once('=').ok_or(RowFault::NoCall)?;
    let byte = byte_of(word)?;
    let slot = bytes
        .get_mut(place.parse::<usize>()?)
        .ok_or(RowFault::NoCall)?;
    *slot = byte;
    Ok(())
}

/// The byte of two hexadecimal digits.
fn byte_of(word: &str) -> Result<u8, RowFault> {
    match word.as_bytes() {
        [high, low] => Ok((digit_of(*high)? << 4) | digit_of(*low)?),
        _ => Err(RowFault::NoCall),
    }
}

/// The value of a hexadecimal digit.
fn digit_of(byte: u8) -> Result<u8, RowFault> {
    match byte {
        b'0'..=b'9' => Ok(byte - b'0'),
        b'a'..=b'f' => Ok(byte - b'a' + 10),
        _ => Err(RowFault::NoCall),
    }
}
