//! Bytes as text on one line.
use crate::RowFault;
use outside::NoMemory;
use std::alloc::Global;

/// The bytes of a text in which a backslash begins an escape: `\n`, `\r`, `\t`, `\\`, `\)`, `\x` with the two digits of a
/// byte in small letters, and `\(N:PIECE)` for N times a piece, which may have escapes but none of this kind. In a piece
/// `\#` is the number of the time, from 0 on.
///
/// `BadEscape` where another byte stands behind a backslash, or an escape isn't ended.
pub fn unescaped(alloc: Global, text: &str) -> Result<Vec<u8>, RowFault> {
    let mut unescaper = Unescaper {
        alloc,
        bytes: Vec::new(alloc),
        piece: Vec::new(alloc),
        place: Place::Plain,
        times: None,
    };
    for byte in text.as_bytes() {
        unescaper.take(*byte)?;
    }
    unescaper.end()
}

/// The text of one line that stands for the bytes.
pub fn escaped(alloc: Global, bytes: &[u8]) -> Result<String, NoMemory> {
    let mut text = String::new(alloc);
    for byte in bytes {
        push_escaped(alloc, &mut text, *byte)?;
    }
    Ok(text)
}

/// Adds what stands for a byte.
fn push_escaped(alloc: Global, text: &mut String, byte: u8) -> Result<(), NoMemory> {
    match byte {
        b'\n' => text.push_str("\\n")?,
        b'\\' => text.push_str("\\\\")?,
        b' '..=b'~' => text.push(char::from(byte))?,
        _ => text.push_str(&format!(in alloc; "\\x{byte:02x}")?)?,
    }
    Ok(())
}

/// What the next byte of a text is part of.
#[derive(Clone, Copy)]
enum Place {
    /// No escape.
    Plain,
    /// An escape, behind its backslash.
    Escape,
    /// The first digit of a byte.
    High,
    /// The second, behind the first.
    Low(u8),
    /// How often a piece is to stand, behind its digits so far.
    Times(u32),
}

/// A part of a piece that is to be repeated.
#[derive(Clone, Copy)]
enum Part {
    /// This byte.
    Byte(u8),
    /// The number of the time.
    Number,
}

/// A text that is read byte by byte.
#[derive(Drop)]
struct Unescaper {
    /// Where memory comes from.
    alloc: Global,
    /// What was read.
    bytes: Vec<u8>,
    /// What was read of a piece that is to be repeated.
    piece: Vec<Part>,
    /// Where the text stands.
    place: Place,
    /// How often the piece is to stand, within one.
    times: Option<u32>,
}

impl Unescaper {
    /// Takes the next byte.
    fn take(&mut self, byte: u8) -> Result<(), RowFault> {
        match self.place {
            Place::Plain => self.take_plain(byte),
            Place::Escape => self.take_escape(byte),
            Place::High => {
                self.place = Place::Low(digit_of(byte)?);
                Ok(())
            }
            Place::Low(high) => self.put(high << 4 | digit_of(byte)?),
            Place::Times(times) => self.take_times(times, byte),
        }
    }

    /// Takes a byte outside all escapes.
    fn take_plain(&mut self, byte: u8) -> Result<(), RowFault> {
        match (byte, self.times) {
            (b'\\', _) => {
                self.place = Place::Escape;
                Ok(())
            }
            (b')', Some(times)) => self.repeat(times),
            _ => self.put(byte),
        }
    }

    /// Takes the byte behind a backslash.
    fn take_escape(&mut self, byte: u8) -> Result<(), RowFault> {
        match byte {
            b'n' => self.put(b'\n'),
            b'r' => self.put(b'\r'),
            b't' => self.put(b'\t'),
            b'\\' | b')' => self.put(byte),
            b'x' => {
                self.place = Place::High;
                Ok(())
            }
            b'(' if self.times.is_none() => {
                self.place = Place::Times(0);
                Ok(())
            }
            b'#' if self.times.is_some() => {
                self.place = Place::Plain;
                Ok(self.piece.push(Part::Number)?)
            }
            _ => Err(RowFault::BadEscape),
        }
    }

    /// Takes a digit of a number, or the colon behind it.
    fn take_times(&mut self, times: u32, byte: u8) -> Result<(), RowFault> {
        match byte {
            b':' => {
                self.times = Some(times);
                self.place = Place::Plain;
                Ok(())
            }
            b'0'..=b'9' if times < 10_000_000 => {
                self.place = Place::Times(times * 10 + u32::from(byte - b'0'));
                Ok(())
            }
            _ => Err(RowFault::BadEscape),
        }
    }

    /// Adds a byte that was read.
    fn put(&mut self, byte: u8) -> Result<(), RowFault> {
        self.place = Place::Plain;
        if self.times.is_some() {
            self.piece.push(Part::Byte(byte))?;
        } else {
            self.bytes.push(byte)?;
        }
        Ok(())
    }

    /// Ends a piece that is to stand so often.
    fn repeat(&mut self, times: u32) -> Result<(), RowFault> {
        for number in 0..times {
            self.push_piece(number)?;
        }
        self.piece.clear();
        self.times = None;
        Ok(())
    }

    /// Adds the piece, at the time of this number.
    fn push_piece(&mut self, number: u32) -> Result<(), NoMemory> {
        for part in &self.piece {
            match part {
                Part::Byte(byte) => self.bytes.push(*byte)?,
                Part::Number => push_number(self.alloc, &mut self.bytes, number)?,
            }
        }
        Ok(())
    }

    /// The bytes, at the end of the text.
    fn end(self) -> Result<Vec<u8>, RowFault> {
        match (self.place, self.times) {
            (Place::Plain, None) => Ok(self.bytes),
            _ => Err(RowFault::BadEscape),
        }
    }
}

/// Adds the digits of a number.
fn push_number(alloc: Global, bytes: &mut Vec<u8>, number: u32) -> Result<(), NoMemory> {
    let digits = format!(in alloc; "{number}")?;
    bytes.extend_from_slice(digits.as_bytes())?;
    Ok(())
}

/// The value of a hexadecimal digit in small letters.
fn digit_of(byte: u8) -> Result<u8, RowFault> {
    match byte {
        b'0'..=b'9' => Ok(byte - b'0'),
        b'a'..=b'f' => Ok(byte - b'a' + 10),
        _ => Err(RowFault::BadEscape),
    }
}
