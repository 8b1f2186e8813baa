//! What stands in the arguments and answers of calls.
use outside::NoMemory;
use row_table::RowFault;
use std::alloc::Global;

/// Numbers with blanks between them.
pub fn numbers_of(alloc: Global, text: &str) -> Result<Vec<u64>, RowFault> {
    let mut numbers = Vec::new(alloc);
    for word in text.split_whitespace() {
        numbers.push(number_of(word)?)?;
    }
    Ok(numbers)
}

/// A number.
pub fn number_of(word: &str) -> Result<u64, RowFault> {
    Ok(word.parse::<u64>()?)
}

/// Bytes of two hexadecimal digits each, with blanks between them.
pub fn bytes_of(alloc: Global, text: &str) -> Result<Vec<u8>, RowFault> {
    let mut bytes = Vec::new(alloc);
    for word in text.split_whitespace() {
        bytes.push(byte_of(word)?)?;
    }
    Ok(bytes)
}

/// The byte of two hexadecimal digits.
fn byte_of(word: &str) -> Result<u8, RowFault> {
    Ok(u8::from_str_radix(word, 16)?)
}

/// The same of bytes, the other way round.
pub fn hex_of(alloc: Global, bytes: &[u8]) -> Result<String, NoMemory> {
    let mut text = String::new(alloc);
    for byte in bytes {
        push_byte(alloc, &mut text, *byte)?;
    }
    Ok(text)
}

fn push_byte(alloc: Global, text: &mut String, byte: u8) -> Result<(), NoMemory> {
    if !text.is_empty() {
        text.push(' ')?;
    }
    text.push_str(&format!(in alloc; "{byte:02x}")?)?;
    Ok(())
}

/// The words of a command line, in which a bar stands behind each word; behind the last it may be missing.
pub fn words_of(alloc: Global, line: &str) -> Result<Vec<String>, NoMemory> {
    let mut words = Vec::new(alloc);
    for word in line.split_terminator('|') {
        push_word(alloc, &mut words, word)?;
    }
    Ok(words)
}

fn push_word(alloc: Global, words: &mut Vec<String>, word: &str) -> Result<(), NoMemory> {
    words.push(String::from_str(alloc, word)?)?;
    Ok(())
}
