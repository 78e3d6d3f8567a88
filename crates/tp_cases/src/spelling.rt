//! How numbers, bytes and long texts are spelled in the tables.
use std::alloc::{AllocError, Global};
use tp_types::NoMemory;

/// The numbers of a word with `/` between them, up to one that cannot be read.
pub fn numbers_of(alloc: Global, word: &str) -> Result<Vec<u32>, NoMemory> {
    let mut numbers = Vec::new(alloc);
    for part in word.split('/') {
        match part.parse::<u32>() {
            Ok(number) => numbers.push(number)?,
            Err(_) => return Ok(numbers),
        }
    }
    Ok(numbers)
}

/// Adds a number, with this before it.
pub fn add_number(
    alloc: Global,
    text: &mut String,
    before: char,
    number: u64,
) -> Result<(), NoMemory> {
    let part = format!(in alloc; "{before}{number}")?;
    text.push_str(part.as_str())?;
    Ok(())
}

/// Adds a word of these numbers, with a blank before it.
pub fn add_word(alloc: Global, text: &mut String, numbers: &[u64]) -> Result<(), NoMemory> {
    let mut before = ' ';
    for number in numbers {
        add_number(alloc, text, before, *number)?;
        before = '/';
    }
    Ok(())
}

/// The byte that the beginning of a text spells, and the rest of it.
fn byte_of(text: &str) -> (u8, &str) {
    if let Some(rest) = text.strip_prefix('n') {
        return (b'\n', rest);
    }
    let digits = text.get(..2).unwrap_or("");
    let byte = u8::from_str_radix(digits, 16).unwrap_or(0);
    (byte, text.get(2..).unwrap_or(""))
}

/// The bytes of a text in which `\n` is the end of a line, and `\` with two digits of base 16 is that byte.
pub fn unescaped(alloc: Global, text: &str) -> Result<Vec<u8>, NoMemory> {
    let mut parts = text.split('\\');
    let mut bytes = Vec::from_slice(alloc, parts.next().unwrap_or("").as_bytes())?;
    for part in parts {
        let (byte, rest) = byte_of(part);
        bytes.push(byte)?;
        bytes.extend_from_slice(rest.as_bytes())?;
    }
    Ok(bytes)
}

/// The bytes that a word spells, each by two digits of base 16. `-` is none.
pub fn bytes_of(alloc: Global, word: &str) -> Result<Vec<u8>, NoMemory> {
    let mut bytes = Vec::new(alloc);
    let mut rest = word;
    for _byte in 0..word.len() / 2 {
        let (byte, behind) = byte_of(rest);
        bytes.push(byte)?;
        rest = behind;
    }
    Ok(bytes)
}

/// Adds blanks up to a length, where one is told, or cuts off what is behind it.
pub fn fill(bytes: &mut Vec<u8>, length: &str) -> Result<(), AllocError> {
    match length.parse::<usize>() {
        Ok(length) => bytes.resize(length, b' '),
        Err(_) => Ok(()),
    }
}
