// The words of a line, and how words and numbers are printed.
use access_check::NoMemory;
use std::alloc::Global;

/// The words of a line, which a space parts.
pub(crate) fn words_of<'a>(alloc: Global, line: &'a [u8]) -> Result<Vec<&'a [u8]>, NoMemory> {
    let mut words = Vec::new(alloc);
    for word in line.split(|byte| *byte == b' ') {
        words.push(word)?;
    }
    Ok(words)
}

/// A decimal number.
pub(crate) fn number_of(word: &[u8]) -> Option<usize> {
    if word.is_empty() {
        return None;
    }
    let mut number = 0usize;
    for byte in word {
        number = with_digit(number, *byte)?;
    }
    Some(number)
}

fn with_digit(number: usize, byte: u8) -> Option<usize> {
    if !byte.is_ascii_digit() {
        return None;
    }
    number
        .checked_mul(10)?
        .checked_add(usize::from(byte - b'0'))
}

/// A space and a word.
pub(crate) fn push_word(out: &mut Vec<u8>, word: &[u8]) -> Result<(), NoMemory> {
    out.push(b' ')?;
    out.extend_from_slice(word)?;
    Ok(())
}

/// A space and a number.
pub(crate) fn push_number(alloc: Global, out: &mut Vec<u8>, number: u32) -> Result<(), NoMemory> {
    out.extend_from_slice(format!(in alloc; " {number}")?.as_bytes())?;
    Ok(())
}

/// A text, and a line feed.
pub(crate) fn push_line(out: &mut Vec<u8>, text: &[u8]) -> Result<(), NoMemory> {
    out.extend_from_slice(text)?;
    out.push(b'\n')?;
    Ok(())
}
