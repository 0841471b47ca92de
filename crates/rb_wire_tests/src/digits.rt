// Payloads as hexadecimal digits.

use std::alloc::{AllocError, Global};

/// What stands in a payload one behind the other: digits, and how many times they stand there.
pub type Pieces<'a> = &'a [(&'a str, usize)];

fn digit(b: u8) -> u8 {
    match b {
        b'0'..=b'9' => b - b'0',
        b'a'..=b'f' => b - b'a' + 10,
        _ => 0,
    }
}

/// Adds the bytes of hexadecimal digits, two a byte. Spaces and ends of lines are skipped, and `#` stands for the byte `turn`.
pub fn add_bytes(into: &mut Vec<u8>, digits: &str, turn: u8) -> Result<(), AllocError> {
    let mut high = None;
    for b in digits.as_bytes() {
        match (*b, high) {
            (b' ', _) | (b'\n', _) => {}
            (b'#', _) => into.push(turn)?,
            (_, None) => high = Some(digit(*b)),
            (_, Some(before)) => {
                into.push(before % 16 * 16 + digit(*b) % 16)?;
                high = None;
            }
        }
    }
    Ok(())
}

/// The bytes of hexadecimal digits.
pub fn bytes_of(alloc: Global, digits: &str) -> Result<Vec<u8>, AllocError> {
    let mut bytes = Vec::new(alloc);
    add_bytes(&mut bytes, digits, 0)?;
    Ok(bytes)
}

/// Adds the bytes of pieces. `#` stands for the number of the turn, from 1 on.
pub fn add_pieces(into: &mut Vec<u8>, pieces: Pieces<'_>) -> Result<(), AllocError> {
    for (digits, times) in pieces {
        for turn in 0..*times {
            add_bytes(into, digits, (turn % 255) as u8 + 1)?;
        }
    }
    Ok(())
}
