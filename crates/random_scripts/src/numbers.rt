// Numbers in groups of seven bits, and pools of texts, as version 2 has them.

use rb_trees::Memory;

/// The most groups of a number.
const GROUPS: u32 = 10;

/// Appends a number in groups, the lowest first, with the high bit set in all but the last.
pub fn put_groups(number: u64, into: &mut Vec<u8>) -> Result<(), Memory> {
    let mut rest = number;
    for _ in 0..GROUPS {
        let group = (rest % 128) as u8;
        rest /= 128;
        if rest == 0 {
            into.push(group)?;
            return Ok(());
        }
        into.push(group.wrapping_add(128))?;
    }
    Ok(())
}

/// Appends the texts of a pool behind their count.
pub fn put_pool(texts: &[&'static str], into: &mut Vec<u8>) -> Result<(), Memory> {
    put_groups(texts.len() as u64, into)?;
    for text in texts {
        put_groups(text.len() as u64, into)?;
        into.extend_from_slice(text.as_bytes())?;
    }
    Ok(())
}
