// Packets and books cut and put together.
use std::test::Fail;

// The first so many bytes.
pub fn start(bytes: &[u8], length: usize) -> Result<&[u8], Fail> {
    Ok(bytes.get(..length).ok_or("too few bytes")?)
}

// The same bytes with others at a place.
pub fn with_bytes<const N: usize>(
    bytes: &[u8; N],
    at: usize,
    others: &[u8],
) -> Result<[u8; N], Fail> {
    let mut copy = *bytes;
    for (i, byte) in others.iter().enumerate() {
        let slot = copy.get_mut(at.saturating_add(i)).ok_or("no such place")?;
        *slot = *byte;
    }
    Ok(copy)
}
