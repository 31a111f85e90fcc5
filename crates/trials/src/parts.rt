// The notation of a line: parts with a plus between them, where `3*X` is the part X three times.
use crate::failures::Failure;
use hexadecimal::decode;
use std::alloc::Global;

// How many times a part stands there, and the part.
pub(crate) fn repeated(part: &str) -> Result<(u32, &str), Failure> {
    let Some((times, part)) = part.split_once('*') else {
        return Ok((1, part));
    };
    let times = times.parse().map_err(|_| Failure::Unknown)?;
    Ok((times, part))
}

// The bytes of one part, in hexadecimal. `checks` has this line too: a library for it would be longer.
pub(crate) fn part_bytes(heap: Global, digits: &str) -> Result<Vec<u8>, Failure> {
    decode(heap, digits.as_bytes())?.ok_or(Failure::Unknown)
}

// The bytes of all parts, one after the other.
pub(crate) fn bytes(heap: Global, text: &str) -> Result<Vec<u8>, Failure> {
    let mut all = Vec::new(heap);
    for part in text.split('+') {
        let (times, digits) = repeated(part)?;
        let once = part_bytes(heap, digits)?;
        for _ in 0..times {
            all.extend_from_slice(once.as_slice())?;
        }
    }
    Ok(all)
}
