// Bytes as hexadecimal text, two digits a byte.
#![tactic(auto)]

ghost use Rattle.std.specs.Prelude.{◌≡◌, ◌<◌, IfOk, vec_items, string_bytes};
ghost use Rattle.std.specs.Option.{option_map};
ghost use Rattle.hexadecimal.specs.Digits.{digit_value, decoded, encoded};

use std::alloc::{AllocError, Global};

// The value of a digit, in capitals or not.
fn value(letter: u8) -> Option<u8>
    ensures { result ≡ digit_value letter }
{
    if letter >= 48 && letter < 58 {
        Some(letter - 48)
    } else if letter >= 65 && letter < 71 {
        Some(letter - 55)
    } else if letter >= 97 && letter < 103 {
        Some(letter - 87)
    } else {
        None
    }
}

// The bytes that the digits of `text` spell; nothing where it has another character or an odd number of digits. They are read
// pair by pair, and not by `hex::decode`, which asks for the memory of all of them before it looks at the first.
pub fn decode(heap: Global, text: &[u8]) -> Result<Option<Vec<u8>>, AllocError>
    ensures { IfOk result (λ o. option_map vec_items o ≡ decoded text.now) }
{
    if text.len() % 2 != 0 {
        return Ok(None);
    }
    let mut bytes = Vec::new(heap);
    let mut rest = text;
    while let [high, low, more @ ..] = rest {
        let Some(high) = value(*high) else {
            return Ok(None);
        };
        let Some(low) = value(*low) else {
            return Ok(None);
        };
        bytes.push(high * 16 + low)?;
        rest = more;
    }
    Ok(Some(bytes))
}

// The digits of the bytes, in capitals.
pub fn encode(heap: Global, bytes: &[u8]) -> Result<String, AllocError>
    ensures { IfOk result (λ s. string_bytes s ≡ encoded bytes.now) }
{
    hex::encode_upper(heap, bytes)
}
