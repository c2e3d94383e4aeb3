// The numbers that words spell: decimal, or hexadecimal after 0x.
use vector_text::bytes::digit;
use vector_text::parts;

// The number that hexadecimal digits say, where it is under 2^64.
fn hexadecimal(digits: &[u8]) -> Option<u64> {
    digits.iter().try_fold(0u64, |value, &c| {
        Some(value.checked_mul(16)? | u64::from(digit(c)?))
    })
}

fn number(word: &[u8]) -> Option<u64> {
    match word {
        [b'0', b'x', _, ..] => hexadecimal(&word[2..]),
        _ => digits::parse(word),
    }
}

// So many numbers, and nothing else. `decimals` of store_vectors is this for decimal ones alone: a public function with a closure would need a
// `requires`, which none here has.
pub(crate) fn all<const N: usize>(s: &[u8]) -> Option<[u64; N]> {
    let mut values = [0u64; N];
    let mut words = parts::words(s);
    for value in values.iter_mut() {
        *value = number(words.next()?)?;
    }
    if words.next().is_some() {
        return None;
    }
    Some(values)
}
