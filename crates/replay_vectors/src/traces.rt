// The trace that a line spells.
ghost use Rattle.std.specs.Prelude.{◌≡◌, ◌<◌, length, IfSome};

use vector_text::bytes::{byte, digit};
use vector_text::parts::split_once;

// Puts the bytes that pairs of hexadecimal digits spell at a place, and answers where they end, if they fit.
fn put_pairs(out: &mut [u8], from: usize, pairs: &[[u8; 2]]) -> Option<usize>
    ensures { length out.new ≡ length out.old }
{
    let mut end = from;
    for &[high, low] in pairs {
        *out.get_mut(end)? = byte(high, low)?;
        end += 1;
    }
    Some(end)
}

// A segment's digits, and how often their bytes stand: once where its text doesn't say it.
fn digits_and_times(segment: &[u8]) -> Option<(&[u8], u64)> {
    match split_once(segment, b'*') {
        None => Some((segment, 1)),
        Some((digits, times)) if times.len() <= 5 => Some((digits, digits::parse(times)?)),
        Some(_) => None,
    }
}

// Digits that stand no times are to be digits too.
fn put_segment(out: &mut [u8], from: usize, segment: &[u8]) -> Option<usize>
    ensures { length out.new ≡ length out.old }
{
    let (digits, times) = digits_and_times(segment)?;
    let (pairs, odd) = digits.as_chunks::<2>();
    if pairs.is_empty() || !odd.is_empty() || !digits.iter().all(|c| digit(*c).is_some()) {
        return None;
    }
    let mut end = from;
    for _ in 0..times {
        end = put_pairs(out, end, pairs)?;
    }
    Some(end)
}

// The bytes of all segments, a + between two, put at the start of a space that is longer than they are.
pub(crate) fn spelled<'a>(space: &'a mut [u8], line: &[u8]) -> Option<&'a [u8]> {
    let mut end = 0;
    for segment in line.split(|b| *b == b'+') {
        end = put_segment(space, end, segment)?;
    }
    if space.len() <= end {
        return None;
    }
    Some(&space[..end])
}
