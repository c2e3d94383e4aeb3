// Bytes in hexadecimal, with blanks between them where wanted: xx is one byte, and xx*N the same byte N times.
ghost use Rattle.std.specs.Prelude.{◌≡◌, ◌<◌, ◌≤◌, ◌==◌, min, length, take, IfSome};
ghost use Rattle.std.specs.List.{list_all};
ghost use Rattle.vector_text.specs.Hexadecimal.{digit_of, byte_of};

use crate::numbers;
use crate::parts::cut;

// Where N ends: behind its fifth digit at the latest, or at a blank or the text's end, and then all until there has to be a number.
#[derive(Clone, Copy)]
pub enum Times {
    FiveDigits,
    Word,
}

// A byte, how often it stands, and the text behind what says so.
#[derive(Clone, Copy)]
struct Run<'a> {
    byte: u8,
    times: usize,
    left: &'a [u8],
}

// The value of a hexadecimal digit. No capital letter is one.
pub fn digit(c: u8) -> Option<u8>
    ensures { result ≡ digit_of c }
{
    match c {
        b'0'..=b'9' => Some(c - b'0'),
        b'a'..=b'f' => Some(c - b'a' + 10),
        _ => None,
    }
}

// The byte that two hexadecimal digits say.
pub fn byte(high: u8, low: u8) -> Option<u8>
    ensures { result ≡ byte_of high low }
{
    Some(digit(high)? * 16 + digit(low)?)
}

// How often a byte stands, as the text behind the star says, and what follows.
fn times_of(s: &[u8], times: Times) -> Option<(usize, &[u8])>
    ensures { IfSome result (λ x. length x.1.now ≤ length s.now) }
{
    match times {
        Times::FiveDigits => {
            let (n, left) = numbers::leading(s);
            if left.len() == s.len() {
                return None;
            }
            Some((n, left))
        }
        Times::Word => {
            let (word, left) = cut(s, b' ');
            Some((digits::parse(word)? as usize, left))
        }
    }
}

fn first_run(s: &[u8], times: Times) -> Option<Run<'_>>
    ensures { IfSome result (λ run. length run.left.now < length s.now) }
{
    match s {
        [b' ', left @ ..] => Some(Run {
            byte: 0,
            times: 0,
            left,
        }),
        [high, low, b'*', left @ ..] => {
            let byte = byte(*high, *low)?;
            let (times, left) = times_of(left, times)?;
            Some(Run { byte, times, left })
        }
        [high, low, left @ ..] => Some(Run {
            byte: byte(*high, *low)?,
            times: 1,
            left,
        }),
        _ => None,
    }
}

// Puts a byte so many times at a place, as far as they fit, and answers where they end.
fn put_run(out: &mut [u8], at: usize, byte: u8, times: usize) -> usize
    ensures len { length out.new ≡ length out.old }
    ensures end { min at (length out.old) ≤ result }
    ensures kept { take at out.new ≡ take at out.old }
{
    let end = at.saturating_add(times).min(out.len());
    if at < end {
        out[at..end].fill(byte);
    }
    end
}

// Puts the bytes that a text spells at a place, and answers where they end. Where they fill out to its end, they may have been more.
// The contract doesn't say which bytes they are: that would be all of `first_run` a second time. Those before their place stay.
pub fn put(out: &mut [u8], from: usize, s: &[u8], times: Times) -> Option<usize>
    ensures len { length out.new ≡ length out.old }
    ensures kept { take from out.new ≡ take from out.old }
    ensures end { IfSome result (λ end. (from ≤ end) × (end < length out.old)) }
{
    let mut end = from;
    let mut left = s;
    while !left.is_empty() {
        let run = first_run(left, times)?;
        end = put_run(out, end, run.byte, run.times);
        left = run.left;
    }
    if out.len() <= end {
        return None;
    }
    Some(end)
}

// Whether all bytes are such a one.
pub fn are_all(s: &[u8], byte: u8) -> bool
    ensures { result ≡ list_all (λ b. b == byte) s.now }
{
    s.iter().all(|b| *b == byte)
}
