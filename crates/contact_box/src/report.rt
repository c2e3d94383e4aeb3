// What is said on standard error: lines, each written at once, since the boxes of several connections may share it; the system's errors
// go there in parts.
use crate::arguments::Fault;
use std::fmt::Display;
use std::io;
use std::io::Write;
use tally::Tally;

// Says a line, of at most 170 bytes.
pub(crate) fn line<W: Write, D: Display>(to: &mut W, text: &D) {
    let mut line = [0u8; 170];
    let mut room = &mut line[..];
    let _ = writeln!(room, "contact_box: {text}");
    let left = room.len();
    let _ = to.write_all(octets::part(&line, 0, octets::minus(170, left)));
}

// The tally, and the clock that the table keeps at the end.
pub(crate) fn ended<W: Write>(to: &mut W, t: Tally, kept: u32) {
    let served = t.served;
    let refused = t.refused;
    let silent = t.silent;
    line(
        to,
        &format_args!("served {served}, refused {refused}, silent {silent}, kept clock {kept}"),
    );
}

// What is wrong with the arguments.
pub(crate) fn wrong<W: Write>(to: &mut W, fault: Fault) {
    line(
        to,
        &format_args!("{fault}; usage: contact_box ROWS VBUCKET MODE [TRACE]"),
    );
}

// An error's words, without the number that its text tells behind them: `No such file or directory (os error 2)`.
fn words_of(text: &[u8]) -> &[u8] {
    let number = text
        .windows(11)
        .position(|part| matches!(part, b" (os error "));
    octets::part(text, 0, number.unwrap_or(text.len()))
}

// What failed, and why.
pub(crate) fn failed<W: Write>(to: &mut W, what: &[u8], why: io::Error) {
    let mut text = [0u8; 320];
    let mut room = &mut text[..];
    let _ = write!(room, "{why}");
    let left = room.len();
    let _ = to.write_all(what);
    let _ = to.write_all(b": ");
    let _ = to.write_all(words_of(octets::part(&text, 0, octets::minus(320, left))));
    let _ = to.write_all(b"\n");
}
