// Replays the traces that lines of standard input spell, and prints an answer for each line:
//
//     # ..        a heading, printed as it is; so is an empty line
//     TRACE       how its replay ends: `differs` and a place, `stopped` and a place, or `replayed` and a number of frames
//
// TRACE is segments, a + between two: hexadecimal digits, with *N behind them where their bytes stand N times, N of 1 to 5 decimal
// digits. Any other line is answered by `what?`, and so is one that spells 70,000 bytes or more. The input is read up to 262,144 bytes.
//
// Each trace is replayed on rows in key order, in memory filled with ee. Where it stops at 0, ` CHANGED` follows unless the memory is
// as it was. ` ENGINES DIFFER` follows if the plain engine answers otherwise, or leaves other documents. If memory one byte short or
// one too long isn't refused unchanged, `WRONG SIZE TAKEN` is the first line.
#![tactic(auto)]

mod alike;
mod traces;

ghost use Rattle.std.specs.Prelude.{◌≡◌, ◌≤◌, length};

use engine::Config;
use replay::ReplayError;
use vector_text::parts::lines;
use vector_text::show::{decimal, text};

const FILL: u8 = 0xee;

// Room for the input.
fn input_room() -> [u8; 262144]
    ensures { 262144 ≡ length result }
{
    [0; 262144]
}

// Room for the bytes that a line spells.
fn trace_room() -> [u8; 70000]
    ensures { 70000 ≡ length result }
{
    [0; 70000]
}

// Memory that nothing was written to yet: a byte more than a replay takes.
fn memory() -> [u8; 42001]
    ensures { 42001 ≡ length result }
{
    [FILL; 42001]
}

fn show_ending(ending: Result<usize, ReplayError>) {
    match ending {
        Ok(frames) => decimal(b"replayed ", frames as u64),
        Err(ReplayError::Damaged) => text(b"damaged"),
        Err(ReplayError::Differs(at)) => decimal(b"differs ", at as u64),
        Err(ReplayError::Stopped(at)) => decimal(b"stopped ", at as u64),
    }
}

// Replays a trace in the first n bytes of memory.
fn replay_in(
    config: Config,
    memory: &mut [u8],
    n: usize,
    trace: &[u8],
) -> Result<usize, ReplayError>
    requires { n ≤ length memory.old }
{
    replay::replay(config, &mut memory[..n], trace)
}

fn answer_in(after: &mut [u8], before: &[u8], trace: &[u8]) -> Result<usize, ReplayError>
    requires { 42001 ≤ length after.old }
{
    let ending = replay_in(engine::config_for(false), after, replay::SIZE, trace);
    show_ending(ending);
    if matches!(ending, Err(ReplayError::Damaged | ReplayError::Stopped(0)))
        && !compare::same(after, before)
    {
        text(b" CHANGED");
    }
    ending
}

// Replays the trace on the plain engine too, and says whether that comes out otherwise.
fn compare_in(other: &mut [u8], after: &[u8], ending: Result<usize, ReplayError>, trace: &[u8])
    requires { 42001 ≤ length other.old }
{
    let plain = replay_in(engine::config_for(true), other, replay::SIZE, trace);
    if !(ending == plain && alike::are_alike(after, other)) {
        text(b" ENGINES DIFFER");
    }
}

fn answer_trace(trace: &[u8]) {
    let before = memory();
    let mut after = memory();
    let mut other = memory();
    let ending = answer_in(&mut after, &before, trace);
    compare_in(&mut other, &after, ending, trace);
}

fn is_left_in(after: &mut [u8], before: &[u8], n: usize) -> bool
    requires { n ≤ length after.old }
{
    let ending = replay_in(engine::config_for(false), after, n, b"\x01\0\x07");
    matches!(ending, Err(ReplayError::Damaged)) && compare::same(after, before)
}

// Whether memory of so many bytes is refused and stays as it was.
fn is_left(n: usize) -> bool
    requires { n ≤ 42001 }
{
    let before = memory();
    let mut after = memory();
    is_left_in(&mut after, &before, n)
}

// The space is for the bytes that a line spells.
fn answer_line(line: &[u8], space: &mut [u8]) {
    if line.is_empty() || line.starts_with(b"#") {
        text(line);
        return;
    }
    match traces::spelled(space, line) {
        Some(trace) => answer_trace(trace),
        None => text(b"what?"),
    }
}

fn answer_lines(input: &[u8], space: &mut [u8]) {
    for line in lines(input) {
        answer_line(line, space);
        text(b"\n");
    }
}

fn main() {
    let mut input = input_room();
    let mut space = trace_room();
    if !(is_left(replay::SIZE - 1) && is_left(replay::SIZE + 1)) {
        text(b"WRONG SIZE TAKEN\n");
    }
    let n = io::read_full(0, &mut input);
    answer_lines(&input[..n], &mut space);
}
