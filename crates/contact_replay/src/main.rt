// Replays the trace of a voyage that stands on standard input, on a fresh active table of 32 rows in key order, and writes one line
// to standard output:
//
//     contact_replay < TRACE
//
//     differs P       the reply expected by the field at P is not what was sent
//     stopped P       the field at P can't be replayed; P is 0 for a bad opening or a trace over 65,536 bytes
//     replayed N      all of it was replayed, N frames
//
// Force, option 0x01 of with-meta writes, is refused with status 0x83 where the trace's first field is tag 5 with one byte of 2. A 1
// there, or no tag 5, has it taken as it was before it was retired. Any other tag 5 is a field that can't be replayed.
//
// P is the offset of a field's tag. The trace ends where the input does, or where it can't be read on: what was read until then is
// replayed. Of an input over 65,536 bytes one byte more is read, and no frame of it is served. Input may come in pieces of any
// size. The exit status is 0 in every case, since a Rattle program has no other.
#![tactic(auto)]

ghost use Rattle.std.specs.Prelude.{◌≡◌, ◌+◌, ◌≤◌, length, take};
ghost use Rattle.replay.specs.Replay.{ending_told, replayed, replay_outcome};
ghost use Rattle.contact_replay.specs.Line.{said, line_of};

use engine::Config;
use replay::ReplayError;

// Room for a trace, and for one byte more, which tells that it is too long. The contract gives only the length, which lending needs.
fn room() -> [u8; 65537]
    ensures { 65537 ≡ length result }
{
    [0; 65537]
}

// The table's memory.
fn memory() -> [u8; 42000]
    ensures { 42000 ≡ length result }
{
    [0; 42000]
}

// Puts a word, a number and a line feed at the start of out, and answers how many bytes they are.
fn put_said(out: &mut [u8], word: &[u8], n: u64) -> usize
    requires { length word.now + 21 ≤ length out.old }
    ensures { take result out.new ≡ said word.now n }
{
    let mut spelled = [0u8; 20];
    let k = digits::put_number(&mut spelled, n);
    let end = word.len() + k;
    octet_writer::put_bytes(out, 0, word);
    octet_writer::put_bytes(out, word.len(), octets::part(&spelled, 0, k));
    octet_writer::put_bytes(out, end, b"\n");
    end + 1
}

// Puts the line that says how a replay ended at the start of out, and answers how many bytes it has.
fn put_line(out: &mut [u8], ending: Result<usize, ReplayError>) -> usize
    requires { 30 ≤ length out.old }
    ensures { take result out.new ≡ line_of (ending_told ending) }
{
    match ending {
        Ok(frames) => put_said(out, b"replayed ", frames as u64),
        Err(ReplayError::Damaged) => 0,
        Err(ReplayError::Differs(at)) => put_said(out, b"differs ", at as u64),
        Err(ReplayError::Stopped(at)) => put_said(out, b"stopped ", at as u64),
    }
}

// Replays a trace in the table's memory, and puts the line for it at the start of out. The memory is of the right size, so there is one.
fn answer(config: Config, table: &mut [u8], trace: &[u8], out: &mut [u8]) -> usize
    requires { (length table.old ≡ 42000) × (30 ≤ length out.old) }
    ensures { (take result out.new ≡ line_of (replayed config table.old trace.now).answer)
        × (replay_outcome (replayed config table.old trace.now).answer ≡ 0) }
{
    put_line(out, replay::replay(config, table, trace))
}

fn main() {
    let mut trace = room();
    let mut table = memory();
    let mut line = [0u8; 30];
    let n = io::read_full(0, &mut trace);
    let len = answer(
        engine::config_for(false),
        &mut table,
        &trace[..n],
        &mut line,
    );
    io::write_all(1, octets::part(&line, 0, len));
}
