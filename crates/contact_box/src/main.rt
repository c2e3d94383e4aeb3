// The box: serves the frames that come on standard input on a fresh, active table, by the system's clock, and writes the replies to
// standard output.
//
//     contact_box ROWS VBUCKET MODE [TRACE]
//
//     ROWS        1 to 256
//     VBUCKET     0 to 65535
//     MODE        revision or last-write-wins
//     TRACE       a file; ROWS is 32 then
//
// With a TRACE it records what it serves there, as a trace that can be replayed: that force is refused, then each frame with its clock
// and its reply, up to 65,536 bytes in all. The first frame that doesn't fit ends the recording, and a write that fails does too; serving goes on.
//
// The table keeps the latest clock: where the system's goes back, no contact that was expired to a frame comes alive again.
//
// It ends where the input ends, at a frame with outcome 2 or 3, which have the caller close, and where reading or writing fails. Then it
// says its tally and the kept clock on standard error, and how much it recorded or where it stopped to. Arguments that it can't serve by,
// or a TRACE that can't be opened, as where its name isn't UTF-8, get a line there and nothing else. The exit status is 0 in every case.
#![tactic(auto)]

mod arguments;
mod clock;
mod recorder;
mod report;
mod session;
mod writing;

ghost use Rattle.std.specs.Prelude.{◌≡◌, length};
ghost use Rattle.rows.specs.Table.{table_bytes, fresh};
ghost use Rattle.owning.specs.Owner.{size_of};
ghost use Rattle.contact_box.specs.Arguments.{mode_number, Fits};

use arguments::{Asked, Setup};
use recorder::Recorder;
use std::io::Write;

const ACTIVE: u8 = 1;

// Room for a table of 256 rows. The contract gives only the length, which lending a part needs.
fn memory() -> [u8; 335888]
    ensures { 335888 ≡ length result }
{
    [0; 335888]
}

// Room for received bytes, or for replies: as many as a pipe hands over at once.
fn area() -> [u8; 65536]
    ensures { 65536 ≡ length result }
{
    [0; 65536]
}

fn make_table(table: &mut [u8], setup: Setup)
    requires { (length table.old ≡ size_of setup.rows) × Fits setup }
    ensures { table.new ≡ table_bytes (fresh setup.rows 1 (mode_number setup.mode) setup.vbucket) }
{
    let _ = owner::make(
        table,
        setup.rows,
        ACTIVE,
        setup.mode.number(),
        setup.vbucket,
    );
}

// Serves standard input, and records to a trace where the recorder is on.
fn serve<T: Write>(rt: &HostRuntime, setup: Setup, trace: &mut T, recorder: Recorder)
    requires { Fits setup }
{
    let mut memory = memory();
    let mut received = area();
    let mut replies = area();
    let size = owner::size(setup.rows);
    let table = &mut memory[..size];
    make_table(table, setup);
    let mut input = rt.stdin();
    let mut output = rt.stdout();
    let end = session::serve_input(
        rt,
        &mut input,
        &mut output,
        trace,
        table,
        &mut received,
        &mut replies,
        recorder,
    );
    let head = rows::head_of(table);
    let mut said = rt.stderr();
    report::ended(&mut said, end.tally, head.clock);
    recorder::ended(&mut said, end.recorder);
}

// Serves and records, if the file that the fourth argument names can be opened.
fn record(rt: &HostRuntime, setup: Setup)
    requires { Fits setup }
{
    let mut said = rt.stderr();
    if let Some(mut file) = recorder::open(rt, &mut said, 4) {
        let recorder = recorder::begin(&mut file, setup.mode.number(), setup.vbucket);
        serve(rt, setup, &mut file, recorder);
    }
}

fn main(rt: HostRuntime) {
    match arguments::read(&rt) {
        Ok(Asked::Serve(setup)) => serve(&rt, setup, &mut std::io::sink(), recorder::none()),
        Ok(Asked::Record(setup)) => record(&rt, setup),
        Err(fault) => report::wrong(&mut rt.stderr(), fault),
    }
}
