// What the program's arguments ask for.
ghost use Rattle.std.specs.Prelude.{◌≡◌, IfOk};
ghost use Rattle.contact_box.specs.Arguments.{mode_number, Fits, Allowed};

use std::env::{Env, FillError};
use std::fmt;

// What decides which of two copies of a document stands.
#[derive(Clone, Copy)]
pub(crate) enum Mode {
    Revision,
    LastWriteWins,
}

impl Mode {
    // As a table's head has it.
    pub(crate) fn number(self) -> u8
        ensures { result ≡ mode_number self }
    {
        match self {
            Mode::Revision => 1,
            Mode::LastWriteWins => 2,
        }
    }
}

// The table that is made.
#[derive(Clone, Copy)]
pub(crate) struct Setup {
    pub(crate) rows: usize,
    pub(crate) vbucket: u16,
    pub(crate) mode: Mode,
}

// To serve on a table, or to record too, on one that has the rows of the table that a trace is replayed on.
#[derive(Clone, Copy)]
pub(crate) enum Asked {
    Serve(Setup),
    Record(Setup),
}

// What is wrong: that the arguments are not three or four, or one of them.
#[derive(Debug, Clone, Copy)]
pub(crate) enum Fault {
    Count,
    Rows,
    Vbucket,
    Mode,
    Recorded,
}

impl fmt::Display for Fault {
    fn fmt<W: fmt::Write>(&self, f: &mut fmt::Formatter<W>) -> fmt::Result {
        f.write_str(match self {
            Fault::Count => "three or four arguments are wanted",
            Fault::Rows => "ROWS is 1 to 256",
            Fault::Vbucket => "VBUCKET is 0 to 65535",
            Fault::Mode => "MODE is revision or last-write-wins",
            Fault::Recorded => "with a TRACE, ROWS is 32",
        })
    }
}

// Whether there is such an argument, of any length.
fn is_there(args: &impl Env, i: usize) -> bool {
    let mut word = [0u8; 1];
    !matches!(args.arg(i, &mut word), Err(FillError::NotPresent))
}

// The number that an argument spells.
fn number_at(args: &impl Env, i: usize) -> Option<u64> {
    let mut word = [0u8; 32];
    let n = args.arg(i, &mut word).ok()?;
    digits::parse(&word[..n])
}

// The mode that an argument names.
fn mode_at(args: &impl Env, i: usize) -> Option<Mode> {
    let mut word = [0u8; 32];
    let n = args.arg(i, &mut word).ok()?;
    match &word[..n] {
        b"revision" => Some(Mode::Revision),
        b"last-write-wins" => Some(Mode::LastWriteWins),
        _ => None,
    }
}

fn setup_of(rows: Option<u64>, vbucket: Option<u64>, mode: Option<Mode>) -> Result<Setup, Fault>
    ensures { IfOk result Fits }
{
    let Some(rows @ 1..=256) = rows else {
        return Err(Fault::Rows);
    };
    let Some(vbucket @ ..=0xffff) = vbucket else {
        return Err(Fault::Vbucket);
    };
    Ok(Setup {
        rows: rows as usize,
        vbucket: vbucket as u16,
        mode: mode.ok_or(Fault::Mode)?,
    })
}

// The program's own name is argument 0.
pub(crate) fn read(args: &impl Env) -> Result<Asked, Fault>
    ensures { IfOk result Allowed }
{
    if !is_there(args, 3) || is_there(args, 5) {
        return Err(Fault::Count);
    }
    let setup = setup_of(number_at(args, 1), number_at(args, 2), mode_at(args, 3))?;
    if !is_there(args, 4) {
        return Ok(Asked::Serve(setup));
    }
    if setup.rows != 32 {
        return Err(Fault::Recorded);
    }
    Ok(Asked::Record(setup))
}
