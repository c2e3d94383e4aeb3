// The status of the commands that store nothing: Get, Get Keys, Noop, Version.
#![tactic(auto)]

ghost use Rattle.std.specs.Prelude.{◌≡◌};
ghost use Rattle.commands.specs.Rules.{get_rule, list_rule, noop_rule, status_by};
ghost use Rattle.outcome.specs.Outcome.{status_of};

use commands::{Context, Instruction, PASSING, Tests, status};
use outcome::Status;

pub fn get_status(c: Context, i: Instruction) -> Result<(), Status>
    ensures { status_of result ≡ status_by c i get_rule }
{
    status::first_status(Tests {
        unsupported: i.unsupported,
        long: i.is_long(),
        elsewhere: !status::is_here(c.head, i.vbucket),
        missing: !c.is_live(),
        ..PASSING
    })
}

pub fn list_status(c: Context, i: Instruction) -> Result<(), Status>
    ensures { status_of result ≡ status_by c i list_rule }
{
    status::first_status(Tests {
        unsupported: i.unsupported,
        long: i.is_long(),
        elsewhere: !status::is_here(c.head, i.vbucket),
        ..PASSING
    })
}

pub fn service_status(c: Context, i: Instruction) -> Result<(), Status>
    ensures { status_of result ≡ status_by c i noop_rule }
{
    status::first_status(Tests {
        unsupported: i.unsupported,
        long: i.is_long(),
        ..PASSING
    })
}
