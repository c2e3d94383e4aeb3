// What the statuses of all families of commands go by: the first test that applies, in 01's order, and whether a request is for
// this table. read_status, write_status and meta_status have the tests of each family.
ghost use Rattle.std.specs.Prelude.{◌≡◌};
ghost use Rattle.commands.specs.Rules.{first_status, is_here};
ghost use Rattle.outcome.specs.Outcome.{status_of};

use crate::Tests;
use document::Head;
use outcome::Status;

#[tactic(auto, unfolding(crate::specs::Rules::first_status, crate::specs::Rules::first_failure))]
pub fn first_status(x: Tests) -> Result<(), Status>
    ensures { status_of result ≡ first_status x }
{
    if x.fault {
        return Err(Status::Invalid);
    }
    if x.unsupported {
        return Err(Status::NotSupported);
    }
    if x.long {
        return Err(Status::TooLarge);
    }
    if x.elsewhere {
        return Err(Status::NotMyVbucket);
    }
    if x.unstored {
        return Err(Status::NotStored);
    }
    if x.missing {
        return Err(Status::NotFound);
    }
    if x.conflict {
        return Err(Status::Exists);
    }
    if x.joined {
        return Err(Status::TooLarge);
    }
    if x.number {
        return Err(Status::NotNumeric);
    }
    if x.spent {
        return Err(Status::Internal);
    }
    if x.full {
        return Err(Status::OutOfMemory);
    }
    Ok(())
}

// The request is for this table, and the table is active.
pub fn is_here(h: Head, vbucket: u16) -> bool
    ensures { result ≡ is_here h vbucket }
{
    (vbucket == h.vbucket) & (h.state == 1)
}
