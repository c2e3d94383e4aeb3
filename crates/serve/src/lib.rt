// Serving one request from received bytes on a table in lent memory: the damage test, then a step.
#![tactic(auto)]

ghost use Rattle.serving.specs.Serve.{served_told};
ghost use Rattle.serving.specs.Serves.{Serves};

use engine::Config;
use outcome::Refusal;
use serving::Served;

// Serves the request at the start of the received bytes. The tally stands apart.
pub fn serve_one(
    config: Config,
    b: &mut [u8],
    clock: u32,
    s: &[u8],
    out: &mut [u8],
) -> Result<Served, Refusal>
    ensures { Serves config b.old clock s.now out.old (served_told result) b.new out.new }
{
    let head = table::checked(config, b).ok_or(Refusal::Damaged)?;
    step::step(config, b, head, clock, s, out)
}
