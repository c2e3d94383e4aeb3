// One request served on memory taken for a table that is not damaged: decision, reply, store. Nothing is tested for damage here, and every
// function is total on any bytes; what a step is on a table that is not damaged is in serve/specs/Claims.antt.
#![tactic(auto)]

mod change;

ghost use Rattle.std.specs.Prelude.{◌≡◌, true, ◌+◌, ◌≤◌, length, Ok};
ghost use Rattle.outcome.specs.Outcome.{status_number};
ghost use Rattle.octets.specs.Parts.{part};
ghost use Rattle.shape.specs.Shapes.{shape_told, shape_of};
ghost use Rattle.rules.specs.Rules.{form_status};
ghost use Rattle.request.specs.Reading.{bytes_in, key_span};
ghost use Rattle.decision.specs.Decide.{instruction_of};
ghost use Rattle.decode.specs.Decode.{bare_value};
ghost use Rattle.decision.specs.Decision.{decision_told};
ghost use Rattle.serving.specs.Serve.{served_told, reaches_decision, asked_of};
ghost use Rattle.step.specs.Answer.{keys_reply, reply_to, ReplyWritten};
ghost use Rattle.step.specs.Step.{decided_by, refused_step, asked_step, frame_step, step_of, Steps};

use commands::{Context, Instruction};
use decision::Decision;
use document::Head;
use effects::Reply;
use engine::Config;
use header::Header;
use outcome::{Refusal, Status};
use serving::{ROOM, Served};
use shape::Shape;
use table::Lookup;

// The decision on a request, from what was found for its key. old: the stored value.
fn decided(head: Head, clock: u32, l: Lookup, old: &[u8], ask: Instruction) -> Decision
    ensures { decision_told result ≡ decided_by head clock l old.now ask }
{
    decision::decide(
        Context {
            head,
            row: l.stored,
            free: table::has_place(l.place),
            clock,
            number: digits::parse(old),
            size: old.len(),
        },
        ask,
    )
}

// Writes the keys that a listing shows, and the reply's header before them.
fn put_listing(
    config: Config,
    b: &[u8],
    clock: u32,
    h: Header,
    d: Decision,
    start: &[u8],
    count: u32,
    out: &mut [u8],
) -> usize
    requires { (1302 ≤ length out.old) × (d.done.reply ≡ Reply.Keys count) }
    ensures { ReplyWritten (keys_reply config (length out.old) b.now clock h (decision_told d) start.now count) out.old result out.new }
{
    if d.silent {
        return 0;
    }
    let n = table::put_keys(config, b, clock, start, count, out);
    let status = outcome::status_of(d.status);
    reply::put_value_header(out, h.opcode, h.opaque, status, n as u32, d.done.cas);
    24 + n
}

// Writes a decision's reply and answers its length. old: the value stored for the key.
fn put_answer(
    config: Config,
    b: &[u8],
    clock: u32,
    h: Header,
    d: Decision,
    key: &[u8],
    old: &[u8],
    out: &mut [u8],
) -> usize
    requires { 1302 ≤ length out.old }
    ensures { ReplyWritten (reply_to config (length out.old) b.now clock h (decision_told d) key.now old.now) out.old result out.new }
{
    match d.done.reply {
        Reply::Keys(count) => put_listing(config, b, clock, h, d, key, count, out),
        _ => reply::put_reply(out, h.opcode, h.opaque, d, key, old),
    }
}

// Answers and stores what an instruction for a key asks for. value: the frame's, of which the instruction says how much is stored.
fn serve_asked(
    config: Config,
    b: &mut [u8],
    head: Head,
    clock: u32,
    h: Header,
    ask: Instruction,
    key: &[u8],
    value: &[u8],
    out: &mut [u8],
) -> Served
    requires { 1302 ≤ length out.old }
    ensures { Steps (asked_step config b.old head clock h ask key.now (part value.now 0 ask.size) out.old)
        (served_told (Ok result)) b.new out.new }
{
    let l = table::find(config, b, key, commands::writes(ask.command));
    let old = octets::part(b, l.at, l.len);
    let now = document::at_clock(head, clock);
    let d = decided(now, now.clock, l, old, ask);
    let reply = put_answer(config, b, now.clock, h, d, key, old, out);
    change::change(config, b, l, key, d.done, octets::part(value, 0, ask.size));
    let frame = header::layout_of(h);
    Served {
        status: d.status,
        used: frame.end,
        reply,
    }
}

// Answers a frame whose status the reader gives: a bare header, and nothing stored but the clock.
fn refused(
    b: &mut [u8],
    head: Head,
    clock: u32,
    h: Header,
    status: Status,
    out: &mut [u8],
) -> Served
    ensures { Steps (refused_step b.old head clock h out.old (status_number status)) (served_told (Ok result)) b.new out.new }
{
    reply::put_bare(out, h.opcode, h.opaque, status.number());
    row_writer::put_clock(b, numbers::later(head.clock, clock));
    Served {
        status: Err(status),
        used: header::layout_of(h).end,
        reply: 24,
    }
}

// A frame whose lengths are right: its parts are cut out, and then its fields are judged.
fn serve_parts(
    config: Config,
    b: &mut [u8],
    head: Head,
    clock: u32,
    s: &[u8],
    h: Header,
    shape: Shape,
    out: &mut [u8],
) -> Served
    requires in_bounds { 1302 ≤ length out.old }
    requires shape_value { (shape_told shape ≡ shape_of h.opcode) × ((form_status (shape_told shape) h ≡ 0) × (24 + h.body ≤ length s.now)) }
    ensures { Steps (frame_step config b.old head clock s.now h out.old) (served_told (Ok result)) b.new out.new }
{
    let l = header::layout_of(h);
    let extras = &s[l.extras..l.key];
    let key = &s[l.key..l.value];
    let value = &s[l.value..l.end];
    match decode::decoded_by(config.forcing, shape, h, extras, value) {
        None => refused(b, head, clock, h, Status::Invalid, out),
        Some(ask) => serve_asked(config, b, head, clock, h, ask, key, value, out),
    }
}

fn serve_whole(
    config: Config,
    b: &mut [u8],
    head: Head,
    clock: u32,
    s: &[u8],
    h: Header,
    out: &mut [u8],
) -> Served
    requires { (1302 ≤ length out.old) × (24 + h.body ≤ length s.now) }
    ensures { Steps (frame_step config b.old head clock s.now h out.old) (served_told (Ok result)) b.new out.new }
{
    let shape = shape::shape_of(h.opcode);
    match rules::form_status(shape, h) {
        Ok(()) => serve_parts(config, b, head, clock, s, h, shape, out),
        Err(status) => refused(b, head, clock, h, status, out),
    }
}

// Serves the request at the start of the received bytes, on memory that its caller knows to be a table that is not damaged, with this head:
// the outcomes from 4 on, in the order tested.
pub fn step(
    config: Config,
    b: &mut [u8],
    head: Head,
    clock: u32,
    s: &[u8],
    out: &mut [u8],
) -> Result<Served, Refusal>
    ensures { Steps (step_of config b.old head clock s.now out.old) (served_told result) b.new out.new }
{
    if out.len() < ROOM {
        return Err(Refusal::NoRoom);
    }
    let h = request::gate_of(s)?;
    Ok(serve_whole(config, b, head, clock, s, h, out))
}
