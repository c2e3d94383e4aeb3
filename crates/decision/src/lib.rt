// The decision on a request: its command's status, and what it does where no test failed.
#![tactic(auto)]

ghost use Rattle.std.specs.Prelude.{◌≡◌};
ghost use Rattle.commands.specs.Rules.{get_rule, list_rule, noop_rule, write_rule, delete_rule, count_rule, meta_rule, is_add_meta, join_rule, touch_rule};
ghost use Rattle.effects.specs.Done.{nothing, found, write_done, delete_done, count_done, is_delete, meta_done, join_done, touch_done};
ghost use Rattle.outcome.specs.Outcome.{status_of};
ghost use Rattle.decision.specs.Decision.{Decision, decision_told, numbers_told, with_status, decision_by, decision};

use commands::{Command, Context, Counter, Instruction, Kind, Meta, MetaKind, Plain, Touching};
use document::Side;
use effects::{Done, Reply};
use numbers::Cas;
use outcome::Status;

#[derive(Clone, Copy)]
pub struct Decision {
    pub status: Result<(), Status>,
    pub silent: bool,
    pub done: Done,
}

// A decision with its status by number, of which any may stand here.
#[derive(Clone, Copy)]
pub struct DecisionNumbers {
    pub status: u8,
    pub silent: bool,
    pub done: Done,
}

// What tells a decision, as far as a reply goes by it. told: the decision in 01's numbers.
pub trait DecisionCode: Copy {
    ghost told: { Self → Decision };

    // Its number.
    fn status(&self) -> u8
        ensures { result ≡ (told self.now).status };

    fn silent(&self) -> bool
        ensures { result ≡ (told self.now).silent };

    fn reply(&self) -> Reply
        ensures { result ≡ (told self.now).done.reply };

    fn cas(&self) -> Cas
        ensures { result ≡ (told self.now).done.cas };
}

impl DecisionCode for DecisionNumbers {
    ghost told = { numbers_told };

    #[inline(always)]
    fn status(&self) -> u8 {
        self.status
    }

    #[inline(always)]
    fn silent(&self) -> bool {
        self.silent
    }

    #[inline(always)]
    fn reply(&self) -> Reply {
        self.done.reply
    }

    #[inline(always)]
    fn cas(&self) -> Cas {
        self.done.cas
    }
}

impl DecisionCode for Decision {
    ghost told = { decision_told };

    #[inline(always)]
    fn status(&self) -> u8 {
        outcome::status_of(self.status)
    }

    #[inline(always)]
    fn silent(&self) -> bool {
        self.silent
    }

    #[inline(always)]
    fn reply(&self) -> Reply {
        self.done.reply
    }

    #[inline(always)]
    fn cas(&self) -> Cas {
        self.done.cas
    }
}

// What is done where no test failed, and nothing where one did. The quiet form sends nothing on success.
fn decided(c: Context, i: Instruction, status: Result<(), Status>, done: Done) -> Decision
    ensures { decision_told result ≡ with_status c i 0 (status_of status) done }
{
    let succeeds = status.is_ok();
    Decision {
        status,
        silent: i.quiet & succeeds,
        done: if succeeds {
            done
        } else {
            effects::nothing(c.head, Reply::Bare, Cas(0))
        },
    }
}

// A quiet Get sends nothing where there is no live document.
fn get(c: Context, i: Instruction, keyed: bool) -> Decision
    ensures { decision_told result ≡ decision_by c i get_rule (found c keyed) }
{
    let status = read_status::get_status(c, i);
    Decision {
        silent: i.quiet & matches!(status, Err(Status::NotFound)),
        ..decided(c, i, status, effects::found(c, keyed))
    }
}

fn get_keys(c: Context, i: Instruction, count: u32) -> Decision
    ensures { decision_told result ≡ decision_by c i list_rule (nothing c.head (Reply.Keys count) (record { 0 = 0 })) }
{
    let done = effects::nothing(c.head, Reply::Keys(count), Cas(0));
    decided(c, i, read_status::list_status(c, i), done)
}

// Noop and Version, which differ in their replies.
fn serviced(c: Context, i: Instruction, reply: Reply) -> Decision
    ensures { decision_told result ≡ decision_by c i noop_rule (nothing c.head reply (record { 0 = 0 })) }
{
    let done = effects::nothing(c.head, reply, Cas(0));
    decided(c, i, read_status::service_status(c, i), done)
}

fn write(c: Context, i: Instruction, p: Plain) -> Decision
    ensures { decision_told result ≡ decision_by c i (write_rule c p) (write_done c p) }
{
    let fault = numbers::passes(p.expiry, c.clock);
    let needs = p.kind == Kind::Replace;
    let fresh = p.kind == Kind::Add;
    let status = write_status::write_status(c, i, fault, needs, fresh);
    decided(c, i, status, effects::write_done(c, p))
}

fn delete(c: Context, i: Instruction) -> Decision
    ensures { decision_told result ≡ decision_by c i delete_rule (delete_done c) }
{
    let status = write_status::write_status(c, i, false, true, false);
    decided(c, i, status, effects::delete_done(c))
}

fn count(c: Context, i: Instruction, k: Counter) -> Decision
    ensures { decision_told result ≡ decision_by c i (count_rule c k) (count_done c k) }
{
    let status = write_status::count_status(c, i, k);
    decided(c, i, status, effects::count_done(c, k))
}

// The three kinds differ in these two alone. A function for each, three callers of written, keeps it from being inlined:
// then what a decision sees is laid out in memory, and every command pays for that.
fn with_meta(c: Context, i: Instruction, w: Meta) -> Decision
    ensures { decision_told result ≡ decision_by c i (meta_rule c w (is_add_meta w.kind)) (meta_done c w (is_delete w.kind)) }
{
    let fresh = w.kind == MetaKind::Add;
    let tomb = w.kind == MetaKind::Delete;
    let status = meta_status::meta_status(c, i, w, fresh);
    decided(c, i, status, effects::meta_done(c, w, tomb))
}

fn join(c: Context, i: Instruction, side: Side) -> Decision
    ensures { decision_told result ≡ decision_by c i join_rule (join_done c side) }
{
    let status = write_status::join_status(c, i);
    decided(c, i, status, effects::join_done(c, side))
}

fn touch(c: Context, i: Instruction, t: Touching) -> Decision
    ensures { decision_told result ≡ decision_by c i (touch_rule c t) (touch_done c t) }
{
    let status = write_status::touch_status(c, i, t);
    decided(c, i, status, effects::touch_done(c, t))
}

#[tactic(auto, unfolding(crate::specs::Decision::decision, commands::specs::Rules::rule_of, effects::specs::Done::done_of))]
pub fn decide(c: Context, i: Instruction) -> Decision
    ensures { decision_told result ≡ decision c i }
{
    match i.command {
        Command::Get(keyed) => get(c, i, keyed),
        Command::Write(p) => write(c, i, p),
        Command::Delete => delete(c, i),
        Command::Count(k) => count(c, i, k),
        Command::Noop => serviced(c, i, Reply::Bare),
        Command::Version => serviced(c, i, Reply::Version),
        Command::WithMeta(w) => with_meta(c, i, w),
        Command::GetKeys(count) => get_keys(c, i, count),
        Command::Join(side) => join(c, i, side),
        Command::Touch(t) => touch(c, i, t),
    }
}
