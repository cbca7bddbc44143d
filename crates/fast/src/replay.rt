// A whole run in one call: a device is formatted, and a list of calls is made on the layer, one after the other.
//
// It is here for what its contract says. A layer's read and write speak of the run that led to them; this call has the whole run in its
// hands, and so states the law outright, of the very replies that it gives back.

ghost use Rattle.std.specs.Prelude.{◌≡◌, ◌≤◌, [], IfOk, IfErr, OnErr, vec_len, vec_capacity};
ghost use Rattle.scheme.specs.Law.{Law, Reached};
ghost use Rattle.fast.specs.Makes.{MakesAll};
ghost use Rattle.fast.specs.Replay.{call_told, calls_told, reply_told, replies_told};
ghost use Rattle.fast.specs.Told.{layer_of, started};

use crate::fit::Plan;
use crate::layer::{Found, Layer};
use crate::refusal::Refusal;
use crate::sectors::Sectors;
use flash::device::Device;
use flash::numbers::Sector;
use std::alloc::{AllocError, Global};

// A read or a write of a sector, each with its own buffer, of any length. A call is data and no closure: a list of them is a run, of which
// the law speaks.
#[derive(Drop)]
pub enum Call {
    Read(Sector, Vec<u8>),
    Write(Sector, Vec<u8>),
}

#[derive(Clone, Copy, PartialEq, Eq, Debug)]
pub enum Answer {
    Read(Result<Found, Refusal>),
    Write(Result<(u32, u32), Refusal>),
}

// The answer to a call, with the call's buffer afterwards.
#[derive(Drop)]
pub struct Reply {
    pub answer: Answer,
    pub buffer: Vec<u8>,
}

// Makes one call.
fn make<S: Sectors>(sectors: &mut S, next: Call) -> Reply
    ensures { S.Sectors.makes sectors.old sectors.new (call_told next) (reply_told result) }
{
    match next {
        Call::Read(sector, mut buffer) => {
            let found = sectors.read(sector, &mut buffer);
            Reply {
                answer: Answer::Read(found),
                buffer,
            }
        }
        Call::Write(sector, buffer) => {
            let counts = sectors.write(sector, &buffer);
            Reply {
                answer: Answer::Write(counts),
                buffer,
            }
        }
    }
}

// Makes all calls, and puts each reply at the end of a list that has room for them.
fn make_all<S: Sectors>(sectors: &mut S, calls: Vec<Call>, replies: &mut Vec<Reply>)
    requires none { replies.old.items ≡ [] }
    requires room { vec_len calls ≤ vec_capacity replies.old }
    ensures { MakesAll S.Sectors.makes sectors.old (calls_told calls.items) (replies_told replies.new.items) sectors.new }
{
    for next in calls {
        let reply = make(sectors, next);
        replies.push_reserved(reply);
    }
}

// Makes a list of calls on whatever takes them, and gives back each call's answer and buffer. For want of memory nothing is done.
pub fn play<S: Sectors>(
    heap: Global,
    sectors: &mut S,
    calls: Vec<Call>,
) -> Result<Vec<Reply>, AllocError>
    ensures made { IfOk result (λ replies. MakesAll S.Sectors.makes sectors.old (calls_told calls.items) (replies_told replies.items) sectors.new) }
    ensures untouched { OnErr result (sectors.new ≡ sectors.old) }
{
    let mut replies = Vec::with_capacity(heap, calls.len())?;
    make_all(sectors, calls, &mut replies);
    Ok(replies)
}

// Formats a device and makes a list of calls. Gives back the layer, and each call's answer and buffer. For want of memory nothing is
// done, and the device is given back as it was.
pub fn replay<D: Device>(
    heap: Global,
    device: D,
    plan: Plan,
    calls: Vec<Call>,
) -> Result<(Layer<D>, Vec<Reply>), (D, AllocError)>
    ensures law { IfOk result (λ p. Law (started (D.Device.flash device) plan.logical plan.random plan.first_stamp) (calls_told calls.items) (replies_told p.1.items)) }
    ensures after { IfOk result (λ p. Reached (started (D.Device.flash device) plan.logical plan.random plan.first_stamp) (calls_told calls.items) (layer_of D.Device.flash p.0)) }
    ensures untouched { IfErr result (λ e. e.0 ≡ device) }
{
    // a `match`, since a closure for the error would take the device that the other case needs
    let mut replies = match Vec::with_capacity(heap, calls.len()) {
        Ok(replies) => replies,
        Err(e) => return Err((device, e)),
    };
    let mut layer = Layer::format(heap, device, plan)?;
    make_all(&mut layer, calls, &mut replies);
    Ok((layer, replies))
}
