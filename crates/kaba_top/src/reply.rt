//! What the program answers, and its delivery.
#![tactic(auto)]

ghost use Rattle.std.specs.Prelude.{◌≡◌, ◌⊎◌, ℕ, List, IfOk, OnErr, OnOk};
ghost use Rattle.kaba_top.specs.Words.{Rose, Says, GivesReply, line};
ghost use Rattle.kaba_base.specs.Outside.{taken_more};
ghost use Rattle.kaba_top.specs.Answers.{Cut};

use crate::Tried;
use kaba_base::{Failed, Sink, write_all};
use std::alloc::Global;

/// The status, and the whole bytes for out and for err.
#[derive(Drop)]
pub struct Reply {
    pub status: u8,
    pub out: Vec<u8>,
    pub err: Vec<u8>,
}

impl Reply {
    /// The reply with nothing for out and one line for err.
    pub fn line(alloc: Global, status: u8, text: &[u8]) -> Tried<Reply>
        ensures says { IfOk result (λ reply. Says status text.now reply.status reply.out.items reply.err.items) }
    {
        let mut err = Vec::from_slice(alloc, b"kaba: ")?;
        err.extend_from_slice(text)?;
        err.push(b'\n')?;
        Ok(Reply {
            status,
            out: Vec::new(alloc),
            err,
        })
    }

    /// The reply with these bytes for out and one line for err.
    pub fn with_line(alloc: Global, status: u8, out: Vec<u8>, text: &[u8]) -> Tried<Reply>
        ensures gives { IfOk result (λ reply. GivesReply status out.items (line text.now) reply.status reply.out.items reply.err.items) }
    {
        let reply = Reply::line(alloc, status, text)?;
        Ok(Reply {
            status,
            out,
            err: reply.err,
        })
    }
}

/// Writes the whole of out, and then the whole of err.
pub fn deliver<O: Sink, E: Sink>(reply: &Reply, out: &mut O, err: &mut E) -> Result<(), Failed>
    ensures out { OnOk result (O.taken out.new ≡ taken_more (O.taken out.old) reply.now.out.items) }
    ensures err { OnOk result (E.taken err.new ≡ taken_more (E.taken err.old) reply.now.err.items) }
    ensures cut { OnErr result (Cut (O.taken out.old) (O.taken out.new) reply.now.out.items (E.taken err.old) (E.taken err.new) reply.now.err.items) }
    ensures failed { OnErr result (Rose (O.faults out.old) (O.faults out.new) ⊎ Rose (E.faults err.old) (E.faults err.new)) }
{
    write_all(out, reply.out.as_slice())?;
    write_all(err, reply.err.as_slice())?;
    Ok(())
}
