ghost use Rattle.std.specs.Prelude.{◌<◌};

use crate::doc_job::DocJob;
use crate::gate::Gate;
use crate::message::Message;
use crossbeam_channel::{SendError, Sender};
use std::alloc::{AllocError, Global};
use std::sync::Wait;
use version_pair::NoMemory;

// Sends the answer of one job. If nobody receives any more, it is dropped.
fn send_answer<R: Wait>(
    rt: &R,
    alloc: Global,
    job: &DocJob,
    sender: &Sender<Message>,
) -> Result<(), NoMemory> {
    match sender.send(rt, Message::of(alloc, job)?) {
        Ok(()) | Err(SendError::Disconnected(_)) => Ok(()),
        Err(SendError::OutOfMemory(_)) => Err(AllocError),
    }
}

/// Passes the gate, searches, and sends the answer, for each job whose number leaves `worker` when divided by
/// `workers`. It stops if it is refused memory.
pub fn work<R: Wait, G: Gate>(
    rt: &R,
    alloc: Global,
    jobs: &[DocJob],
    worker: usize,
    workers: usize,
    gate: &G,
    sender: &Sender<Message>,
) -> Result<(), NoMemory>
    requires { 0 < workers }
{
    for job in jobs {
        if job.doc % workers == worker {
            gate.pass(rt, job.doc);
            send_answer(rt, alloc, job, sender)?;
        }
    }
    Ok(())
}
