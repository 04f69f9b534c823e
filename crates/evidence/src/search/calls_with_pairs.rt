use crate::answered_call::{FoundGet, PerformedWrite};
use doc_register::Reply;
use events::{Event, History};
use std::alloc::Global;
use version_pair::{DocId, NoMemory, Pair};

/// A get that found its document. Documents are numbered as in the history.
#[derive(Clone, Copy)]
pub struct GetWithPair {
    pub no: u64,
    pub doc: usize,
    pub found: FoundGet,
    /// The greatest pair that the document's writes had shown when the get was called.
    pub newest: Option<Pair>,
}

/// A write that was performed. Documents are numbered as in the history.
#[derive(Clone, Copy)]
pub struct WriteWithPair {
    pub no: u64,
    pub doc: usize,
    pub performed: PerformedWrite,
}

/// The calls of a history that were successful by their responses: the gets that found their document, in the
/// order of their calls, and the writes that were performed, in the order of their responses. Each of these
/// responses shows a pair.
#[derive(Drop)]
pub struct CallsWithPairs {
    pub gets: Vec<GetWithPair>,
    pub writes: Vec<WriteWithPair>,
    // For each document, the greatest pair that a write has shown so far.
    newest: Vec<Option<Pair>>,
}

impl CallsWithPairs {
    /// Returns the successful calls of the history.
    pub fn of(alloc: Global, history: &History) -> Result<CallsWithPairs, NoMemory> {
        let mut calls = CallsWithPairs {
            gets: Vec::new(alloc),
            writes: Vec::new(alloc),
            newest: vec![in alloc; None; history.docs()]?,
        };
        for place in 0..history.len() {
            match history.event(place) {
                Event::Call { no, id, .. } => calls.note_call(history, *no, id, place)?,
                Event::Reply { no, reply } => calls.note_reply(history, *no, *reply, place)?,
                Event::Lost { .. } => {}
            }
        }
        Ok(calls)
    }

    // Adds the call, if it is a get that found its document.
    fn note_call(
        &mut self,
        history: &History,
        no: u64,
        id: &DocId,
        called: usize,
    ) -> Result<(), NoMemory> {
        let Some((replied, Reply::Found { pair, k })) = history.heard(no) else {
            return Ok(());
        };
        let Some(doc) = history.doc_of(id) else {
            return Ok(());
        };
        self.gets.push(GetWithPair {
            no,
            doc,
            found: FoundGet {
                called,
                replied,
                pair,
                k,
            },
            newest: self.newest.get(doc).copied().unwrap_or(None),
        })?;
        Ok(())
    }

    // Adds the call that the reply answers, if it is a write that was performed.
    fn note_reply(
        &mut self,
        history: &History,
        no: u64,
        reply: Reply,
        replied: usize,
    ) -> Result<(), NoMemory> {
        let Some(pair) = reply.pair_taken() else {
            return Ok(());
        };
        let Some(called) = history.call(no) else {
            return Ok(());
        };
        let Event::Call { shard, id, op, .. } = history.event(called) else {
            return Ok(());
        };
        let Some(doc) = history.doc_of(id) else {
            return Ok(());
        };
        if let Some(newest) = self.newest.get_mut(doc) {
            *newest = (*newest).max(Some(pair));
        }
        self.writes.push(WriteWithPair {
            no,
            doc,
            performed: PerformedWrite {
                called,
                replied,
                shard: *shard,
                op: *op,
                pair,
            },
        })?;
        Ok(())
    }
}
