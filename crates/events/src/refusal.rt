ghost use Rattle.doc_register.specs.declared.op.Op.{Op};
ghost use Rattle.events.specs.declared.event.Event.TheVariants.{Call, Reply as Answered, Lost};
ghost use Rattle.std.specs.Prelude.{◌≡◌, ◌<◌, length, position};
ghost use Rattle.events.specs.Events.{documents_of, is_same};
ghost use Rattle.events.specs.Refusal.{open_call_of, refusal_of, when_full};
ghost use Rattle.events.specs.aids.Indexes.{is_answerable as answerable};

use crate::event::Event;
use crate::fault::HistFault;
use crate::history::{History, MOST_EVENTS};
use doc_register::Reply;
use version_pair::IdText;

impl History {
    /// Returns `Full` if there is no room for one more event.
    pub(crate) fn refusal_for_room(&self) -> Option<HistFault>
        ensures { result ≡ when_full self.now }
    {
        if self.len() < MOST_EVENTS {
            None
        } else {
            Some(HistFault::Full)
        }
    }

    /// Returns the reason to refuse a call, if there is one. The document has the index `doc`, or is new.
    pub(crate) fn call_refusal(
        &self,
        doc: Option<usize>,
        no: u64,
        shard: u32,
        id: &IdText<'_>,
    ) -> Option<HistFault>
        requires { doc ≡ position (λ d. is_same id.now d.0) (documents_of self.now) }
        ensures { (op : Op) → result ≡ refusal_of self.now (Call shard no id.now op) }
    {
        if self.call(no).is_some() {
            return Some(HistFault::SecondCall);
        }
        match self.known_shard(doc, id) {
            Some(known) if known != shard => Some(HistFault::ShardMoved),
            _ => self.refusal_for_room(),
        }
    }

    /// Returns the position of the call with this number if it has no ending. Errors: `NoCall`, `Ended`.
    pub fn open_call(&self, no: u64) -> Result<usize, HistFault>
        // It is the position, or the error, that the definition gives.
        ensures { result ≡ open_call_of self.now no }
    {
        let Some(place) = self.call(no) else {
            return Err(HistFault::NoCall);
        };
        match self.ending_of_call(place) {
            Some(_) => Err(HistFault::Ended),
            None => Ok(place),
        }
    }

    /// Returns whether the call at the position can have the reply.
    pub(crate) fn is_answerable(&self, place: usize, reply: &Reply) -> bool
        requires { place < length self.now }
        ensures { result ≡ answerable self.now place reply.now }
    {
        match self.event(place) {
            Event::Call { op, .. } => reply.fits(*op),
            Event::Reply { .. } | Event::Lost { .. } => false,
        }
    }

    // The reason to refuse a reply, if there is one.
    fn reply_refusal(&self, no: u64, reply: &Reply) -> Option<HistFault>
        ensures { result ≡ refusal_of self.now (Answered no reply.now) }
    {
        match self.open_call(no) {
            Err(fault) => Some(fault),
            Ok(call) => if self.is_answerable(call, reply) {
                self.refusal_for_room()
            } else {
                Some(HistFault::Kind)
            },
        }
    }

    // The reason to refuse the event that a call is lost, if there is one.
    fn loss_refusal(&self, no: u64) -> Option<HistFault>
        ensures { result ≡ refusal_of self.now (Lost no) }
    {
        match self.open_call(no) {
            Err(fault) => Some(fault),
            Ok(_) => self.refusal_for_room(),
        }
    }

    /// Returns the reason to refuse an event, the first that holds; `None` if it can be added.
    pub fn refusal(&self, event: &Event) -> Option<HistFault>
        // It is the reason, or none, that the definition gives.
        ensures { result ≡ refusal_of self.now event.now }
    {
        match event {
            Event::Call { no, shard, id, .. } => {
                let id = id.text();
                self.call_refusal(self.doc_of_text(&id), *no, *shard, &id)
            }
            Event::Reply { no, reply } => self.reply_refusal(*no, reply),
            Event::Lost { no } => self.loss_refusal(*no),
        }
    }
}
