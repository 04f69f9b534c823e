ghost use Rattle.std.specs.Prelude.{◌≡◌, ◌<◌, ◌∷◌, ◌++◌, [], Ok, OnOk, OnErr};
ghost use Rattle.events.specs.declared.event.Event.TheVariants.{Call, Reply as Answered, Lost};
ghost use Rattle.events.specs.Refusal.{open_call_of, refusal_of, refusal_reported};

use crate::event::Event;
use crate::fault::HistFault;
use crate::history::History;
use doc_register::{Op, Reply};
use version_pair::{IdText, SHARDS};

impl History {
    /// Adds a call. Reasons to refuse it: `SecondCall`, `ShardMoved`, `Full`, `NoMemory`.
    pub fn push_call(
        &mut self,
        no: u64,
        shard: u32,
        id: &IdText<'_>,
        op: Op,
    ) -> Result<(), HistFault>
        // The shard is 0 to 1,023.
        requires { shard < SHARDS }
        // The event is added at the end.
        ensures ok { OnOk result (self.new ≡ self.old ++ Call shard no id.now op ∷ []) }
        // An error leaves the events as they were.
        ensures err { OnErr result (self.new ≡ self.old) }
        // The error is another one than `NoMemory` exactly if the definition gives a reason, and then it is
        // that one, the first that holds.
        ensures reason { refusal_reported result ≡ refusal_of self.old (Call shard no id.now op) }
    {
        let doc = self.doc_of_text(id);
        if let Some(fault) = self.call_refusal(doc, no, shard, id) {
            return Err(fault);
        }
        let Ok(shared) = self.shared_id(doc, id) else {
            return Err(HistFault::NoMemory);
        };
        match self.append_call(doc, no, shard, shared, op) {
            Ok(()) => Ok(()),
            Err(_) => Err(HistFault::NoMemory),
        }
    }

    /// Adds a reply to the call at the position, which has no ending yet. Reasons to refuse it: `Kind`,
    /// `Full`, `NoMemory`.
    pub fn push_answer(&mut self, call: usize, no: u64, reply: Reply) -> Result<(), HistFault>
        // The call with this number is at that position and has no ending.
        requires { open_call_of self.old no ≡ Ok call }
        // The event is added at the end.
        ensures ok { OnOk result (self.new ≡ self.old ++ Answered no reply ∷ []) }
        // An error leaves the events as they were.
        ensures err { OnErr result (self.new ≡ self.old) }
        // The error is another one than `NoMemory` exactly if the definition gives a reason, and then it is
        // that one, the first that holds.
        ensures reason { refusal_reported result ≡ refusal_of self.old (Answered no reply) }
    {
        if !self.is_answerable(call, &reply) {
            return Err(HistFault::Kind);
        }
        if let Some(fault) = self.refusal_for_room() {
            return Err(fault);
        }
        match self.append_ending(call, Event::Reply { no, reply }) {
            Ok(()) => Ok(()),
            Err(_) => Err(HistFault::NoMemory),
        }
    }

    /// Adds the event that the call at the position, which has no ending yet, is lost. Reasons to refuse it:
    /// `Full`, `NoMemory`.
    pub fn push_loss(&mut self, call: usize, no: u64) -> Result<(), HistFault>
        // The call with this number is at that position and has no ending.
        requires { open_call_of self.old no ≡ Ok call }
        // The event is added at the end.
        ensures ok { OnOk result (self.new ≡ self.old ++ Lost no ∷ []) }
        // An error leaves the events as they were.
        ensures err { OnErr result (self.new ≡ self.old) }
        // The error is another one than `NoMemory` exactly if the definition gives a reason, and then it is
        // that one, the first that holds.
        ensures reason { refusal_reported result ≡ refusal_of self.old (Lost no) }
    {
        if let Some(fault) = self.refusal_for_room() {
            return Err(fault);
        }
        match self.append_ending(call, Event::Lost { no }) {
            Ok(()) => Ok(()),
            Err(_) => Err(HistFault::NoMemory),
        }
    }

    /// Adds a reply. Reasons to refuse it: `NoCall`, `Ended`, `Kind`, `Full`, `NoMemory`.
    pub(crate) fn push_reply(&mut self, no: u64, reply: Reply) -> Result<(), HistFault>
        ensures ok { OnOk result (self.new ≡ self.old ++ Answered no reply ∷ []) }
        ensures err { OnErr result (self.new ≡ self.old) }
        ensures reason { refusal_reported result ≡ refusal_of self.old (Answered no reply) }
    {
        match self.open_call(no) {
            Ok(call) => self.push_answer(call, no, reply),
            Err(fault) => Err(fault),
        }
    }

    /// Adds the event that a call is lost. Reasons to refuse it: `NoCall`, `Ended`, `Full`, `NoMemory`.
    pub fn push_lost(&mut self, no: u64) -> Result<(), HistFault>
        // The event is added at the end.
        ensures ok { OnOk result (self.new ≡ self.old ++ Lost no ∷ []) }
        // An error leaves the events as they were.
        ensures err { OnErr result (self.new ≡ self.old) }
        // The error is another one than `NoMemory` exactly if the definition gives a reason, and then it is
        // that one, the first that holds.
        ensures reason { refusal_reported result ≡ refusal_of self.old (Lost no) }
    {
        match self.open_call(no) {
            Ok(call) => self.push_loss(call, no),
            Err(fault) => Err(fault),
        }
    }
}
