ghost use Rattle.std.specs.Prelude.{◌≡◌, ◌==◌, ◌&&◌, ◌||◌, Some, false, length, nat_lt, not, slice_get, true, IfOk, OnErr};
ghost use Rattle.repl_group.specs.Group.{IsCopyCount, Performs, ServesGet, ServesWrite, Shows, Gives, GroupState, MayTake, document_at as document_seen, greatest, is_held as held, is_in_sync, is_primary_cut as primary_cut, most_tickets, op_read as read_of, result_of, start};
ghost use Rattle.repl_group.specs.Copies.{document_in, next_seq};
ghost use Rattle.repl_group.specs.Requests.{in_flight_from, is_busy as busy, is_queued as queued};
ghost use Rattle.repl_group.specs.Copies.{ShardCopy as CopyState};
ghost use Rattle.repl_group.specs.declared.step.Step.TheVariants as steps;
ghost use Rattle.repl_group.specs.declared.step.Answer.TheVariants as answers;

use crate::copies::Copies;
use crate::copy_flags::CopyFlags;
use crate::fault::Fault;
use crate::request::{Request, is_get, unconditional};
use crate::requests::Requests;
use crate::step::{Answer, Step};
use doc_register::{DocState, Op, Reply, is_performed, performed_reply, shown_reply};
use indexmap::IndexSet;
use std::alloc::Global;
use std::marker::Model;
use version_pair::{DocId, NoMemory, Pair};

/// The greatest number of tickets that a group gives.
pub const MOST_TICKETS: usize = 524_288;

// The greatest term.
const GREATEST_TERM: u64 = 0x7fff_ffff_ffff_ffff;

/// The machine of a group: its copies and its tickets, and the steps that they take.
#[derive(Debug, Drop)]
pub struct Machine {
    fault: Fault,
    term: u64,
    primary: u32,
    docs: IndexSet<DocId>,
    requests: Requests,
    copies: Copies,
}

impl Model for Machine {
    ghost use Rattle.repl_group.specs.Group.{GroupState};

    ghost Value = { GroupState };

    ghost use Rattle.repl_group.specs.aids.Forming.{IsFormed};

    ghost view = { λ m. record {
      fault = m.fault;
      term = m.term;
      primary = m.primary;
      docs = m.docs.keys;
      requests = m.requests.list;
      copies = m.copies;
    } };

    ghost invariant = { λ m. IsFormed m.term m.primary m.copies };
}

impl Machine {
    /// Returns the machine of a group with 1 to 5 copies, at the start.
    pub fn new(alloc: Global, count: u32, fault: Fault) -> Result<Machine, NoMemory>
        requires { IsCopyCount count }
        ensures { IfOk result (λ machine. machine ≡ start fault count) }
    {
        let copies = Copies::new(alloc, count)?;
        Ok(Machine {
            fault,
            term: 1,
            primary: 0,
            docs: IndexSet::new(alloc),
            requests: Requests::new(alloc),
            copies,
        })
    }

    /// Returns whether the primary is cut off.
    fn is_primary_cut(&self) -> bool
        ensures { result ≡ primary_cut self.now }
    {
        match self.copies.flags(self.primary) {
            Some(copy) => copy.is_cut,
            None => false,
        }
    }

    /// Returns the document of this number, as a copy has it.
    fn document_at(&self, copy: u32, doc: usize) -> DocState
        ensures { result ≡ document_seen self.now copy doc }
    {
        self.copies.document(copy, doc)
    }

    /// Returns whether the write of a ticket may be acknowledged.
    fn is_held(&self, ticket: u64) -> bool
        ensures { result ≡ held self.now ticket }
    {
        if !self.fault.is_early() {
            return self.copies.is_on_all_in_sync(ticket);
        }
        self.copies.holds(self.primary, ticket)
    }

    /// Returns the operation as the primary reads it.
    fn op_read(&self, request: Request) -> Op
        ensures { result ≡ read_of self.now request }
    {
        if self.fault.is_blind() {
            unconditional(request.op)
        } else {
            request.op
        }
    }

    /// Returns whether a copy may take a write in flight.
    fn may_take_write(&self, copy: CopyFlags) -> bool
        ensures { result ≡ (copy.is_in_sync && not copy.is_cut && not (primary_cut self.now)) }
    {
        copy.is_in_sync && !copy.is_cut && !self.is_primary_cut()
    }

    /// Returns whether the copy of this number takes nothing from the primary when it is reached again.
    fn is_left_alone(&self, number: u32) -> bool
        ensures { result ≡ ((number == self.now.primary) || primary_cut self.now) }
    {
        number == self.primary || self.is_primary_cut()
    }

    /// Returns whether the copy of this number may leave those in sync.
    fn may_drop(&self, number: u32, copy: CopyFlags) -> bool
        ensures { result ≡ (copy.is_in_sync && copy.is_cut && not (number == self.now.primary) && not (primary_cut self.now)) }
    {
        copy.is_in_sync && copy.is_cut && number != self.primary && !self.is_primary_cut()
    }

    /// Returns whether the copy of this number may become the primary.
    fn may_lead(&self, number: u32, copy: CopyFlags) -> bool
        ensures { result ≡ (copy.is_in_sync && not copy.is_cut && not (number == self.now.primary) && nat_lt self.now.term greatest) }
    {
        copy.is_in_sync && !copy.is_cut && number != self.primary && self.term < GREATEST_TERM
    }

    /// Submits an operation. If memory is refused, nothing changes.
    fn submit(&mut self, id: DocId, op: Op) -> Result<Answer, NoMemory>
        ensures ok { IfOk result (λ answer. Gives self.old (steps.Submit id op) answer self.new) }
        ensures err { OnErr result (self.new ≡ self.old) }
        ensures due { OnErr result (MayTake self.old (steps.Submit id op)) }
    {
        if self.is_full() {
            return Ok(Answer::Full);
        }
        let ticket = self.requests.len();
        self.docs.reserve(1)?;
        let doc = self.docs.get_index_of(&id).unwrap_or(self.docs.len());
        self.requests.add(doc, op)?;
        match self.docs.insert(id) {
            Ok(_) => {}
            Err(_) => unreachable!(),
        }
        Ok(Answer::Ticket(ticket as u64))
    }

    /// Answers a queued get with what a copy shows.
    fn show(&mut self, ticket: u64, request: Request, copy: u32) -> Answer
        requires found { slice_get self.old.requests ticket ≡ Some request }
        requires is_queued { queued request.stage ≡ true }
        ensures { Shows self.old ticket request copy result self.new }
    {
        let state = self.document_at(copy, request.doc);
        self.requests.answer(ticket, request, shown_reply(state));
        Answer::Done
    }

    /// Serves a queued get.
    fn serve_get(&mut self, ticket: u64, request: Request) -> Answer
        requires found { slice_get self.old.requests ticket ≡ Some request }
        requires is_queued { queued request.stage ≡ true }
        ensures { ServesGet self.old ticket request result self.new }
    {
        if self.fault.is_stale() {
            let copy = ticket % self.copies.len() as u64;
            return self.show(ticket, request, copy as u32);
        }
        if self.is_primary_cut() {
            return Answer::NotNow;
        }
        if self.requests.is_busy(request.doc) && !self.fault.is_dirty() {
            return Answer::Waits;
        }
        self.show(ticket, request, self.primary)
    }

    /// Performs a queued write at the primary, if a sequence number is left. No write must be in flight on
    /// its document; `before` is the document before the write. If memory is refused, nothing changes.
    fn perform(
        &mut self,
        ticket: u64,
        request: Request,
        seq: u64,
        before: DocState,
    ) -> Result<Answer, NoMemory>
        requires found { slice_get self.old.requests ticket ≡ Some request }
        requires is_queued { queued request.stage ≡ true }
        requires free { busy self.old.requests request.doc ≡ false }
        requires seen { (y : CopyState) → slice_get self.old.copies self.old.primary ≡ Some y
            → (seq ≡ next_seq y.writes) × (before ≡ document_in y.writes request.doc) }
        ensures ok { IfOk result (λ answer. (y : CopyState) → slice_get self.old.copies self.old.primary ≡ Some y
            → Performs self.old ticket request y answer self.new) }
        ensures err { OnErr result (self.new ≡ self.old) }
        ensures due { OnErr result ((y : CopyState) → slice_get self.old.copies self.old.primary ≡ Some y
            → (n : GroupState) × Performs self.old ticket request y answers.Done n) }
    {
        let Some(pair) = Pair::new(self.term, seq) else {
            return Ok(Answer::NotNow);
        };
        self.requests.reserve()?;
        self.copies
            .add_write(self.primary, ticket, request.write(pair))?;
        self.requests.launch(ticket, request, pair, before);
        Ok(Answer::Done)
    }

    /// Serves a queued write. If memory is refused, nothing changes.
    fn serve_write(&mut self, ticket: u64, request: Request) -> Result<Answer, NoMemory>
        requires found { slice_get self.old.requests ticket ≡ Some request }
        requires is_queued { queued request.stage ≡ true }
        ensures ok { IfOk result (λ answer. ServesWrite self.old ticket request answer self.new) }
        ensures err { OnErr result (self.new ≡ self.old) }
        ensures due { OnErr result ((n : GroupState) × ServesWrite self.old ticket request answers.Done n) }
    {
        let Some(primary) = self.copies.flags(self.primary) else {
            return Ok(Answer::NotNow);
        };
        if primary.is_cut {
            return Ok(Answer::NotNow);
        }
        if self.requests.is_busy(request.doc) {
            return Ok(Answer::Waits);
        }
        let before = self.document_at(self.primary, request.doc);
        let seq = self.copies.next_seq(self.primary);
        if is_performed(before, self.op_read(request)) {
            return self.perform(ticket, request, seq, before);
        }
        self.requests.answer(ticket, request, Reply::Conflict);
        Ok(Answer::Done)
    }

    /// Serves the operation of a ticket. If memory is refused, nothing changes.
    fn serve(&mut self, ticket: u64) -> Result<Answer, NoMemory>
        ensures ok { IfOk result (λ answer. Gives self.old (steps.Serve ticket) answer self.new) }
        ensures err { OnErr result (self.new ≡ self.old) }
        ensures due { OnErr result (MayTake self.old (steps.Serve ticket)) }
    {
        let Some(request) = self.requests.get(ticket) else {
            return Ok(Answer::NotNow);
        };
        if !request.stage.is_queued() {
            return Ok(Answer::NotNow);
        }
        if is_get(request.op) {
            return Ok(self.serve_get(ticket, request));
        }
        self.serve_write(ticket, request)
    }

    /// Copies the write of a ticket. If memory is refused, nothing changes.
    fn copy(&mut self, ticket: u64, copy: u32) -> Result<Answer, NoMemory>
        ensures ok { IfOk result (λ answer. Gives self.old (steps.Copy ticket copy) answer self.new) }
        ensures err { OnErr result (self.new ≡ self.old) }
        ensures due { OnErr result (MayTake self.old (steps.Copy ticket copy)) }
    {
        let Some(request) = self.requests.get(ticket) else {
            return Ok(Answer::NotNow);
        };
        let Some(target) = self.copies.flags(copy) else {
            return Ok(Answer::NotNow);
        };
        let Some((pair, _)) = request.stage.flight() else {
            return Ok(Answer::NotNow);
        };
        if !self.may_take_write(target) {
            return Ok(Answer::NotNow);
        }
        self.copies.add_write(copy, ticket, request.write(pair))?;
        Ok(Answer::Done)
    }

    /// Acknowledges the write of a ticket.
    fn acknowledge(&mut self, ticket: u64) -> Answer
        ensures { Gives self.old (steps.Ack ticket) result self.new }
    {
        let Some(request) = self.requests.get(ticket) else {
            return Answer::NotNow;
        };
        let Some((pair, before)) = request.stage.flight() else {
            return Answer::NotNow;
        };
        let may = !self.is_primary_cut() && self.is_held(ticket);
        if !may {
            return Answer::NotNow;
        }
        let reply = performed_reply(before, request.op, pair);
        self.requests.acknowledge(ticket, request, reply);
        Answer::Done
    }

    /// Cuts a copy off.
    fn cut(&mut self, copy: u32) -> Answer
        ensures { Gives self.old (steps.Cut copy) result self.new }
    {
        let Some(target) = self.copies.flags(copy) else {
            return Answer::NotNow;
        };
        if target.is_cut {
            return Answer::NotNow;
        }
        self.copies.set_cut(copy, true);
        Answer::Done
    }

    /// Reaches a copy again. If memory is refused, nothing changes. If the copy takes what the primary holds,
    /// the time is proportional to the number of documents.
    fn heal(&mut self, copy: u32) -> Result<Answer, NoMemory>
        ensures ok { IfOk result (λ answer. Gives self.old (steps.Heal copy) answer self.new) }
        ensures err { OnErr result (self.new ≡ self.old) }
        ensures due { OnErr result (MayTake self.old (steps.Heal copy)) }
    {
        let Some(_) = self.copies.flags(copy) else {
            return Ok(Answer::NotNow);
        };
        if self.is_left_alone(copy) {
            self.copies.set_cut(copy, false);
            return Ok(Answer::Done);
        }
        self.copies.renew(copy, self.primary)?;
        Ok(Answer::Done)
    }

    /// Removes a copy that is cut off from those in sync.
    fn drop_copy(&mut self, copy: u32) -> Answer
        ensures { Gives self.old (steps.Drop copy) result self.new }
    {
        let Some(target) = self.copies.flags(copy) else {
            return Answer::NotNow;
        };
        if !self.may_drop(copy, target) {
            return Answer::NotNow;
        }
        self.copies.set_in_sync(copy, false);
        Answer::Done
    }

    /// Makes a copy the primary. If memory is refused, nothing changes. The time is proportional to the
    /// number of documents, for each copy that follows, and to the number of writes in flight.
    fn promote(&mut self, copy: u32) -> Result<Answer, NoMemory>
        ensures ok { IfOk result (λ answer. Gives self.old (steps.Promote copy) answer self.new) }
        ensures err { OnErr result (self.new ≡ self.old) }
        ensures due { OnErr result (MayTake self.old (steps.Promote copy)) }
    {
        let Some(target) = self.copies.flags(copy) else {
            return Ok(Answer::NotNow);
        };
        if !self.may_lead(copy, target) {
            return Ok(Answer::NotNow);
        }
        self.copies.follow(copy)?;
        self.requests.lose_flights();
        if !self.fault.is_same_term() {
            self.term += 1;
        }
        self.primary = copy;
        Ok(Answer::Done)
    }

    /// Gives one step to the group. If memory is refused, nothing changes.
    pub fn step(&mut self, step: Step) -> Result<Answer, NoMemory>
        ensures ok { IfOk result (λ answer. Gives self.old step answer self.new) }
        ensures err { OnErr result (self.new ≡ self.old) }
        ensures due { OnErr result (MayTake self.old step) }
    {
        match step {
            Step::Submit(id, op) => self.submit(id, op),
            Step::Serve(ticket) => self.serve(ticket),
            Step::Copy(ticket, copy) => self.copy(ticket, copy),
            Step::Ack(ticket) => Ok(self.acknowledge(ticket)),
            Step::Cut(copy) => Ok(self.cut(copy)),
            Step::Heal(copy) => self.heal(copy),
            Step::Drop(copy) => Ok(self.drop_copy(copy)),
            Step::Promote(copy) => self.promote(copy),
        }
    }

    /// Returns the reply to a ticket, if it is answered.
    pub fn result(&self, ticket: u64) -> Option<Reply>
        ensures { result ≡ result_of self.now ticket }
    {
        self.requests.get(ticket)?.stage.answer()
    }

    /// Returns the term.
    pub fn term(&self) -> u64
        ensures { result ≡ self.now.term }
    {
        self.term
    }

    /// Returns the number of the primary.
    pub fn primary(&self) -> u32
        ensures { result ≡ self.now.primary }
    {
        self.primary
    }

    /// Returns whether a copy is in sync; `false` if there is no such copy.
    pub fn in_sync(&self, copy: u32) -> bool
        ensures { result ≡ is_in_sync self.now copy }
    {
        match self.copies.flags(copy) {
            Some(copy) => copy.is_in_sync,
            None => false,
        }
    }

    /// Returns whether all tickets have been given.
    pub fn is_full(&self) -> bool
        ensures { result ≡ not (nat_lt (length self.now.requests) most_tickets) }
    {
        self.requests.len() >= MOST_TICKETS
    }

    /// Returns the number of copies, 1 to 5.
    pub fn copy_count(&self) -> u32
        ensures count { result ≡ length self.now.copies }
        ensures range { IsCopyCount result }
    {
        self.copies.len() as u32
    }

    /// Returns the number of tickets in flight.
    pub fn in_flight_len(&self) -> usize
        ensures { result ≡ length (in_flight_from 0 self.now.requests) }
    {
        self.requests.in_flight_len()
    }

    /// Returns the ticket at this index of those in flight, in rising order.
    pub fn in_flight_at(&self, place: usize) -> Option<u64>
        ensures { result ≡ slice_get (in_flight_from 0 self.now.requests) place }
    {
        self.requests.in_flight_at(place)
    }
}
