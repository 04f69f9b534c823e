ghost use Rattle.std.specs.Prelude.{◌≡◌, ◌<◌, ◌++◌, ◌∷◌, ◌==◌, [], Some, false, filter, length, nat_lt, not, slice_get, true, vec_capacity, vec_len, OnErr, OnOk};
ghost use Rattle.std.specs.List.{position};
ghost use Rattle.repl_group.specs.Requests.{in_flight_from, is_busy as busy, is_in_flight, is_queued as queued, lost_request, with_flights_lost, with_stage};
ghost use Rattle.repl_group.specs.aids.Tracking.{queued_request, put_in_order as put};
ghost use Rattle.repl_group.specs.declared.request.Stage.TheVariants as stage;

use crate::request::{Request, Stage};
use doc_register::{DocState, Op, Reply};
use indexmap::IndexSet;
use std::alloc::Global;
use std::marker::Model;
use version_pair::{NoMemory, Pair};

/// The requests of all tickets.
///
/// The tickets in flight, in rising order, and the numbers of the documents that they are on are kept beside
/// them.
#[derive(Debug, Drop)]
pub struct Requests {
    list: Vec<Request>,
    in_flight: Vec<u64>,
    busy: IndexSet<usize>,
}

impl Model for Requests {
    ghost use Rattle.repl_group.specs.aids.Tracking.{RequestsState};

    ghost Value = { RequestsState };

    ghost use Rattle.std.specs.Prelude.{◌&&◌, nat_lt, vec_capacity, vec_len};
    ghost use Rattle.indexmap.specs.IndexSet.{spare};
    ghost use Rattle.repl_group.specs.aids.Tracking.{AreListed};

    ghost view = { λ r. record {
      list = r.list.items;
      has_room = nat_lt (vec_len r.in_flight) (vec_capacity r.in_flight) && nat_lt 0 (spare r.busy);
    } };

    ghost invariant = { λ r. AreListed r.list.items r.in_flight.items r.busy.keys };
}

// The index of the first ticket that is greater.
fn first_greater(tickets: &[u64], ticket: u64) -> Option<usize>
    ensures { result ≡ position (nat_lt ticket) tickets.now }
{
    tickets.iter().position(|other| ticket < *other)
}

// Inserts a ticket before the first one that is greater. There must be room for it.
fn put_in_order(tickets: &mut Vec<u64>, ticket: u64)
    requires { vec_len tickets.old < vec_capacity tickets.old }
    ensures { tickets.new.items ≡ put ticket tickets.old.items }
{
    let place = first_greater(tickets, ticket).unwrap_or(tickets.len());
    match tickets.insert(place, ticket) {
        Ok(()) => {}
        Err(_) => unreachable!(),
    }
}

// Removes a ticket.
fn take_out(tickets: &mut Vec<u64>, ticket: u64)
    ensures { tickets.new.items ≡ filter (λ other. not (other == ticket)) tickets.old.items }
{
    tickets.retain(|other| *other != ticket);
}

// Sets how far a request has come.
fn set_stage(list: &mut Vec<Request>, ticket: u64, request: Request, stage: Stage)
    requires { slice_get list.old.items ticket ≡ Some request }
    ensures { list.new.items ≡ with_stage list.old.items ticket request stage }
{
    list[ticket as usize] = Request { stage, ..request };
}

// The request, which becomes lost if it is in flight.
fn lost(request: Request) -> Request
    ensures { result ≡ lost_request request }
{
    match request.stage {
        Stage::InFlight(pair, _) => Request {
            stage: Stage::Lost(pair),
            ..request
        },
        Stage::Queued | Stage::Answered(_) | Stage::Lost(_) => request,
    }
}

// Makes the requests in flight lost, which are those of these tickets.
fn lose(list: &mut Vec<Request>, tickets: &[u64])
    requires { tickets.now ≡ in_flight_from 0 list.old.items }
    ensures { list.new.items ≡ with_flights_lost list.old.items }
{
    for ticket in tickets {
        let place = *ticket as usize;
        list[place] = lost(list[place]);
    }
}

impl Requests {
    /// Returns a list without requests. It allocates nothing.
    pub fn new(alloc: Global) -> Requests
        ensures { result.list ≡ [] }
    {
        Requests {
            list: Vec::new(alloc),
            in_flight: Vec::new(alloc),
            busy: IndexSet::new(alloc),
        }
    }

    /// Returns the number of tickets.
    pub fn len(&self) -> usize
        ensures { result ≡ length self.now.list }
    {
        self.list.len()
    }

    /// Returns the request of a ticket.
    pub fn get(&self, ticket: u64) -> Option<Request>
        ensures { result ≡ slice_get self.now.list ticket }
    {
        self.list.get(ticket as usize).copied()
    }

    /// Returns whether a write is in flight on the document of this number.
    pub fn is_busy(&self, doc: usize) -> bool
        ensures { result ≡ busy self.now.list doc }
    {
        self.busy.contains(&doc)
    }

    /// Returns the number of tickets in flight.
    pub fn in_flight_len(&self) -> usize
        ensures { result ≡ length (in_flight_from 0 self.now.list) }
    {
        self.in_flight.len()
    }

    /// Returns the ticket at this index of those in flight, in rising order.
    pub fn in_flight_at(&self, place: usize) -> Option<u64>
        ensures { result ≡ slice_get (in_flight_from 0 self.now.list) place }
    {
        self.in_flight.get(place).copied()
    }

    /// Adds a queued request. If memory is refused, nothing changes.
    pub fn add(&mut self, doc: usize, op: Op) -> Result<(), NoMemory>
        ensures ok { OnOk result (self.new.list ≡ self.old.list ++ queued_request doc op ∷ []) }
        ensures err { OnErr result (self.new.list ≡ self.old.list) }
    {
        self.list.push(Request {
            doc,
            op,
            stage: Stage::Queued,
        })?;
        Ok(())
    }

    /// Answers a queued request.
    pub fn answer(&mut self, ticket: u64, request: Request, reply: Reply)
        requires found { slice_get self.old.list ticket ≡ Some request }
        requires is_queued { queued request.stage ≡ true }
        ensures { self.new.list ≡ with_stage self.old.list ticket request (stage.Answered reply) }
    {
        set_stage(&mut self.list, ticket, request, Stage::Answered(reply));
    }

    /// Makes room for one more write in flight.
    pub fn reserve(&mut self) -> Result<(), NoMemory>
        ensures same { self.new.list ≡ self.old.list }
        ensures ok { OnOk result (self.new.has_room ≡ true) }
    {
        self.in_flight.reserve(1)?;
        self.busy.reserve(1)
    }

    /// Puts a queued write in flight, with a pair; `before` is its document before it. No other write may be
    /// in flight on its document, and there must be room. The time is proportional to the number of writes in
    /// flight.
    pub fn launch(&mut self, ticket: u64, request: Request, pair: Pair, before: DocState)
        requires room { self.old.has_room ≡ true }
        requires found { slice_get self.old.list ticket ≡ Some request }
        requires is_queued { queued request.stage ≡ true }
        requires free { busy self.old.list request.doc ≡ false }
        ensures { self.new.list ≡ with_stage self.old.list ticket request (stage.InFlight pair before) }
    {
        set_stage(
            &mut self.list,
            ticket,
            request,
            Stage::InFlight(pair, before),
        );
        put_in_order(&mut self.in_flight, ticket);
        match self.busy.insert(request.doc) {
            Ok(_) => {}
            Err(_) => unreachable!(),
        }
    }

    /// Answers a write in flight. The time is proportional to the number of writes in flight.
    pub fn acknowledge(&mut self, ticket: u64, request: Request, reply: Reply)
        requires found { slice_get self.old.list ticket ≡ Some request }
        requires flying { is_in_flight request.stage ≡ true }
        ensures { self.new.list ≡ with_stage self.old.list ticket request (stage.Answered reply) }
    {
        set_stage(&mut self.list, ticket, request, Stage::Answered(reply));
        take_out(&mut self.in_flight, ticket);
        self.busy.swap_remove(&request.doc);
    }

    /// Makes all writes in flight lost. The time is proportional to their number.
    pub fn lose_flights(&mut self)
        ensures { self.new.list ≡ with_flights_lost self.old.list }
    {
        lose(&mut self.list, &self.in_flight);
        self.in_flight.clear();
        self.busy.clear();
    }
}
