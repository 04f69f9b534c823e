use crate::clients::Clients;
use crate::clock::date_of;
use crate::head::Span;
use crate::lost_calls::{LostCall, LostCalls, LostEnding};
use crate::reported_line::ReportedLine;
use events::{Event, History, Rec};
use jiff::Timestamp;
use std::alloc::Global;
use version_pair::NoMemory;

/// A note, and the position of the event on whose line it is.
#[derive(Drop)]
pub struct Note {
    pub place: usize,
    pub text: String,
}

// When the line of an event was written.
#[derive(Clone, Copy)]
struct EventTime {
    place: usize,
    // In milliseconds since 1970.
    millisecond: i64,
}

impl EventTime {
    // Returns it as a time; `None` if it is no time that has a date.
    fn time(&self) -> Option<Timestamp> {
        Timestamp::from_millisecond(self.millisecond).ok()
    }
}

// The HTTP status on the line of an event.
#[derive(Clone, Copy)]
struct EventStatus {
    place: usize,
    status: i64,
}

/// The lines of a text that its events are on, and when these lines were written, who asked, what was noted and how
/// calls of unknown outcome ended, if they say so. Nothing is promised of them: explanations look at them, and some of these are tested.
#[derive(Drop)]
pub struct EventLines {
    alloc: Global,
    // The number of events.
    events: usize,
    // For each blank line, the number of events before it; rising.
    blank: Vec<usize>,
    // Of the events whose lines say when they were written, by their positions; rising.
    moments: Vec<EventTime>,
    clients: Clients,
    // The notes, by their positions; rising.
    notes: Vec<Note>,
    // Of the events whose lines have one, by their positions, until it is known which calls are lost; rising.
    statuses: Vec<EventStatus>,
    lost: LostCalls,
    has_voids: bool,
}

impl EventLines {
    /// Returns the lines of an empty text. It allocates nothing.
    pub fn new(alloc: Global) -> EventLines {
        EventLines {
            alloc,
            events: 0,
            blank: Vec::new(alloc),
            moments: Vec::new(alloc),
            clients: Clients::new(alloc),
            notes: Vec::new(alloc),
            statuses: Vec::new(alloc),
            lost: LostCalls::new(alloc),
            has_voids: false,
        }
    }

    /// Adds a blank line.
    pub fn add_blank(&mut self) -> Result<(), NoMemory> {
        self.blank.push(self.events)?;
        Ok(())
    }

    /// Adds when the line of the next event was written, in milliseconds since 1970.
    pub fn add_moment(&mut self, millisecond: i64) -> Result<(), NoMemory> {
        let place = self.events;
        self.moments.push(EventTime { place, millisecond })?;
        Ok(())
    }

    /// Adds who asked by the line of the next event; nothing if the name is empty.
    pub fn add_client(&mut self, name: &str) -> Result<(), NoMemory> {
        self.clients.add(self.alloc, self.events, name)
    }

    /// Adds the note on the line of the next event; nothing if it is empty.
    pub fn add_note(&mut self, text: &str) -> Result<(), NoMemory> {
        if text.is_empty() {
            return Ok(());
        }
        let text = String::from_str(self.alloc, text)?;
        let place = self.events;
        self.notes.push(Note { place, text })?;
        Ok(())
    }

    /// Adds the HTTP status on the line of the next event.
    pub fn add_status(&mut self, status: i64) -> Result<(), NoMemory> {
        let place = self.events;
        self.statuses.push(EventStatus { place, status })?;
        Ok(())
    }

    /// Adds that the line of an event may say that nothing was performed.
    pub fn add_void(&mut self) {
        self.has_voids = true;
    }

    /// Adds the line of the next event, to which what was added since the event before it belongs.
    pub fn add_event(&mut self) {
        // A text has at most 4,194,304 lines, so the sum never reaches the greatest number.
        self.events = self.events.saturating_add(1);
    }

    // Returns the HTTP status on the line of the event at this position, if it has one.
    fn status(&self, place: usize) -> Option<i64> {
        let before = self.statuses.partition_point(|it| it.place < place);
        match self.statuses.get(before) {
            Some(it) if it.place == place => Some(it.status),
            _ => None,
        }
    }

    /// Adds how the calls of the history ended whose outcome is lost, as far as their lines say so. `voids` are the
    /// numbers of those of which the recorder states that nothing was performed, in the order of their lines.
    pub fn end_calls(&mut self, history: &History, voids: &[u64]) -> Result<(), NoMemory> {
        let mut calls = Vec::new(self.alloc);
        let mut voids = voids.iter();
        let mut void = voids.next();
        for place in 0..history.len() {
            let Event::Lost { no } = history.event(place) else {
                continue;
            };
            let ending = if void == Some(no) {
                void = voids.next();
                Some(LostEnding::Void)
            } else {
                match self.status(place) {
                    Some(status) => Some(LostEnding::Answered(status)),
                    None => None,
                }
            };
            if let Some(ending) = ending {
                let no = *no;
                calls.push(LostCall { no, place, ending })?;
            }
        }
        self.lost = LostCalls::of(calls);
        self.statuses = Vec::new(self.alloc);
        Ok(())
    }

    /// Returns whether a line may say that nothing was performed.
    pub fn has_voids(&self) -> bool {
        self.has_voids
    }

    /// Returns the line, from 1, of the event at this position, from 0.
    pub fn number(&self, place: usize) -> u64 {
        let skipped = self.blank.partition_point(|events| *events <= place);
        // A text has at most 4,194,304 lines, so the sum stops at the greatest number for no event.
        (place as u64).saturating_add(skipped as u64 + 1)
    }

    // Whether the first and the last line aren't both of the time's date.
    fn is_dated(&self, time: Timestamp) -> bool {
        match self.span() {
            Some(span) => span.date() != Some(date_of(time)),
            None => true,
        }
    }

    // Returns when the line of the event at this position was written, if it says so.
    fn time(&self, place: usize) -> Option<Timestamp> {
        let before = self.moments.partition_point(|moment| moment.place < place);
        match self.moments.get(before) {
            Some(moment) if moment.place == place => moment.time(),
            _ => None,
        }
    }

    // Returns when the line of the event at this position was written, in milliseconds since 1970, if it says so.
    fn moment(&self, place: usize) -> Option<i64> {
        let before = self.moments.partition_point(|moment| moment.place < place);
        match self.moments.get(before) {
            Some(moment) if moment.place == place => Some(moment.millisecond),
            _ => None,
        }
    }

    /// Returns how many milliseconds passed between the lines of two events, if both say when they were written and the
    /// first one was written first.
    pub fn milliseconds(&self, first: usize, last: usize) -> Option<u64> {
        let passed = self.moment(last)?.checked_sub(self.moment(first)?)?;
        u64::try_from(passed).ok()
    }

    /// Returns the line of the event at this position, as sentences name it.
    pub fn line(&self, place: usize) -> ReportedLine {
        let number = self.number(place);
        let time = self.time(place);
        let is_dated = match time {
            Some(time) => self.is_dated(time),
            None => false,
        };
        ReportedLine {
            number,
            time,
            is_dated,
        }
    }

    /// Returns the call if its outcome is lost, and its ending known.
    pub fn lost(&self, record: &Rec) -> Option<LostCall> {
        match record.heard {
            Some(_) => None,
            None => self.lost.get(record.no),
        }
    }

    /// Returns the position at which the call was over, if that is known: that of its reply.
    pub fn over_at(&self, record: &Rec) -> Option<usize> {
        match (record.heard, self.lost(record)) {
            (Some(heard), _) => Some(heard.0),
            (None, Some(call)) => Some(call.place),
            (None, None) => None,
        }
    }

    /// Returns the position of the reply to the call; that of the call if there is no reply.
    pub fn end_of(&self, record: &Rec) -> usize {
        self.over_at(record).unwrap_or(record.call_at)
    }

    /// Returns whether the two calls were open at the same time.
    pub fn overlap(&self, one: &Rec, other: &Rec) -> bool {
        one.call_at < self.over_at(other).unwrap_or(usize::MAX)
            && other.call_at < self.over_at(one).unwrap_or(usize::MAX)
    }

    /// Returns the line of the reply to the call, as sentences name it; that of the call if there is no reply.
    pub fn reply(&self, record: &Rec) -> ReportedLine {
        self.line(self.end_of(record))
    }

    /// Returns the number of events.
    pub fn events(&self) -> usize {
        self.events
    }

    /// Returns when the first line that says so was written, and the last one.
    pub fn span(&self) -> Option<Span> {
        for first in self.moments.iter() {
            if let Some(first) = first.time() {
                for last in self.moments.iter().rev() {
                    if let Some(last) = last.time() {
                        return Some(Span { first, last });
                    }
                }
            }
        }
        None
    }

    /// Returns who made the call, if its line says so.
    pub fn client(&self, record: &Rec) -> Option<&str> {
        self.clients.of(record.call_at)
    }

    /// Returns the notes on the lines of the events from a position on, up to another one, which is not among them.
    pub fn notes(&self, start: usize, end: usize) -> &[Note] {
        let rest = &self.notes[self.notes.partition_point(|note| note.place < start)..];
        &rest[..rest.partition_point(|note| note.place < end)]
    }
}
