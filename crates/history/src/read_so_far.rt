ghost use Rattle.std.specs.Prelude.{◌≡◌, ◌<◌, Err, IfErr, IfOk, Ok, OnErr, OnOk, OnSome, vec_capacity, vec_len};
ghost use Rattle.api_lines.specs.Faults.{IfReported};
ghost use Rattle.api_lines.specs.Fields.{line_seen};
ghost use Rattle.history.specs.ByRules.{start_by, takes_line_by, void_heeded};
ghost use Rattle.history.specs.aids.Rules.{voided, with_number};

use crate::room::take_in_room;
use crate::text_read::TextRead;
use crate::text_rules::{Failed, TextRules};
use crate::voids::Voids;
use api_lines::{LineFault, LineFields, LineSaid, TextCause, line_said, void_of};
use events::{HashKeys, History};
use std::alloc::{AllocError, Global};
use std::marker::Model;

// Whether a line says that nothing was performed, if that is heeded.
#[inline(always)]
fn is_void(failed: Failed, line: &LineFields<'_>) -> Result<bool, TextCause>
    ensures { result ≡ void_heeded failed (line_seen line.now) }
{
    match failed {
        Failed::Lost => Ok(false),
        Failed::Trusted => Ok(void_of(line)?.unwrap_or(false)),
    }
}

// The number of the call of which a line says that nothing was performed, if it says so.
#[inline(always)]
fn number_voided(is_void: bool, said: &LineSaid<'_>) -> Option<u64>
    ensures { result ≡ voided is_void said.now }
{
    match said {
        LineSaid::Lost { no } if is_void => Some(*no),
        _ => None,
    }
}

// Makes room for the number, if there is one.
#[inline(always)]
fn reserve_number(numbers: &mut Vec<u64>, number: Option<u64>) -> Result<(), AllocError>
    ensures same { numbers.new.items ≡ numbers.old.items }
    ensures room { OnOk result (OnSome number (vec_len numbers.new < vec_capacity numbers.new)) }
{
    match number {
        Some(_) => numbers.reserve(1),
        None => Ok(()),
    }
}

// Adds the number, if there is one.
#[inline(always)]
fn add_number(numbers: &mut Vec<u64>, number: Option<u64>)
    requires { OnSome number (vec_len numbers.now < vec_capacity numbers.now) }
    ensures { numbers.new.items ≡ with_number number numbers.old.items }
{
    if let Some(no) = number {
        numbers.push_reserved(no);
    }
}

/// What was read of a text so far, by rules.
#[derive(Debug, Drop)]
pub struct ReadSoFar {
    rules: TextRules,
    history: History,
    voids: Vec<u64>,
    // The room that the events take.
    room: usize,
}

impl Model for ReadSoFar {
    ghost use Rattle.history.specs.ByRules.{TextState};
    ghost use Rattle.history.specs.aids.Rules.{IsRoomTaken};

    ghost Value = { TextState };

    ghost view = { λ s. record { rules = s.rules; read = record { history = s.history; voids = s.voids.items } } };

    ghost invariant = { λ s. IsRoomTaken s.rules.writes s.history s.room };
}

impl ReadSoFar {
    /// Returns that nothing was read, for a history with these keys. It allocates nothing.
    pub fn new(alloc: Global, keys: HashKeys, rules: TextRules) -> ReadSoFar
        ensures { result ≡ start_by rules }
    {
        ReadSoFar {
            rules,
            history: History::with_keys(alloc, keys),
            voids: Vec::new(alloc),
            room: 0,
        }
    }

    /// Returns the allocator of the history.
    pub fn allocator(&self) -> Global {
        self.history.allocator()
    }

    /// Takes the fields of one more line. A line that is refused leaves what was read as it was.
    pub fn take_fields(&mut self, line: &LineFields<'_>) -> Result<(), LineFault>
        ensures ok { OnOk result (takes_line_by self.old (line_seen line.now) ≡ Ok self.new) }
        ensures err { IfErr result (λ fault. IfReported fault
            (λ cause. takes_line_by self.old (line_seen line.now) ≡ Err cause)) }
        ensures unchanged { OnErr result (self.new ≡ self.old) }
    {
        let is_void = is_void(self.rules.failed, line)?;
        let said = line_said(line)?;
        let voided = number_voided(is_void, &said);
        reserve_number(&mut self.voids, voided)?;
        match take_in_room(
            &mut self.history,
            self.room,
            self.rules.writes,
            said,
            &line.body,
        ) {
            Ok(room) => {
                self.room = room;
                add_number(&mut self.voids, voided);
                Ok(())
            }
            Err(fault) => Err(fault),
        }
    }

    /// Returns the history alone.
    pub fn into_history(self) -> History
        ensures { result ≡ self.read.history }
    {
        self.history
    }

    /// Returns what was read, with the numbers to be looked up.
    pub fn finish(self) -> Result<TextRead, AllocError>
        ensures { IfOk result (λ read. read ≡ self.read) }
    {
        let voids = Voids::new(self.history.allocator(), self.voids)?;
        Ok(TextRead {
            history: self.history,
            voids,
        })
    }
}
