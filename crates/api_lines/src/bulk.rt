ghost use Rattle.std.specs.Prelude.{◌≡◌, [], All, true, IfErr, IfOk, Ok, Err, OnOk, None, Some};
ghost use Rattle.serde_json.specs.View.{view};
ghost use Rattle.api_lines.specs.Bulk.{UnlessMemory, action_fault as fault_of_action, bulk_body, ended, sourced, taken_line, taken_value, with_action};
ghost use Rattle.api_lines.specs.BulkReply.{is_write};
ghost use Rattle.api_lines.specs.Fields.{value_of};
ghost use Rattle.api_lines.specs.aids.BulkReading.{so_far};

use crate::action::{ActionSaid, Awaited, action_said};
use crate::bulk_fault::BulkFault;
use crate::field::{Field, field_of};
use crate::lines::{LONGEST_LINE, first_line, is_blank, line_value};
use crate::text_fault::{LineFault, TextCause};
use doc_register::Op;
use serde_json::Value;
use std::alloc::Global;
use version_pair::DocId;

// The items of the lines so far, and the action whose source line is to come.
#[derive(Drop)]
struct Bulk {
    items: Vec<(DocId, Op)>,
    awaited: Option<Awaited>,
}

// The fault of an action's line with this number.
fn action_fault(number: u64, cause: TextCause) -> BulkFault
    ensures { result ≡ fault_of_action number cause }
{
    match cause {
        TextCause::Half => BulkFault::Half(number),
        TextCause::Range => BulkFault::Range(number),
        _ => BulkFault::Action(number),
    }
}

impl Bulk {
    fn new(alloc: Global) -> Bulk
        ensures { so_far result ≡ record { items = []; awaited = None } }
    {
        Bulk {
            items: Vec::new(alloc),
            awaited: None,
        }
    }

    // Takes what an action's line says.
    fn begin(&mut self, said: ActionSaid) -> Result<(), BulkFault>
        requires { self.old.awaited ≡ None }
        ensures ok { OnOk result (so_far self.new ≡ with_action self.old.items.items said) }
        ensures err { IfErr result (λ fault. fault ≡ BulkFault.NoMemory) }
    {
        match said {
            ActionSaid::Deletes { id, cond } => {
                match self.items.push((id, Op::Delete { cond })) {
                    Ok(()) => Ok(()),
                    Err(_) => Err(BulkFault::NoMemory),
                }
            }
            ActionSaid::Awaits(awaited) => {
                self.awaited = Some(awaited);
                Ok(())
            }
        }
    }

    // Takes the line of an action.
    fn take_action(&mut self, alloc: Global, number: u64, value: &Value) -> Result<(), BulkFault>
        requires { self.old.awaited ≡ None }
        ensures ok { OnOk result (taken_value number self.old.items.items None (view value.now) ≡ Ok (so_far self.new)) }
        ensures err { IfErr result (λ fault. UnlessMemory fault (taken_value number self.old.items.items None (view value.now) ≡ Err fault)) }
    {
        match action_said(alloc, value) {
            Ok(said) => {
                self.begin(said)?;
                Ok(())
            }
            Err(LineFault::Reported(cause)) => Err(action_fault(number, cause)),
            Err(LineFault::NoMemory) => Err(BulkFault::NoMemory),
        }
    }

    // Takes the source line of the action that awaits it.
    fn take_source(
        &mut self,
        number: u64,
        awaited: Awaited,
        source: Field<'_>,
    ) -> Result<(), BulkFault>
        requires { self.old.awaited ≡ None }
        ensures ok { OnOk result (sourced number self.old.items.items awaited (value_of source.entry) ≡ Ok (so_far self.new)) }
        ensures err { IfErr result (λ fault. UnlessMemory fault (sourced number self.old.items.items awaited (value_of source.entry) ≡ Err fault)) }
    {
        let Field::Whole(k) = source else {
            return Err(BulkFault::Source(number));
        };
        match self.items.push(awaited.item(k)) {
            Ok(()) => Ok(()),
            Err(_) => Err(BulkFault::NoMemory),
        }
    }

    // Takes the value of the line with this number.
    fn take_value(&mut self, alloc: Global, number: u64, value: &Value) -> Result<(), BulkFault>
        ensures ok { OnOk result (taken_value number self.old.items.items self.old.awaited (view value.now) ≡ Ok (so_far self.new)) }
        ensures err { IfErr result (λ fault. UnlessMemory fault (taken_value number self.old.items.items self.old.awaited (view value.now) ≡ Err fault)) }
    {
        match self.awaited.take() {
            None => self.take_action(alloc, number, value),
            Some(awaited) => self.take_source(number, awaited, field_of(value, "k")),
        }
    }

    // Takes the line with this number.
    fn take_line(&mut self, alloc: Global, number: u64, line: &[u8]) -> Result<(), BulkFault>
        ensures ok { OnOk result (taken_line number (so_far self.old) line.now ≡ Ok (so_far self.new)) }
        ensures err { IfErr result (λ fault. UnlessMemory fault (taken_line number (so_far self.old) line.now ≡ Err fault)) }
    {
        if line.len() > LONGEST_LINE {
            return Err(BulkFault::Syntax(number));
        }
        if is_blank(line) {
            return Ok(());
        }
        match line_value(alloc, line) {
            Ok(value) => self.take_value(alloc, number, &value),
            Err(LineFault::Reported(_)) => Err(BulkFault::Syntax(number)),
            Err(LineFault::NoMemory) => Err(BulkFault::NoMemory),
        }
    }

    // The items, if no source line is to come; the number is that after the last line.
    fn into_items(self, number: u64) -> Result<Vec<(DocId, Op)>, BulkFault>
        ensures ok { IfOk result (λ items. ended number self.items.items self.awaited ≡ Ok items.items) }
        ensures err { IfErr result (λ fault. UnlessMemory fault (ended number self.items.items self.awaited ≡ Err fault)) }
    {
        match self.awaited {
            None => Ok(self.items),
            Some(_) => Err(BulkFault::Source(number)),
        }
    }
}

/// Returns the items of the body of a bulk request, each the id of a document and an operation; or the first
/// fault.
///
/// The lines are taken in order, and blank ones are passed over. An action's line is an object with the one
/// key `index`, `delete` or `create`. The key holds an object whose `_id` is a document's id and whose
/// `if_seq_no` and `if_primary_term` are numbers if they are present; on a create these two are passed over.
/// After `index` and `create` a source line follows, an object with a whole number `k`.
///
/// Errors, in this order, line by line: `Syntax` for a line of more than 65,536 bytes, even a blank one, and
/// for one that is not JSON; of an action's line `Action` if it has another form, then `Half` and `Range` of
/// its two numbers; `Source` if a source line has another form, with the number after the last line if no
/// line is left. `NoMemory` may come before any of them.
pub fn read_bulk(alloc: Global, body: &[u8]) -> Result<Vec<(DocId, Op)>, BulkFault>
    // The items are those that the definition gives.
    ensures ok { IfOk result (λ items. bulk_body body.now ≡ Ok items.items) }
    // No item is a get.
    ensures writes { IfOk result (λ items. All (λ item. is_write item.1 ≡ true) items.items) }
    // An error other than `NoMemory` is the first fault by the definition.
    ensures fault { IfErr result (λ fault. UnlessMemory fault (bulk_body body.now ≡ Err fault)) }
{
    let mut bulk = Bulk::new(alloc);
    let mut number = 1;
    let mut rest = body;
    while !rest.is_empty() {
        let (line, after) = first_line(rest);
        bulk.take_line(alloc, number, line)?;
        number += 1;
        rest = after;
    }
    bulk.into_items(number)
}
