ghost use Rattle.std.specs.Prelude.{◌≡◌, MatchOption, None, Some, option_map};
ghost use Rattle.serde_json.specs.View.{view};
ghost use Rattle.api_lines.specs.Bulk.{action_by, action_parsed, action_values, has_one_key as is_object_of_one_key, item_of, only_member as member_alone, values_of, conditioned as reported_condition};
ghost use Rattle.api_lines.specs.aids.Actions.{action_seen};
ghost use Rattle.api_lines.specs.Faults.{Gives};

use crate::field::{Field, field_of};
use crate::ids::document_id;
use crate::number::pair_of_numbers;
use crate::text_fault::{LineFault, TextCause};
use doc_register::Op;
use serde_json::Value;
use std::alloc::Global;
use version_pair::{DocId, Pair};

/// An action of a bulk request, by its name.
#[derive(Clone, Copy, PartialEq, Eq)]
pub enum ActionName {
    Index,
    Delete,
    Create,
}

/// The fields of an action's line.
#[derive(Clone, Copy)]
pub struct ActionFields<'v> {
    pub action: ActionName,
    /// `_id`.
    pub id: Field<'v>,
    /// `if_seq_no`.
    pub seq: Field<'v>,
    /// `if_primary_term`.
    pub term: Field<'v>,
}

/// An action whose source line is to come.
#[derive(Drop)]
pub enum Awaited {
    Index { id: DocId, cond: Option<Pair> },
    Create { id: DocId },
}

/// What an action's line says.
#[derive(Drop)]
pub enum ActionSaid {
    /// The document is deleted.
    Deletes { id: DocId, cond: Option<Pair> },
    /// A source line follows.
    Awaits(Awaited),
}

impl Awaited {
    /// Returns the item of the action, with the number of its source.
    pub fn item(self, k: u64) -> (DocId, Op)
        ensures { result ≡ item_of self k }
    {
        match self {
            Awaited::Index { id, cond } => (id, Op::Index { k, cond }),
            Awaited::Create { id } => (id, Op::Create { k }),
        }
    }
}

// Whether the value is an object with one key.
fn has_one_key(value: &Value) -> bool
    ensures { result ≡ is_object_of_one_key (view value.now) }
{
    match value.as_object() {
        Some(members) => members.len() == 1,
        None => false,
    }
}

/// Returns the value under the key, if it is the only key of an object.
pub fn only_member<'v>(value: &'v Value, key: &str) -> Option<&'v Value>
    ensures { option_map (λ v. view v.now) result ≡ member_alone key.now (view value.now) }
{
    if has_one_key(value) {
        value.get(key)
    } else {
        None
    }
}

// The fields of an action of this name that holds the value.
fn fields_of(action: ActionName, value: &Value) -> ActionFields<'_>
    ensures { action_seen result ≡ values_of action (view value.now) }
{
    ActionFields {
        action,
        id: field_of(value, "_id"),
        seq: field_of(value, "if_seq_no"),
        term: field_of(value, "if_primary_term"),
    }
}

/// Returns the fields of an action's line; `None` if the value is not an object whose one key names an
/// action.
pub fn action_fields(value: &Value) -> Option<ActionFields<'_>>
    ensures { MatchOption result (action_values (view value.now) ≡ None) (λ fields. action_values (view value.now) ≡ Some (action_seen fields)) }
{
    if let Some(held) = only_member(value, "index") {
        return Some(fields_of(ActionName::Index, held));
    }
    if let Some(held) = only_member(value, "delete") {
        return Some(fields_of(ActionName::Delete, held));
    }
    if let Some(held) = only_member(value, "create") {
        return Some(fields_of(ActionName::Create, held));
    }
    None
}

// The id and the condition of an action. Causes in their order: `Shape`, `Id`, `Half`, `Range`.
fn id_and_condition(
    alloc: Global,
    action: &ActionFields<'_>,
) -> Result<(DocId, Option<Pair>), LineFault>
    ensures { Gives result (reported_condition (action_seen action.now)) }
{
    let name = action.id.required_text()?;
    let seq = action.seq.optional_number()?;
    let term = action.term.optional_number()?;
    let id = document_id(name)?.to_id(alloc)?;
    let cond = pair_of_numbers(seq, term)?;
    Ok((id, cond))
}

// What an action says. Causes in their order: `Shape`, `Id`, `Half`, `Range`. Conditions on a create are
// passed over.
fn said_by(alloc: Global, action: &ActionFields<'_>) -> Result<ActionSaid, LineFault>
    ensures { Gives result (action_by action.now.action (action_seen action.now)) }
{
    match action.action {
        ActionName::Index => {
            let (id, cond) = id_and_condition(alloc, action)?;
            Ok(ActionSaid::Awaits(Awaited::Index { id, cond }))
        }
        ActionName::Delete => {
            let (id, cond) = id_and_condition(alloc, action)?;
            Ok(ActionSaid::Deletes { id, cond })
        }
        ActionName::Create => {
            let name = action.id.required_text()?;
            let id = document_id(name)?.to_id(alloc)?;
            Ok(ActionSaid::Awaits(Awaited::Create { id }))
        }
    }
}

/// Returns what an action's line says. Causes in their order: `Shape`, also for what is not an action; `Id`,
/// `Half`, `Range`. `NoMemory` says nothing of the line.
pub fn action_said(alloc: Global, value: &Value) -> Result<ActionSaid, LineFault>
    ensures { Gives result (action_parsed (action_values (view value.now))) }
{
    match action_fields(value) {
        Some(action) => said_by(alloc, &action),
        None => Err(LineFault::Reported(TextCause::Shape)),
    }
}
