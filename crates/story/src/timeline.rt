use crate::calls_in_view::calls_in_view;
use events::{History, Rec};
use places::DocWitness;
use std::alloc::Global;
use story_blocks::Word::{Count, Id, Number, Shown, Text};
use story_blocks::{Block, Draft, View};
use story_drawings::{DrawingKind, Drawn, Named, drawing_of};
use story_reasons::{
    Call, Explained, OrderBefore, OrderExtent, OrderSearch, Subjects, order_before,
    order_of_witness,
};
use version_pair::{DocId, NoMemory};

// The greatest number of versions that a timeline shows.
const MOST_VERSIONS: usize = 40;

// A document with all its calls.
#[derive(Clone, Copy)]
struct Document<'a, 'h> {
    id: &'h DocId,
    records: &'a [Rec],
}

// The same with the calls that are shown.
#[derive(Clone, Copy)]
struct Viewed<'a, 'h> {
    id: &'h DocId,
    records: &'a [Rec],
    calls: &'a [Call<'h>],
}

// Returns the position of the first of these calls; 0 if there is none.
fn first_event(calls: &[Call<'_>]) -> usize {
    match calls.first() {
        Some(first) => first.record.call_at,
        None => 0,
    }
}

// Adds that the history has no such document.
fn add_unknown_document(draft: &mut Draft<'_>, view: &View<'_>) {
    draft.paragraph(
        "The history has no document \"{}\".",
        &[Shown(view.document)],
    );
}

// Adds which calls are shown, and whether it is known when they take effect.
fn add_shown(draft: &mut Draft<'_>, viewed: Viewed<'_, '_>, order: &Option<OrderBefore>) {
    let mut last = 0usize;
    for call in viewed.calls {
        last = last.max(draft.lines.end_of(&call.record));
    }
    let first = first_event(viewed.calls);
    let effect = match order {
        Some(_) =>
            "A stroke across a bar shows when its call takes effect, if it has a place in the order that was found.",
        None => "No order of them is known, so it doesn't show when they take effect.",
    };
    draft.paragraph(
        "The timeline on the page shows {} of the {} calls of {}: those from line {} to line {}. {}",
        &[
            Count(viewed.calls.len()),
            Count(viewed.records.len()),
            Id(viewed.id),
            Number(draft.lines.number(first)),
            Number(draft.lines.number(last)),
            Text(effect),
        ],
    );
}

// Returns the part of the order with the calls that are shown, the changes between them, and the state before.
fn part_of(alloc: Global, order: OrderBefore, calls: &[Call<'_>]) -> Result<OrderBefore, NoMemory> {
    let first = first_event(calls);
    let last = match calls.last() {
        Some(last) => last.record.call_at,
        None => 0,
    };
    let mut part = OrderBefore {
        left_out: order.left_out,
        start: order.start,
        steps: Vec::new(alloc),
    };
    for step in order.steps.iter() {
        let place = step.record.call_at;
        if first <= place && place <= last {
            part.steps.push(*step)?;
        } else if part.steps.is_empty() {
            part.start = step.state;
        } else if place < first && step.is_change {
            part.steps.push(*step)?;
        }
    }
    Ok(part)
}

// Adds the timeline.
fn add_drawing(
    draft: &mut Draft<'_>,
    viewed: Viewed<'_, '_>,
    order: &Option<OrderBefore>,
    named: Option<&Named>,
    event: Option<usize>,
) -> Result<(), NoMemory> {
    let drawn = Drawn {
        kind: DrawingKind::Timeline,
        calls: viewed.calls,
        named,
        order: order.as_ref(),
        versions: MOST_VERSIONS,
        event,
        several: false,
    };
    let drawing = drawing_of(draft, &drawn)?;
    draft.add(Block::Drawing(drawing));
    Ok(())
}

// Adds the timeline and what it shows, or that there is nothing to show.
fn add_viewed(
    draft: &mut Draft<'_>,
    viewed: Viewed<'_, '_>,
    order: Option<OrderBefore>,
    named: Option<&Named>,
    event: Option<usize>,
) -> Result<(), NoMemory> {
    if viewed.calls.is_empty() {
        draft.paragraph(
            "No call of the document {} is on one of these lines.",
            &[Id(viewed.id)],
        );
        return Ok(());
    }
    let order = match order {
        Some(order) => Some(part_of(draft.alloc, order, viewed.calls)?),
        None => None,
    };
    add_shown(draft, viewed, &order);
    add_drawing(draft, viewed, &order, named, event)
}

// Returns the order of the document with this id, if there is one.
fn witness_of<'w>(witnesses: &'w [DocWitness], id: &str) -> Option<&'w DocWitness> {
    for witness in witnesses {
        if witness.id().as_str() == id {
            return Some(witness);
        }
    }
    None
}

/// Adds the timeline of a document of a history that an order explains.
pub fn add_explained_timeline(
    draft: &mut Draft<'_>,
    explained: &Explained<'_>,
    view: Option<&View<'_>>,
) -> Result<(), NoMemory> {
    let Some(view) = view else {
        return Ok(());
    };
    draft.heading("A timeline of the document");
    let text = explained.text;
    let witness = witness_of(explained.witnesses, view.document);
    let (Some(witness), Some(doc)) = (witness, document_of(text, view.document)) else {
        add_unknown_document(draft, view);
        return Ok(());
    };
    if doc >= text.docs() {
        return Ok(());
    }
    let records = text.records(doc)?;
    let calls = calls_in_view(draft, view, witness.id(), &records, None)?;
    let viewed = Viewed {
        id: witness.id(),
        records: records.as_slice(),
        calls: calls.as_slice(),
    };
    let order = order_of_witness(draft.alloc, explained, witness)?;
    add_viewed(draft, viewed, Some(order), None, None)
}

// Returns the number of the document with this id.
fn document_of(history: &History, id: &str) -> Option<usize> {
    for doc in 0..history.docs() {
        if history.doc(doc).as_str() == id {
            return Some(doc);
        }
    }
    None
}

// Returns an order of the document's calls before the broken reply, at least from the first one that is shown on,
// if one is found.
fn order_in_view<S: OrderSearch>(
    alloc: Global,
    subjects: &Subjects<'_>,
    search: &S,
    viewed: Viewed<'_, '_>,
) -> Result<Option<OrderBefore>, NoMemory> {
    let unexplained = &subjects.unexplained;
    let first = first_event(viewed.calls);
    if !unexplained.before_shown || first >= unexplained.event {
        return Ok(None);
    }
    let before = viewed
        .records
        .partition_point(|record| record.call_at < first);
    let extent = OrderExtent {
        least: viewed.records.len() - before,
        most: usize::MAX,
    };
    order_before(alloc, subjects, search, viewed.id, extent)
}

// Adds the timeline of the document of this number, with these calls.
fn add_timeline_of<S: OrderSearch>(
    draft: &mut Draft<'_>,
    subjects: &Subjects<'_>,
    search: &S,
    named: &Named,
    view: &View<'_>,
    document: Document<'_, '_>,
) -> Result<(), NoMemory> {
    let Document { id, records } = document;
    let event = Some(subjects.unexplained.event);
    let calls = calls_in_view(draft, view, id, records, event)?;
    let viewed = Viewed {
        id,
        records,
        calls: calls.as_slice(),
    };
    let order = order_in_view(draft.alloc, subjects, search, viewed)?;
    add_viewed(draft, viewed, order, Some(named), event)
}

/// Adds the timeline of a document of a history for which no order was found.
pub fn add_failing_timeline<S: OrderSearch>(
    draft: &mut Draft<'_>,
    subjects: &Subjects<'_>,
    search: &S,
    named: &Named,
    view: Option<&View<'_>>,
) -> Result<(), NoMemory> {
    let Some(view) = view else {
        return Ok(());
    };
    draft.heading("A timeline of the document");
    let whole = subjects.unexplained.whole;
    match document_of(whole, view.document) {
        Some(doc) if doc < whole.docs() => {
            let records = whole.records(doc)?;
            let document = Document {
                id: whole.doc(doc),
                records: records.as_slice(),
            };
            add_timeline_of(draft, subjects, search, named, view, document)
        }
        _ => {
            add_unknown_document(draft, view);
            Ok(())
        }
    }
}
