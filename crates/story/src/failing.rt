use crate::shown_calls::ShownCalls;
use crate::timeline::add_failing_timeline;
use events::{Event, History};
use evidence::Certainty;
use std::alloc::Global;
use story_blocks::Word::{Id, Number, Text};
use story_blocks::{Draft, EventLines, HistoryCounts, Story, View};
use story_drawings::{Kept, MOST_DESCRIBED, Named};
use story_reasons::{
    Call, Diagnosis, OrderBefore, OrderExtent, OrderSearch, Subjects, call_of, diagnosis_of,
    order_before,
};
use story_words::{
    add_advice, add_damage, add_decision, add_headline, add_profile, add_why, certainty_words,
};
use version_pair::NoMemory;

// Adds the document of the offence, and the reply at which the search first fails.
fn add_offence(draft: &mut Draft<'_>, explained: &Subjects<'_>, call: &Call<'_>) {
    let unexplained = &explained.unexplained;
    draft.paragraph(
        "The document: {} on shard {}.",
        &[Id(call.id), Number(call.shard as u64)],
    );
    let before = if explained.account.is_alone(&call.record) {
        "This get is judged by itself: any copy may have answered it, but none that is in sync answers so."
    } else if unexplained.before_shown {
        "Up to the line before it the recording is explained; with this line it is not."
    } else {
        "The recording up to the line before it is not explained either."
    };
    draft.paragraph(
        "The reply that broke it: line {0}, the reply to call {1.no} ({1.asked}, called in line {1.called}): {1.heard}. {2}",
        &[
            draft.line(unexplained.event),
            draft.call(&call.record),
            Text(before),
        ],
    );
}

// Adds how much the answer says, and of which reply.
fn add_answer(draft: &mut Draft<'_>, explained: &Subjects<'_>) {
    let unexplained = &explained.unexplained;
    let certainty = unexplained.certainty;
    draft.paragraph(certainty_words(certainty), &[]);
    if let (Certainty::Undecided, Some(subject)) = (certainty, explained.list.first()) {
        add_decision(draft, unexplained, subject);
    }
    if let Some(call) = call_of(unexplained.history, unexplained.call) {
        add_offence(draft, explained, &call);
    }
}

// Returns an order of the calls of the first document before the broken reply, if one is found.
fn order_of<S: OrderSearch>(
    alloc: Global,
    explained: &Subjects<'_>,
    search: &S,
) -> Result<Option<OrderBefore>, NoMemory> {
    match explained.list.first() {
        Some(subject) if explained.unexplained.before_shown => {
            let extent = OrderExtent {
                least: MOST_DESCRIBED,
                most: MOST_DESCRIBED,
            };
            order_before(alloc, explained, search, subject.id, extent)
        }
        _ => Ok(None),
    }
}

// Returns how many events, calls and documents the history has.
fn counts_of(history: &History) -> HistoryCounts {
    let mut calls = 0usize;
    for place in 0..history.len() {
        if matches!(history.event(place), Event::Call { .. }) {
            // A history has too few events for the sum to reach the greatest number.
            calls = calls.saturating_add(1);
        }
    }
    HistoryCounts {
        events: history.len(),
        calls,
        documents: history.docs(),
    }
}

// Adds what was found, in words: the answer, why no order can have the replies, and how much is broken. Returns the
// title of the explanation.
fn add_findings<S: OrderSearch>(
    draft: &mut Draft<'_>,
    explained: &Subjects<'_>,
    found: Option<Diagnosis>,
    search: &S,
) -> Result<String, NoMemory> {
    let unexplained = &explained.unexplained;
    let title = add_headline(draft, explained, found);
    add_answer(draft, explained);
    add_why(draft, explained, found, search)?;
    add_damage(draft, explained, found)?;
    add_profile(draft, explained, search)?;
    Ok(title)
}

// Adds the calls of the documents.
fn add_calls<S: OrderSearch>(
    draft: &mut Draft<'_>,
    explained: &Subjects<'_>,
    named: &Named,
    search: &S,
) -> Result<(), NoMemory> {
    let unexplained = &explained.unexplained;
    let subjects = explained.list.as_slice();
    let order = order_of(draft.alloc, explained, search)?;
    let kept = Kept::of(draft.alloc, draft.lines, subjects, named)?;
    let shown = ShownCalls {
        subjects,
        kept: &kept,
        named,
        order: &order,
        event: unexplained.event,
    };
    shown.add(draft)
}

/// Returns the explanation of a history for which no order was found, by its documents. How much the answer says
/// is a part of what is explained; the explanation has one sentence for each value, which is tested, not proved. The
/// search is used for an order of the calls before the reply that broke it. A timeline is added if one is asked for.
pub fn failing_story<S: OrderSearch>(
    alloc: Global,
    explained: &Subjects<'_>,
    lines: &EventLines,
    search: &S,
    view: Option<&View<'_>>,
) -> Result<Story, NoMemory> {
    let unexplained = &explained.unexplained;
    let subjects = explained.list.as_slice();
    let found = diagnosis_of(unexplained, subjects);
    let named = Named::of(alloc, unexplained, subjects, found)?;
    let mut draft = Draft::new(alloc, lines);
    let title = add_findings(&mut draft, explained, found, search)?;
    add_failing_timeline(&mut draft, explained, search, &named, view)?;
    add_advice(&mut draft, explained, found)?;
    add_calls(&mut draft, explained, &named, search)?;
    draft.finish(title, Some(counts_of(unexplained.whole)))
}
