use crate::refused::{add_refusal, line_shown};
use crate::timeline::add_explained_timeline;
use api_lines::RefusedLine;
use places::DocWitness;
use std::alloc::Global;
use story_blocks::Word::{Count, Id, Number, Phrase, Version};
use story_blocks::{Draft, EventLines, HistoryCounts, NOTATION, Story, View};
use story_drawings::MOST_DESCRIBED;
use story_reasons::Explained;
use story_words::add_coverage;
use version_pair::NoMemory;

// How many calls took effect in the order found though no reply says so.
#[derive(Clone, Copy)]
struct Effects {
    // Those of unknown outcome (indeterminate).
    calls: usize,
    // Writes that were performed for a second time, as the reading allows.
    again: usize,
}

// Returns how many calls took effect in the order found though no reply says so.
fn effects_of(explained: &Explained<'_>) -> Effects {
    let mut effects = Effects { calls: 0, again: 0 };
    for witness in explained.witnesses {
        let places = witness.places();
        for i in 0..places.len() {
            // A history has too few calls for the sums to reach the greatest number.
            if places[i].pair.is_none() {
                continue;
            } else if explained.is_again(&witness.call(i)) {
                effects.again = effects.again.saturating_add(1);
            } else {
                effects.calls = effects.calls.saturating_add(1);
            }
        }
    }
    effects
}

// Adds the calls of a document that took effect though no reply says so, as far as there is room. Returns how many
// there is room for after them.
fn add_completed(
    draft: &mut Draft<'_>,
    explained: &Explained<'_>,
    witness: &DocWitness,
    room: usize,
) -> usize {
    let mut room = room;
    let places = witness.places();
    for i in 0..places.len() {
        let pair = places[i].pair;
        let judged = witness.call(i);
        if room > 0 && pair.is_some() && !explained.is_again(&judged) {
            draft.item(
                "line {0.called}, call {0.no} of {1}: {0.asked} -> {0.heard}, took effect as {2}",
                &[
                    draft.call(&explained.in_text(&judged)),
                    Id(witness.id()),
                    Version(pair),
                ],
            );
            room -= 1;
        }
    }
    room
}

// Adds the calls of unknown outcome that took effect in the order found: the first of them.
fn add_effects(draft: &mut Draft<'_>, explained: &Explained<'_>, count: usize) {
    if count == 0 {
        return;
    }
    draft.heading("Calls of unknown outcome that took effect");
    draft.paragraph(NOTATION, &[]);
    let mut room = MOST_DESCRIBED;
    for witness in explained.witnesses {
        room = add_completed(draft, explained, witness, room);
    }
    draft.end_list(count, "And {} more.");
}

// Adds what the reading adds to what is said of a history that an order explains.
fn add_reading(draft: &mut Draft<'_>, explained: &Explained<'_>, effects: Effects) {
    if let Some(gets) = explained.gets {
        draft.paragraph(
            "Gets that were judged one by one, since any copy may answer a get: {}. Each shows nothing older than what was acknowledged before it was called, and nothing that nobody wrote.",
            &[Count(gets)],
        );
    }
    if effects.again > 0 {
        draft.paragraph(
            "Writes that the order has a second time, since a store may send a write again: {}.",
            &[Count(effects.again)],
        );
    }
}

/// Returns the explanation of a history that an order explains, with a timeline if one is asked for. Nothing is
/// promised of its sentences.
pub fn explained_story(
    alloc: Global,
    explained: &Explained<'_>,
    lines: &EventLines,
    view: Option<&View<'_>>,
) -> Result<Story, NoMemory> {
    let effects = effects_of(explained);
    let mut draft = Draft::new(alloc, lines);
    draft.paragraph(
        "Documents: {}. Calls: {}. Calls of unknown outcome that took effect in the order that was found: {}. Calls that have no place in it and so changed nothing: {}.",
        &[
            Count(explained.docs),
            Count(explained.calls),
            Count(effects.calls),
            Count(explained.left_out),
        ],
    );
    add_reading(&mut draft, explained, effects);
    add_explained_timeline(&mut draft, explained, view)?;
    add_effects(&mut draft, explained, effects.calls);
    add_coverage(&mut draft, explained)?;
    let title = draft.text(
        match explained.gets {
            None => "One order of the calls explains every reply.",
            Some(_) =>
                "One order of the calls explains the replies to the writes, and each get is explained by itself.",
        },
        &[],
    );
    let counts = HistoryCounts {
        events: lines.events(),
        calls: explained.calls,
        documents: explained.docs,
    };
    draft.finish(title, Some(counts))
}

/// Returns the explanation of a text that was refused. Nothing is promised of its sentences.
pub fn refused_story(alloc: Global, refused: &RefusedLine) -> Result<Story, NoMemory> {
    let lines = EventLines::new(alloc);
    let mut draft = Draft::new(alloc, &lines);
    let title = draft.text(
        "Line {} of the text is refused, so nothing was judged.",
        &[Number(refused.fault.line)],
    );
    add_refusal(&mut draft, refused);
    draft.heading("How the line begins");
    let shown = line_shown(alloc, &refused.line)?;
    draft.item("{}", &[Phrase(shown.as_str())]);
    draft.end_list(0, "");
    draft.finish(title, None)
}
