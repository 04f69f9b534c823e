use std::alloc::Global;
use story_blocks::Word::{Count, Id};
use story_blocks::{Block, Draft, NOTATION};
use story_drawings::{
    DrawingKind, Drawn, Kept, Listing, MOST_DESCRIBED, MOST_DRAWN, Named, drawing_of,
    places_reported, rest_of,
};
use story_reasons::{Call, OrderBefore, Subject, in_order};
use version_pair::NoMemory;

// The greatest number of calls that are shown and drawn first, and of versions below them.
const MOST_FIRST: usize = 12;

/// The calls that an explanation shows, and how it shows them.
#[derive(Clone, Copy)]
pub struct ShownCalls<'a, 'h> {
    /// The documents of the calls.
    pub subjects: &'a [Subject<'h>],
    pub kept: &'a Kept<'h>,
    pub named: &'a Named,
    pub order: &'a Option<OrderBefore>,
    /// The position of the broken reply.
    pub event: usize,
}

// Returns the calls of both lists, in the order of their events.
fn joined<'h>(
    alloc: Global,
    first: &[Call<'h>],
    rest: &[Call<'h>],
) -> Result<Vec<Call<'h>>, NoMemory> {
    let mut all = Vec::from_slice(alloc, first)?;
    all.extend_from_slice(rest)?;
    Ok(in_order(all))
}

impl<'h> ShownCalls<'_, 'h> {
    // Adds a drawing of the calls, with at most that many versions.
    fn add_drawing(
        &self,
        draft: &mut Draft<'_>,
        calls: &[Call<'h>],
        versions: usize,
    ) -> Result<(), NoMemory> {
        let drawn = Drawn {
            kind: DrawingKind::Evidence,
            calls,
            named: Some(self.named),
            order: self.order.as_ref(),
            versions,
            event: Some(self.event),
            several: self.subjects.len() > 1,
        };
        let drawing = drawing_of(draft, &drawn)?;
        draft.add(Block::Drawing(drawing));
        Ok(())
    }

    // Adds the table of some of the calls that are shown.
    fn add_table(
        &self,
        draft: &mut Draft<'_>,
        calls: &[Call<'h>],
        reported: &[Call<'h>],
    ) -> Result<(), NoMemory> {
        let listing = Listing {
            reported,
            subjects: self.subjects,
            named: self.named,
        };
        let table = listing.table(draft, calls)?;
        draft.add(Block::Calls(table));
        Ok(())
    }

    // Adds the rest of the calls, and a drawing of all.
    fn add_rest(
        &self,
        draft: &mut Draft<'_>,
        rest: &[Call<'h>],
        reported: &[Call<'h>],
    ) -> Result<(), NoMemory> {
        if rest.is_empty() {
            return Ok(());
        }
        draft.heading("The other calls, in the order of their events");
        self.add_table(draft, rest, reported)?;
        if self.kept.calls_count > reported.len() {
            draft.paragraph(
                "Earlier calls left out: {}.",
                &[Count(self.kept.calls_count - reported.len())],
            );
        }
        let drawn = self
            .named
            .chosen(draft.alloc, &self.kept.calls, MOST_DRAWN)?;
        self.add_drawing(draft, &drawn, MOST_DESCRIBED)
    }

    // Adds the order before the broken reply.
    fn add_order(&self, draft: &mut Draft<'_>) -> Result<(), NoMemory> {
        let Some(order) = self.order else {
            return Ok(());
        };
        if order.steps.is_empty() {
            return Ok(());
        }
        draft.heading("An order of the document's calls before that reply");
        if order.left_out > 0 {
            draft.paragraph(
                "Earlier calls of this order, not shown: {}.",
                &[Count(order.left_out)],
            );
        }
        let places = places_reported(draft, order)?;
        draft.add(Block::Order(places));
        Ok(())
    }

    // Adds the writes that were never answered.
    fn add_unanswered(&self, draft: &mut Draft<'_>) {
        if self.kept.unanswered.is_empty() {
            return;
        }
        draft.heading(if self.kept.has_replies {
            "Writes of unknown outcome, which may or may not have happened"
        } else {
            "Writes without a reply, which may or may not have happened"
        });
        for call in self.kept.unanswered.iter() {
            let template = match draft.lines.lost(&call.record) {
                Some(_) =>
                    "line {0.called}, call {0.no} of {1}: {0.asked} -> line {0.replied}: {0.reply}",
                None => "line {0.called}, call {0.no} of {1}: {0.asked}",
            };
            draft.item(template, &[draft.call(&call.record), Id(call.id)]);
        }
        draft.end_list(self.kept.unanswered_count, "Left out: {}.");
    }

    // Adds what is folded away, if there is something: the other calls, an order, and the writes without a
    // reply.
    fn add_folded(
        &self,
        draft: &mut Draft<'_>,
        rest: &[Call<'h>],
        reported: &[Call<'h>],
    ) -> Result<(), NoMemory> {
        draft.add(Block::FoldStart(
            "More: the other calls, an order of the calls before that reply, and the writes without a reply",
        ));
        let empty = draft.blocks.len();
        self.add_rest(draft, rest, reported)?;
        self.add_order(draft)?;
        self.add_unanswered(draft);
        if draft.blocks.len() > empty {
            draft.add(Block::FoldEnd);
        } else {
            let _ = draft.blocks.pop();
        }
        Ok(())
    }

    /// Adds the calls: first those that matter most, listed and drawn, then the rest, folded away.
    pub fn add(&self, draft: &mut Draft<'_>) -> Result<(), NoMemory> {
        let calls = self.kept.calls.as_slice();
        let lines = draft.lines;
        let first = self.named.first(draft.alloc, lines, calls, MOST_FIRST)?;
        // At least 28, since the first are no more than 12.
        let most = MOST_DESCRIBED.saturating_sub(first.len());
        let rest = rest_of(draft.alloc, calls, &first, most)?;
        let reported = joined(draft.alloc, &first, &rest)?;
        draft.heading("The calls that matter, in the order of their events");
        draft.paragraph(NOTATION, &[]);
        self.add_table(draft, &first, &reported)?;
        self.add_drawing(draft, &first, MOST_FIRST)?;
        self.add_folded(draft, &rest, &reported)
    }
}
