use crate::named::Named;
use std::alloc::Global;
use story_blocks::{EventLines, LostEnding};
use story_reasons::{Call, Subject, in_order};
use version_pair::NoMemory;

/// The greatest number of calls that are drawn.
pub const MOST_DRAWN: usize = 200;

/// The greatest number of calls that are shown one by one.
pub const MOST_DESCRIBED: usize = 40;

/// What is kept of the calls of some documents.
#[derive(Drop)]
pub struct Kept<'h> {
    /// The number of calls.
    pub calls_count: usize,
    /// The calls that matter and, of each document, the last ones of the others: enough of them for a
    /// drawing.
    pub calls: Vec<Call<'h>>,
    /// The number of writes without a reply.
    pub unanswered_count: usize,
    /// Some of them, the last ones of each document first.
    pub unanswered: Vec<Call<'h>>,
    /// Whether some of them were answered all the same, by a reply that doesn't say whether they were performed.
    pub has_replies: bool,
}

// Whether the call is a write that may have been performed, though no reply says so.
fn may_have_happened(lines: &EventLines, call: &Call<'_>) -> bool {
    let is_void = match lines.lost(&call.record) {
        Some(lost) => lost.ending == LostEnding::Void,
        None => false,
    };
    call.may_have_happened() && !is_void
}

impl<'h> Kept<'h> {
    /// Returns what is kept of the calls of these documents, in the order in which they were made.
    pub fn of(
        alloc: Global,
        lines: &EventLines,
        subjects: &[Subject<'h>],
        named: &Named,
    ) -> Result<Kept<'h>, NoMemory> {
        let mut kept = Kept {
            calls_count: 0,
            calls: Vec::new(alloc),
            unanswered_count: 0,
            unanswered: Vec::new(alloc),
            has_replies: false,
        };
        for subject in subjects {
            kept.count(lines, named, subject)?;
            kept.keep(named, subject, true)?;
            kept.keep(named, subject, false)?;
        }
        let Kept {
            calls_count,
            calls,
            unanswered_count,
            unanswered,
            has_replies,
        } = kept;
        Ok(Kept {
            calls_count,
            calls: in_order(calls),
            unanswered_count,
            unanswered: in_order(unanswered),
            has_replies,
        })
    }

    // Keeps the calls of a document that matter, or the others: the last ones up to the last event that matters.
    fn keep(
        &mut self,
        named: &Named,
        subject: &Subject<'h>,
        are_mattering: bool,
    ) -> Result<(), NoMemory> {
        let mut kept = 0;
        for record in subject.all().iter().rev() {
            let call = subject.call(record);
            if kept < MOST_DRAWN
                && record.call_at <= named.last
                && named.matters(&call) == are_mattering
            {
                kept += 1;
                self.calls.push(call)?;
            }
        }
        Ok(())
    }

    // Counts the calls of a document, up to the last event that matters, and keeps those that are writes without a
    // reply if there is room.
    fn count(
        &mut self,
        lines: &EventLines,
        named: &Named,
        subject: &Subject<'h>,
    ) -> Result<(), NoMemory> {
        for record in subject.all().iter().rev() {
            if record.call_at <= named.last {
                let call = subject.call(record);
                // A history has too few calls for these to reach the greatest number.
                self.calls_count = self.calls_count.saturating_add(1);
                if may_have_happened(lines, &call) {
                    self.has_replies = self.has_replies || lines.over_at(record).is_some();
                    self.unanswered_count = self.unanswered_count.saturating_add(1);
                    if self.unanswered.len() < MOST_DESCRIBED {
                        self.unanswered.push(call)?;
                    }
                }
            }
        }
        Ok(())
    }
}
