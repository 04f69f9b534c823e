use story_blocks::Word::{Asked, State};
use story_blocks::{Draft, PlaceReported};
use story_reasons::OrderBefore;
use version_pair::NoMemory;

/// Returns the order in words.
pub fn places_reported(
    draft: &mut Draft<'_>,
    order: &OrderBefore,
) -> Result<Vec<PlaceReported>, NoMemory> {
    let mut reported = Vec::new(draft.alloc);
    for step in order.steps.iter() {
        let after = if step.is_change { "{}" } else { "as before" };
        let asked = if step.is_again {
            "{}, another attempt"
        } else {
            "{}"
        };
        reported.push(PlaceReported {
            no: step.record.no,
            asked: draft.text(asked, &[Asked(step.record.op)]),
            after: draft.text(after, &[State(step.state)]),
        })?;
    }
    Ok(reported)
}
