use crate::bars::{GAP, width_of};
use crate::drawn::Drawn;
use crate::scale::LEFT;
use doc_register::DocState;
use std::alloc::Global;
use story_blocks::Word::{Number, State};
use story_blocks::{BOX_HEIGHT, Draft, VersionBox, after};
use story_reasons::{OrderBefore, OrderStep};
use version_pair::NoMemory;

// The boxes of versions, one after the other.
#[derive(Drop)]
struct Boxes {
    list: Vec<VersionBox>,
    // Where the next one is, if there is room for it.
    x: u64,
    y: u64,
    // Where the room ends.
    right: u64,
}

impl Boxes {
    // Adds the box of a state of the document, in a new row if there is no room. What made it is a template with the
    // number of the call.
    fn add(
        &mut self,
        draft: &mut Draft<'_>,
        state: DocState,
        maker: &str,
        no: u64,
    ) -> Result<(), NoMemory> {
        let version = draft.text("{}", &[State(state)]);
        let maker = draft.text(maker, &[Number(no)]);
        let words_width = width_of(version.as_str()).max(width_of(maker.as_str()));
        let width = after(words_width, 16);
        if self.x > LEFT && after(self.x, width) > self.right {
            self.x = LEFT;
            self.y = after(self.y, BOX_HEIGHT + 12);
        }
        self.list.push(VersionBox {
            x: self.x,
            y: self.y,
            width,
            version,
            maker,
        })?;
        self.x = after(self.x, after(width, GAP));
        Ok(())
    }

    // Adds the boxes of the last versions of the order, at most that many, after the state before them.
    fn add_order(
        &mut self,
        draft: &mut Draft<'_>,
        order: &OrderBefore,
        most: usize,
    ) -> Result<(), NoMemory> {
        let changes = changes_of(draft.alloc, order)?;
        let skipped = changes.len().saturating_sub(most);
        let start = match changes[..skipped].last() {
            Some(step) => step.state,
            None => order.start,
        };
        let when = match start {
            DocState::Never => "at first",
            _ => "before",
        };
        self.add(draft, start, when, 0)?;
        for step in changes[skipped..].iter() {
            let maker = if step.is_again {
                "by call {}, another attempt"
            } else {
                "by call {}"
            };
            self.add(draft, step.state, maker, step.record.no)?;
        }
        Ok(())
    }
}

// Returns the steps of an order at which the document changed.
fn changes_of(alloc: Global, order: &OrderBefore) -> Result<Vec<OrderStep>, NoMemory> {
    let mut changes = Vec::new(alloc);
    for step in order.steps.iter() {
        if step.is_change {
            changes.push(*step)?;
        }
    }
    Ok(changes)
}

/// Returns the boxes of the last versions of the order, below the lanes, after the box of the state before them.
pub fn boxes_of(
    draft: &mut Draft<'_>,
    drawn: &Drawn<'_, '_>,
    top: u64,
    right: u64,
) -> Result<Vec<VersionBox>, NoMemory> {
    let mut boxes = Boxes {
        list: Vec::new(draft.alloc),
        x: LEFT,
        y: top,
        right,
    };
    if let Some(order) = drawn.order {
        boxes.add_order(draft, order, drawn.versions)?;
    }
    Ok(boxes.list)
}
