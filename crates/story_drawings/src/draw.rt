use crate::bars::bars_of;
use crate::drawn::Drawn;
use crate::scale::Scale;
use crate::version_boxes::boxes_of;
use story_blocks::Word::Shown;
use story_blocks::{BOX_HEIGHT, Draft, Drawing, EventMark, after};
use version_pair::NoMemory;

// The free space between the lanes and what is below them.
const BELOW_LANES: u64 = 48;

// The greatest number of notes that are drawn.
const MOST_NOTES: usize = 40;

// Returns the marks of the notes between the first and the last event that is drawn.
fn notes_of(draft: &mut Draft<'_>, scale: &Scale) -> Result<Vec<EventMark>, NoMemory> {
    let mut marks = Vec::new(draft.alloc);
    let (Some(first), Some(last)) = (scale.first(), scale.last()) else {
        return Ok(marks);
    };
    let lines = draft.lines;
    let notes = lines.notes(first, last.saturating_add(1));
    for note in notes.iter().take(MOST_NOTES) {
        marks.push(EventMark {
            x: scale.x(note.place),
            line: lines.number(note.place),
            note: draft.text("{}", &[Shown(note.text.as_str())]),
        })?;
    }
    Ok(marks)
}

// Returns the mark of the broken reply, if it is between the first and the last event that is drawn.
fn here_of(draft: &Draft<'_>, scale: &Scale, event: Option<usize>) -> Option<EventMark> {
    let event = event?;
    if event < scale.first()? || scale.last()? < event {
        return None;
    }
    Some(EventMark {
        x: scale.x(event),
        line: draft.lines.number(event),
        note: String::new(draft.alloc),
    })
}

/// Returns the drawing.
pub fn drawing_of(draft: &mut Draft<'_>, drawn: &Drawn<'_, '_>) -> Result<Drawing, NoMemory> {
    let scale = Scale::of(draft, drawn.calls, drawn.least_step())?;
    let bars = bars_of(draft, drawn, &scale)?;
    let lanes_end = bars.end();
    let boxes = boxes_of(draft, drawn, after(lanes_end, BELOW_LANES), scale.right)?;
    let height = match boxes.last() {
        Some(last) => after(last.y, BOX_HEIGHT + 4),
        None => lanes_end,
    };
    Ok(Drawing {
        width: scale.width(),
        height,
        first_line: draft.lines.number(scale.first().unwrap_or(0)),
        here: here_of(draft, &scale, drawn.event),
        notes: notes_of(draft, &scale)?,
        lanes_end,
        names: bars.names,
        bars: bars.list,
        boxes,
        boxes_title: drawn.boxes_title(),
        caption: drawn.caption(),
    })
}
