use crate::call_table::{client_of, have_clients};
use crate::drawn::{DrawingKind, Drawn};
use crate::lanes::Lanes;
use crate::scale::{LEFT, Scale};
use story_blocks::Word::{Id, Number, Shown};
use story_blocks::{Bar, Draft, LaneName, Mark, TOP, after};
use story_reasons::Call;
use version_pair::NoMemory;

// The width of ten characters, and the greatest number of characters that are measured: far more than fit.
const TEN_CHARACTERS: u64 = 74;

const MOST_MEASURED: u64 = 10_000;

/// The free space between two things in a row.
pub const GAP: u64 = 24;

// The same between bars that have no more words than numbers.
const SMALL_GAP: u64 = 6;

// The room for the name of a client above its lanes, and how far the name is from them.
const NAME_HEIGHT: u64 = 22;

const NAME_ABOVE: u64 = 8;

// The greatest number of clients that have lanes of their own.
const MOST_CLIENTS: usize = 24;

/// The bars of a drawing.
#[derive(Drop)]
pub struct Bars {
    pub list: Vec<Bar>,
    /// Who made the calls of the lanes below.
    pub names: Vec<LaneName>,
    lanes: Lanes,
}

/// Returns the width of the words.
pub fn width_of(words: &str) -> u64 {
    (words.len() as u64)
        .min(MOST_MEASURED)
        .saturating_mul(TEN_CHARACTERS)
        / 10
}

// Returns what was asked and answered, in short.
fn bar_words(draft: &mut Draft<'_>, drawn: &Drawn<'_, '_>, call: &Call<'_>) -> String {
    let template = match (drawn.has_words(), drawn.several) {
        (false, _) => "{0.no}",
        (true, false) => "{0.no} {0.asked}: {0.reply}",
        (true, true) => "{0.no} {1} {0.asked}: {0.reply}",
    };
    draft.text(template, &[draft.call(&call.record), Id(call.id)])
}

// Says the number of a call, and who made it.
fn say_head(draft: &mut Draft<'_>, call: &Call<'_>) {
    let client = client_of(draft, call);
    let template = if client.is_empty() {
        "call {}: "
    } else {
        "call {} by {}: "
    };
    draft.say(&[template], &[Number(call.record.no), Shown(client)]);
}

// Returns what is said of a call if it is pointed at: its number and who made it, what was asked and answered, and its
// lines.
fn tip_words(draft: &mut Draft<'_>, drawn: &Drawn<'_, '_>, call: &Call<'_>) -> String {
    let asked = if drawn.several {
        "{1} {0.asked} -> {0.heard}"
    } else {
        "{0.asked} -> {0.heard}"
    };
    let lines = match draft.lines.over_at(&call.record) {
        Some(_) => " (line {0.called}, reply on line {0.replied})",
        None => " (line {0.called})",
    };
    say_head(draft, call);
    draft.say(&[asked, lines], &[draft.call(&call.record), Id(call.id)]);
    draft.said()
}

// Returns where the call takes effect, if a timeline shows it.
fn effect_of(drawn: &Drawn<'_, '_>, call: &Call<'_>, scale: &Scale) -> Option<u64> {
    let (DrawingKind::Timeline, Some(order)) = (drawn.kind, drawn.order) else {
        return None;
    };
    for step in order.steps.iter() {
        if step.record.no == call.record.no && !step.is_again {
            return Some(scale.x(step.point));
        }
    }
    None
}

// Returns who made the calls, each name once, if lanes are kept for each of them; else nobody.
fn clients_of<'l>(draft: &Draft<'l>, drawn: &Drawn<'_, '_>) -> Result<Vec<&'l str>, NoMemory> {
    let mut names = Vec::new(draft.alloc);
    if matches!(drawn.kind, DrawingKind::Evidence) || !have_clients(draft, drawn.calls) {
        return Ok(names);
    }
    for call in drawn.calls {
        let name = client_of(draft, call);
        if !names.iter().any(|known| *known == name) {
            names.push(name)?;
        }
    }
    if names.len() > MOST_CLIENTS {
        names.clear();
    }
    Ok(names)
}

impl Bars {
    // Adds the bar of a call, in the first lane that has room for it and its words.
    fn add(
        &mut self,
        draft: &mut Draft<'_>,
        drawn: &Drawn<'_, '_>,
        scale: &Scale,
        call: &Call<'_>,
    ) -> Result<(), NoMemory> {
        let x = scale.x(call.record.call_at);
        let over_at = draft.lines.over_at(&call.record);
        let end = match over_at {
            Some(place) => scale.x(place),
            None => scale.right,
        };
        let words = bar_words(draft, drawn, call);
        let words_width = width_of(words.as_str());
        // Words that are too wide for the drawing begin at its left.
        let words_x = x.min(scale.width().saturating_sub(words_width)).max(LEFT);
        let gap = if drawn.has_words() { GAP } else { SMALL_GAP };
        let taken = after(end.max(after(words_x, words_width)), gap);
        self.list.push(Bar {
            mark: match drawn.named {
                Some(named) => named.mark(call.record.no),
                None => Mark::Plain,
            },
            is_open: over_at.is_none(),
            x,
            y: self.lanes.take(words_x.min(x), taken)?,
            // A reply is to the right of its call, so this is never below zero.
            width: end.saturating_sub(x).max(4),
            effect: effect_of(drawn, call, scale),
            words_x,
            words,
            tip: tip_words(draft, drawn, call),
        })?;
        Ok(())
    }

    // Adds the name of a client, whose lanes are to be below it.
    fn add_name(&mut self, draft: &mut Draft<'_>, name: &str) -> Result<(), NoMemory> {
        self.lanes.part(NAME_HEIGHT);
        let shown = if name.is_empty() { "no client" } else { name };
        self.names.push(LaneName {
            // Lanes end below the room for a name, so this is never below zero.
            y: self.lanes.end.saturating_sub(NAME_ABOVE),
            name: draft.text("{}", &[Shown(shown)]),
        })?;
        Ok(())
    }

    /// Returns where the lanes end.
    pub fn end(&self) -> u64 {
        self.lanes.end
    }
}

/// Returns the bars of the calls. Those of a timeline are in lanes by client, if lines have one.
pub fn bars_of(
    draft: &mut Draft<'_>,
    drawn: &Drawn<'_, '_>,
    scale: &Scale,
) -> Result<Bars, NoMemory> {
    let mut bars = Bars {
        list: Vec::new(draft.alloc),
        names: Vec::new(draft.alloc),
        lanes: Lanes::new(draft.alloc, TOP),
    };
    let clients = clients_of(draft, drawn)?;
    if clients.is_empty() {
        for call in drawn.calls {
            bars.add(draft, drawn, scale, call)?;
        }
    }
    for client in clients.iter() {
        bars.add_name(draft, client)?;
        for call in drawn.calls {
            if client_of(draft, call) == *client {
                bars.add(draft, drawn, scale, call)?;
            }
        }
    }
    Ok(bars)
}
