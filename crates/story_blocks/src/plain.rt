use crate::block::{Block, CallReported, CallRow, CallTable, Mark, PlaceReported, Story};
use crate::word::Word::{Line, Number, Phrase, Text};
use crate::word::add_sentences;
use std::alloc::Global;
use version_pair::NoMemory;

// Returns how a call stands out in plain text.
fn mark_sign(mark: Mark) -> &'static str {
    match mark {
        Mark::Plain => " ",
        Mark::Evidence => "*",
        Mark::Broken => "!",
    }
}

// Adds the line of a call.
fn add_call(text: &mut String, call: &CallReported) -> Result<(), NoMemory> {
    let sign = mark_sign(call.mark);
    let (client, open) = (call.client.as_str(), call.open_with.as_str());
    let (reply_words, reply) = match call.replied {
        Some(line) => ("line {}: ", Line(line)),
        None => ("{}", Text("")),
    };
    let templates = [
        "{} line {}, call {}",
        if client.is_empty() { "{}" } else { " by {}" },
        ": {} -> ",
        reply_words,
        "{}",
        if open.is_empty() {
            "\n"
        } else {
            " (open at the same time: {})\n"
        },
    ];
    let words = [
        Text(sign),
        Line(call.line),
        Number(call.no),
        Phrase(client),
        Phrase(call.asked.as_str()),
        reply,
        Phrase(call.answered.as_str()),
        Phrase(open),
    ];
    add_sentences(text, &templates, &words)
}

// Adds the lines of the calls.
fn add_calls(text: &mut String, table: &CallTable) -> Result<(), NoMemory> {
    let mut is_marked = false;
    for row in table.rows.iter() {
        match row {
            CallRow::Call(call) => {
                add_call(text, call)?;
                is_marked = is_marked || !matches!(call.mark, Mark::Plain);
            }
            CallRow::Note(note) => {
                let words = [Line(note.line), Phrase(note.text.as_str())];
                add_sentences(text, &["  line {}, note: {}\n"], &words)?;
            }
        }
    }
    if is_marked {
        text.push_str("! the reply that broke it; * a call that the evidence or a reason names\n")?;
    }
    Ok(())
}

// The greatest number of calls of an order that plain text shows: the last ones.
const MOST_PLACES: usize = 8;

// Adds the lines of the end of an order; the page has more.
fn add_places(text: &mut String, places: &[PlaceReported]) -> Result<(), NoMemory> {
    let on_page = places.len().saturating_sub(MOST_PLACES);
    if on_page > 0 {
        let words = [Number(on_page as u64)];
        add_sentences(
            text,
            &["Further calls of it, only on the page of --html: {}.\n"],
            &words,
        )?;
    }
    for place in places.iter().skip(on_page) {
        let words = [
            Number(place.no),
            Phrase(place.asked.as_str()),
            Phrase(place.after.as_str()),
        ];
        add_sentences(text, &["  call {}: {} -> {}\n"], &words)?;
    }
    Ok(())
}

// Adds the items.
fn add_items(text: &mut String, items: &[String]) -> Result<(), NoMemory> {
    for item in items {
        add_sentences(text, &["  {}\n"], &[Phrase(item.as_str())])?;
    }
    Ok(())
}

// Adds a block; plain text leaves out drawings and folds.
fn add_block(text: &mut String, block: &Block) -> Result<(), NoMemory> {
    match block {
        Block::Heading(heading) => add_sentences(text, &["\n{}:\n"], &[Text(heading)]),
        Block::Paragraph(words) => add_sentences(text, &["{}\n"], &[Phrase(words.as_str())]),
        Block::Items(items) => add_items(text, items),
        Block::Calls(table) => add_calls(text, table),
        Block::Order(places) => add_places(text, places),
        Block::Drawing(_) | Block::FoldStart(_) | Block::FoldEnd => Ok(()),
    }
}

/// Returns the explanation as plain text, which begins with an empty line.
pub fn plain_text(alloc: Global, story: &Story) -> Result<String, NoMemory> {
    let mut text = String::new(alloc);
    add_sentences(&mut text, &["\n{}\n"], &[Phrase(story.title.as_str())])?;
    if let Some(date) = story.head.span.and_then(|span| span.date()) {
        write!(
            text,
            "Times are in UTC, on {date} unless another date is given.\n"
        )?;
    }
    for block in story.blocks.iter() {
        add_block(&mut text, block)?;
    }
    Ok(text)
}
