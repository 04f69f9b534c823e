use crate::block::{Block, Story};
use crate::event_lines::EventLines;
use crate::head::{Head, HistoryCounts};
use crate::word::Word::{self, Count, Line};
use crate::word::{LinedCall, add_sentences};
use events::Rec;
use std::alloc::{AllocError, Global};
use std::mem;
use version_pair::NoMemory;

/// An explanation that is being written. Whether memory was enough for all that was added is known at its end.
#[derive(Drop)]
pub struct Draft<'l> {
    pub alloc: Global,
    /// The lines of the events that it names.
    pub lines: &'l EventLines,
    pub blocks: Vec<Block>,
    // The paragraph and the list that are being written.
    words: String,
    items: Vec<String>,
    // Whether memory was not enough for something.
    is_cut: bool,
}

impl<'l> Draft<'l> {
    /// Returns an empty one. It allocates nothing.
    pub fn new(alloc: Global, lines: &'l EventLines) -> Draft<'l> {
        Draft {
            alloc,
            lines,
            blocks: Vec::new(alloc),
            words: String::new(alloc),
            items: Vec::new(alloc),
            is_cut: false,
        }
    }

    /// Returns the line of an event.
    pub fn line(&self, place: usize) -> Word<'static> {
        Line(self.lines.line(place))
    }

    /// Returns a call, of which a place of a sentence names a part.
    pub fn call(&self, record: &Rec) -> Word<'static> {
        Word::Call(LinedCall {
            record: *record,
            called: self.lines.line(record.call_at),
            replied: self.lines.reply(record),
            lost: self.lines.lost(record),
        })
    }

    /// Adds sentences to the paragraph that is being written.
    pub fn say(&mut self, templates: &[&str], words: &[Word<'_>]) {
        if add_sentences(&mut self.words, templates, words).is_err() {
            self.is_cut = true;
        }
    }

    /// Returns the paragraph that is being written, which ends.
    pub fn said(&mut self) -> String {
        mem::replace(&mut self.words, String::new(self.alloc))
    }

    /// Returns a sentence as a text of its own.
    pub fn text(&mut self, template: &str, words: &[Word<'_>]) -> String {
        self.say(&[template], words);
        self.said()
    }

    /// Ends the paragraph that is being written.
    pub fn end_paragraph(&mut self) {
        let words = self.said();
        self.add(Block::Paragraph(words));
    }

    /// Ends the paragraph that is being written, which is an item of the list.
    pub fn end_item(&mut self) {
        let words = self.said();
        if self.items.push(words).is_err() {
            self.is_cut = true;
        }
    }

    /// Ends the list, whose items are the first of that many; how many more there are is said in a paragraph.
    pub fn end_list(&mut self, count: usize, more_words: &str) {
        let shown = self.items.len();
        let items = mem::replace(&mut self.items, Vec::new(self.alloc));
        self.add(Block::Items(items));
        if count > shown {
            self.paragraph(more_words, &[Count(count - shown)]);
        }
    }

    /// Adds a block.
    pub fn add(&mut self, block: Block) {
        if self.blocks.push(block).is_err() {
            self.is_cut = true;
        }
    }

    /// Adds a heading.
    pub fn heading(&mut self, heading: &'static str) {
        self.add(Block::Heading(heading));
    }

    /// Adds a sentence as a paragraph.
    pub fn paragraph(&mut self, template: &str, words: &[Word<'_>]) {
        self.say(&[template], words);
        self.end_paragraph();
    }

    /// Adds a sentence as an item of the list.
    pub fn item(&mut self, template: &str, words: &[Word<'_>]) {
        self.say(&[template], words);
        self.end_item();
    }

    /// Returns the explanation with this title, of a history with these counts; an error if memory was not enough for
    /// a part of it.
    pub fn finish(self, title: String, counts: Option<HistoryCounts>) -> Result<Story, NoMemory> {
        if self.is_cut {
            return Err(AllocError);
        }
        let head = Head {
            counts,
            span: self.lines.span(),
        };
        Ok(Story {
            title,
            head,
            blocks: self.blocks,
        })
    }
}
