ghost use Rattle.std.specs.Prelude.{IfOk};
ghost use Rattle.page.specs.Pages.{IsPage};

use crate::block::{Block, Story};
use crate::page_facts::{About, facts_of};
use crate::pieces::Part::{Fixed, Text, Words};
use crate::pieces::Pieces;
use page::{Markup, page_bytes};
use std::alloc::{AllocError, Global};
use version_pair::NoMemory;

impl Pieces {
    // Adds a list.
    fn items(&mut self, items: &[String]) {
        self.fixed(Markup::ListStart);
        for item in items {
            self.within(Markup::ItemStart, item.as_str(), Markup::ItemEnd);
        }
        self.fixed(Markup::ListEnd);
    }

    // Adds a block of an explanation.
    fn block(&mut self, block: &Block) {
        match block {
            Block::Heading(heading) => {
                self.within(Markup::HeadingStart, heading, Markup::HeadingEnd)
            }
            Block::Paragraph(words) => {
                self.within(Markup::ParagraphStart, words.as_str(), Markup::ParagraphEnd)
            }
            Block::Items(items) => self.items(items),
            Block::Calls(table) => self.calls(table),
            Block::Order(places) => self.order(places),
            Block::Drawing(drawing) => self.drawing(drawing),
            Block::FoldStart(name) => self.within(Markup::FoldStart, name, Markup::FoldOpen),
            Block::FoldEnd => self.fixed(Markup::FoldEnd),
        }
    }

    // Adds the head of a page: its title, the line of the check, and what it is about.
    fn page_head(&mut self, line: &str, story: &Story, about: &About<'_>) -> Result<(), NoMemory> {
        self.add(&[
            Fixed(Markup::PageStart),
            Fixed(Markup::Style),
            Fixed(Markup::BodyStart),
            Fixed(Markup::TitleStart),
            Text(story.title.as_str()),
            Fixed(Markup::TitleEnd),
        ]);
        self.add(&[
            Fixed(Markup::LineStart),
            Text(line.trim_end()),
            Fixed(Markup::LineEnd),
            Fixed(Markup::FactsStart),
        ]);
        for fact in facts_of(self.alloc, &story.head, about)?.iter() {
            self.add(&[
                Fixed(Markup::FactStart),
                Words(fact.name),
                Fixed(Markup::FactBreak),
                Text(fact.value.as_str()),
                Fixed(Markup::FactEnd),
            ]);
        }
        self.fixed(Markup::FactsEnd);
        Ok(())
    }
}

/// Returns the page of an explanation, with the line of the check and what the page is about at its head.
pub fn page_of(
    alloc: Global,
    line: &str,
    story: &Story,
    about: &About<'_>,
) -> Result<Vec<u8>, NoMemory>
    // The bytes are those of a page: pieces of markup, numbers, and escaped texts.
    ensures { IfOk result (λ page. IsPage page.items) }
{
    let mut pieces = Pieces {
        alloc,
        list: Vec::new(alloc),
        is_cut: false,
    };
    pieces.page_head(line, story, about)?;
    for block in story.blocks.iter() {
        pieces.block(block);
    }
    pieces.fixed(Markup::PageEnd);
    if pieces.is_cut {
        return Err(AllocError);
    }
    let page = page_bytes(alloc, &pieces.list)?;
    Ok(page)
}
