use crate::clock::time_of_day;
use crate::head::{Head, HistoryCounts, Span};
use crate::view::View;
use crate::word::Word::{Count, Number, Shown};
use crate::word::{Word, add_sentences};
use evidence::RulingOut;
use readings::{ConflictReading, Failed, Gets, Reading, Writes};
use std::alloc::Global;
use version_pair::NoMemory;

// The program that explains.
const PROGRAM: &str = "casbench 0.1.0";

/// What a page says of the check beside its story.
#[derive(Clone, Copy)]
pub struct About<'a> {
    /// The path of the text's file, whose last part is shown; `None` if it is standard input.
    pub file: Option<&'a str>,
    /// How the history was read.
    pub reading: Reading,
    /// Whether documents were looked for that are ruled out.
    pub ruling_out: RulingOut,
    /// How many workers searched.
    pub workers: usize,
    /// The document that is drawn as a timeline, if one was asked for.
    pub view: Option<View<'a>>,
}

/// What a page says at its top: a name and a value.
#[derive(Drop)]
pub struct Fact {
    pub name: &'static str,
    pub value: String,
}

// The facts that are collected.
#[derive(Drop)]
struct Facts {
    alloc: Global,
    list: Vec<Fact>,
}

impl Facts {
    // Adds a fact, its value as templates with words.
    fn add(
        &mut self,
        name: &'static str,
        templates: &[&str],
        words: &[Word<'_>],
    ) -> Result<(), NoMemory> {
        let mut value = String::new(self.alloc);
        add_sentences(&mut value, templates, words)?;
        self.list.push(Fact { name, value })?;
        Ok(())
    }

    // Adds when the first line was written, and the last one: their date once, if it is the same.
    fn add_span(&mut self, span: Span) -> Result<(), NoMemory> {
        let Span { first, last } = span;
        let value = match span.date() {
            Some(date) => {
                let from = time_of_day(first);
                let to = time_of_day(last);
                format!(in self.alloc; "{date}, {from:.3} to {to:.3} (UTC)")?
            }
            None => format!(in self.alloc; "{first:.3} to {last:.3}")?,
        };
        let name = "written";
        self.list.push(Fact { name, value })?;
        Ok(())
    }

    // Adds the counts of the history.
    fn add_counts(&mut self, counts: HistoryCounts) -> Result<(), NoMemory> {
        self.add(
            "history",
            &["events: {}; calls: {}; documents: {}"],
            &[
                Count(counts.events),
                Count(counts.calls),
                Count(counts.documents),
            ],
        )
    }

    // Adds the options.
    fn add_options(&mut self, about: &About<'_>) -> Result<(), NoMemory> {
        let [gets, conflicts, writes, failed] = reading_options(about.reading);
        let ruling = match about.ruling_out {
            RulingOut::On => "--rule-out ",
            RulingOut::Off => "",
        };
        let Some(view) = &about.view else {
            return self.add(
                "options",
                &[gets, conflicts, writes, failed, ruling, "--workers {}"],
                &[Count(about.workers)],
            );
        };
        let lines = if view.is_whole() {
            ""
        } else {
            " --lines {}-{}"
        };
        self.add(
            "options",
            &[
                gets,
                conflicts,
                writes,
                failed,
                ruling,
                "--workers {} --document \"{}\"",
                lines,
            ],
            &[
                Count(about.workers),
                Shown(view.document),
                Number(view.first),
                Number(view.last),
            ],
        )
    }
}

// Returns the options of a reading. Of conflicts they say also that they are read strictly.
fn reading_options(reading: Reading) -> [&'static str; 4] {
    [
        match reading.gets {
            Gets::Last => "",
            Gets::Any => "--gets any ",
        },
        match reading.conflicts {
            ConflictReading::Plain => "--conflicts plain ",
            ConflictReading::Maybe => "--conflicts maybe ",
            ConflictReading::Unknown => "--conflicts unknown ",
        },
        match reading.writes {
            Writes::Once => "",
            Writes::Repeated => "--writes repeated ",
        },
        match reading.failed {
            Failed::Lost => "",
            Failed::Trusted => "--failed trusted ",
        },
    ]
}

// Returns the name of the file, without the folders before it.
fn name_of(path: &str) -> &str {
    match path.rsplit_once("/") {
        Some((_, name)) => name,
        None => path,
    }
}

/// Returns what a page says at its top.
pub fn facts_of(alloc: Global, head: &Head, about: &About<'_>) -> Result<Vec<Fact>, NoMemory> {
    let mut facts = Facts {
        alloc,
        list: Vec::new(alloc),
    };
    match about.file {
        Some(path) => facts.add("file", &["{}"], &[Shown(name_of(path))])?,
        None => facts.add("file", &["standard input"], &[])?,
    }
    if let Some(span) = head.span {
        facts.add_span(span)?;
    }
    if let Some(counts) = head.counts {
        facts.add_counts(counts)?;
    }
    facts.add_options(about)?;
    facts.add("program", &[PROGRAM], &[])?;
    Ok(facts.list)
}
