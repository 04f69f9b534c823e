ghost use Rattle.std.specs.Prelude.{◌≡◌, option_map};
ghost use Rattle.clap.specs.Words.{found_of, rows_of};
ghost use Rattle.command_line.specs.Asked.{all_lines, page_asked, page_by, page_of, pages_of, range_named};

use crate::arguments::{DOCUMENT, HTML, LINES};
use crate::given::text_given;
use crate::run_request::number_given;
use clap::ArgMatches;

/// Lines of a text, both included.
#[derive(Clone, Copy, Debug, PartialEq, Eq)]
pub struct Lines {
    /// The first one, from 1.
    pub first: u64,
    /// The last one.
    pub last: u64,
}

/// A document that is drawn.
#[derive(Clone, Copy, Debug, PartialEq, Eq)]
pub struct Drawn<'a> {
    /// Its id.
    pub document: &'a str,
    /// The lines on which the calls are that are drawn.
    pub lines: Lines,
}

/// The page that an explanation is written to.
#[derive(Clone, Copy, Debug, PartialEq, Eq)]
pub struct PageRequest<'a> {
    /// The file.
    pub path: &'a str,
    /// The document that is drawn on it, if one is asked for.
    pub drawn: Option<Drawn<'a>>,
}

// Returns the lines of a text A-B.
fn lines_named(text: &str) -> Option<Lines>
    ensures { option_map (λ lines. (lines.first, lines.last)) result ≡ range_named text.now }
{
    let (first, last) = text.split_once('-')?;
    let first = number_given(Some(first))?;
    let last = number_given(Some(last))?;
    if first <= last {
        Some(Lines { first, last })
    } else {
        None
    }
}

// Returns all lines.
fn all_lines() -> Lines
    ensures { (result.first, result.last) ≡ all_lines }
{
    Lines {
        first: 1,
        last: u64::MAX,
    }
}

// Returns the page at the path, on which a document is drawn: some of its lines if they are named, else all.
fn drawn_page<'a>(path: &'a str, document: &'a str, lines: Lines) -> PageRequest<'a>
    ensures { page_asked result ≡ page_by path.now document.now (lines.first, lines.last) }
{
    PageRequest {
        path,
        drawn: Some(Drawn { document, lines }),
    }
}

/// Returns the page that is asked for, or that none is; `None` if a document is named without a page, or lines
/// without a document, or if the text of the lines is no range.
pub fn page_given<'a>(given: &ArgMatches<'a>) -> Option<Option<PageRequest<'a>>>
    ensures { option_map (option_map page_asked) result ≡ page_of (rows_of (found_of given.now)) }
{
    pages(
        text_given(given, HTML),
        text_given(given, DOCUMENT),
        text_given(given, LINES),
    )
}

// Returns the page by the texts of the three options.
fn pages<'a>(
    path: Option<&'a str>,
    document: Option<&'a str>,
    lines: Option<&'a str>,
) -> Option<Option<PageRequest<'a>>>
    ensures { option_map (option_map page_asked) result ≡ pages_of (option_map (λ t. t.now) path.entry)
        (option_map (λ t. t.now) document.entry) (option_map (λ t. t.now) lines.entry) }
{
    match (path, document, lines) {
        (None, None, None) => Some(None),
        (Some(path), None, None) => Some(Some(PageRequest { path, drawn: None })),
        (Some(path), Some(document), None) => Some(Some(drawn_page(path, document, all_lines()))),
        (Some(path), Some(document), Some(lines)) => {
            Some(Some(drawn_page(path, document, lines_named(lines)?)))
        }
        _ => None,
    }
}

/// Returns what is wrong with the page that is asked for, if something is.
pub fn page_fault(given: &ArgMatches<'_>) -> Option<&'static str> {
    match (
        text_given(given, HTML),
        text_given(given, DOCUMENT),
        text_given(given, LINES),
    ) {
        (_, None, Some(_)) => Some("--lines needs the --document whose calls are drawn"),
        (None, Some(_), _) => Some("--document needs the page on which it is drawn, with --html"),
        (Some(_), Some(_), Some(lines)) if lines_named(lines).is_none() => Some(
            "the value of --lines is two numbers below 2^64, the least first, as 1-1000",
        ),
        _ => None,
    }
}
