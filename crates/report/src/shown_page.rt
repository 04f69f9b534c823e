ghost use Rattle.std.specs.Prelude.{IfOk, IfSome};
ghost use Rattle.page.specs.Pages.{IsPage};

use crate::check_options::CheckOptions;
use std::alloc::Global;
use story::{About, Story, View, page_of};
use version_pair::NoMemory;

/// What a page shows beside the explanation. Nothing is promised of it.
#[derive(Clone, Copy)]
pub struct PageOptions<'a> {
    /// The name of the history's file; `None` if it is standard input.
    pub file: Option<&'a str>,
    /// The document that is drawn as a timeline, if one is asked for.
    pub view: Option<View<'a>>,
}

/// Returns the document that is drawn, if a page is asked for and a document on it.
pub fn view_of<'s, 'a>(shown: &'s Option<PageOptions<'a>>) -> Option<&'s View<'a>> {
    match shown {
        Some(shown) => shown.view.as_ref(),
        None => None,
    }
}

/// Returns the page of an explanation, with this line of a check, if one is asked for.
pub fn page_shown(
    alloc: Global,
    line: &str,
    story: &Story,
    options: CheckOptions,
    shown: Option<PageOptions<'_>>,
) -> Result<Option<Vec<u8>>, NoMemory>
    ensures { IfOk result (λ made. IfSome made (λ page. IsPage page.items)) }
{
    let Some(PageOptions { file, view }) = shown else {
        return Ok(None);
    };
    let about = About {
        file,
        reading: options.reading,
        ruling_out: options.ruling_out,
        workers: options.workers,
        view,
    };
    let page = page_of(alloc, line, story, &about)?;
    Ok(Some(page))
}
