use events::History;
use story_blocks::Draft;
use story_blocks::Word::{Count, Id, Number};
use story_reasons::{Coverage, Explained, Terms};
use version_pair::NoMemory;

// The number of documents that are named.
const MOST_NAMED: usize = 3;

// A document: its number, from 0, and the number of its calls.
#[derive(Clone, Copy)]
struct Busy {
    doc: usize,
    calls: usize,
}

// Returns the document with the most calls, the first of several, after the one that was found last.
fn busiest_after(calls: &[usize], last: Option<Busy>) -> Option<Busy> {
    let mut busiest: Option<Busy> = None;
    for (doc, calls) in calls.iter().enumerate() {
        let own = Busy { doc, calls: *calls };
        let is_left = match last {
            Some(last) => own.calls < last.calls || own.calls == last.calls && doc > last.doc,
            None => true,
        };
        let is_busier = match busiest {
            Some(busiest) => own.calls > busiest.calls,
            None => true,
        };
        if is_left && is_busier {
            busiest = Some(own);
        }
    }
    busiest
}

// Adds the documents with the most calls, as an item.
fn add_busiest(draft: &mut Draft<'_>, text: &History, calls: &[usize]) {
    draft.say(&["documents with the most calls:"], &[]);
    let mut last = None;
    for i in 0..MOST_NAMED {
        let Some(busy) = busiest_after(calls, last) else {
            break;
        };
        let template = if i == 0 {
            " {} with {}"
        } else {
            ", {} with {}"
        };
        if busy.doc < text.docs() {
            draft.say(&[template], &[Id(text.doc(busy.doc)), Count(busy.calls)]);
        }
        last = Some(busy);
    }
    draft.end_item();
}

// Adds the primary terms that replies show, as an item.
fn add_terms(draft: &mut Draft<'_>, terms: Option<Terms>) {
    match terms {
        Some(terms) if terms.least < terms.greatest => draft.item(
            "primary terms seen: {} to {}",
            &[Number(terms.least), Number(terms.greatest)],
        ),
        Some(terms) => draft.item("primary terms seen: {}", &[Number(terms.least)]),
        None => draft.item("primary terms seen: none", &[]),
    }
}

// Adds how many calls of each kind there are, as items.
fn add_counts(draft: &mut Draft<'_>, coverage: &Coverage, calls: usize) {
    draft.item(
        "calls that overlapped another call of their document: {} of {}",
        &[Count(coverage.overlapping), Count(calls)],
    );
    draft.item("gets that were answered: {}", &[Count(coverage.gets)]);
    draft.item(
        "conditional writes, creates included: {} performed, {} answered with a conflict",
        &[Count(coverage.performed), Count(coverage.conflicts)],
    );
    draft.item("writes without a reply: {}", &[Count(coverage.unanswered)]);
}

// Adds why the recording can show little, if something speaks for that.
fn add_warnings(draft: &mut Draft<'_>, coverage: &Coverage) {
    if coverage.gets == 0 && coverage.performed == 0 && coverage.conflicts == 0 {
        draft.paragraph(
            "This recording can show little: neither a get nor a condition asks for what was written.",
            &[],
        );
    } else if coverage.overlapping == 0 {
        draft.paragraph(
            "This recording can show little: no two calls of a document overlapped, so nothing can be seen that goes wrong only between calls at the same time.",
            &[],
        );
    }
    match coverage.terms {
        Some(terms) if terms.least == terms.greatest => draft.paragraph(
            "All versions are of one primary term: no failover is visible in this recording.",
            &[],
        ),
        _ => (),
    }
}

/// Adds what a history that an order explains is able to show, with a warning if that is little. Adds nothing
/// if there are no calls.
pub fn add_coverage(draft: &mut Draft<'_>, explained: &Explained<'_>) -> Result<(), NoMemory> {
    if explained.calls == 0 {
        return Ok(());
    }
    let coverage = Coverage::of(draft.alloc, explained.text)?;
    draft.heading("What this recording is able to show");
    add_counts(draft, &coverage, explained.calls);
    add_terms(draft, coverage.terms);
    add_busiest(draft, explained.text, &coverage.calls);
    draft.end_list(0, "");
    add_warnings(draft, &coverage);
    Ok(())
}
