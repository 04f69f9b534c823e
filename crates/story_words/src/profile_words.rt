use evidence::RulingOut;
use readings::Reading;
use story_blocks::Draft;
use story_blocks::Word::Phrase;
use story_reasons::{OrderSearch, Subjects};
use version_pair::NoMemory;

const EXPLAINED: &str =
    "So as OpenSearch documents itself this is explained: a get may be answered by any copy, one of which shows a write that is not acknowledged yet, a write may be sent again by the coordinating node after it lost the connection to the primary, and a conflict is tested against the primary's own state. It is a fault of a store that promises more, such as that each get shows the last change, but not of an OpenSearch whose gets any copy may answer. If all gets asked the primary (`preference=_primary`), check with `--profile opensearch --gets last`.";

const REFUTED: &str =
    "So what OpenSearch documents doesn't explain it either: neither gets answered by several copies, nor writes sent again by the coordinating node, nor conflicts tested against the primary's own state.";

const NOT_FOUND: &str =
    "So no order was found either if gets are answered by several copies, writes sent again, and conflicts tested against the primary's own state, as OpenSearch documents.";

// Returns what follows from the line of a check by what OpenSearch documents.
fn meaning_of(line: &str) -> &'static str {
    if line.starts_with("yes") {
        EXPLAINED
    } else if line.starts_with("refuted") {
        REFUTED
    } else {
        NOT_FOUND
    }
}

/// Adds what a check by what OpenSearch documents answers to the same text, and what that means. Adds nothing if it
/// answers the same, if there is no room for what is judged then, or if the text is read otherwise than strictly.
pub fn add_profile<S: OrderSearch>(
    draft: &mut Draft<'_>,
    explained: &Subjects<'_>,
    search: &S,
) -> Result<(), NoMemory> {
    if explained.account.reading != Reading::strict() {
        return Ok(());
    }
    if draft.lines.has_voids() {
        draft.heading("By what OpenSearch documents");
        draft.paragraph(
            "Lines of this text may have the member `void`, which is heeded only then: `casbench check --profile opensearch FILE` answers by what OpenSearch documents.",
            &[],
        );
        return Ok(());
    }
    let whole = explained.unexplained.whole;
    let reading = Reading::opensearch();
    let Some(line) = search.line(draft.alloc, whole, reading, RulingOut::On)? else {
        return Ok(());
    };
    if search.is_strict(&line) {
        return Ok(());
    }
    if let Ok(line) = str::from_utf8(&line) {
        draft.heading("By what OpenSearch documents");
        draft.paragraph(
            "With `--profile opensearch` this history gets: {}",
            &[Phrase(line.trim_end())],
        );
        draft.paragraph(meaning_of(line), &[]);
    }
    Ok(())
}
