use crate::anomaly_words::{KEEP, words_of};
use crate::documented::{Documented, documented_of};
use crate::signs::add_signs;
use readings::{ConflictReading, Gets, Reading, Writes};
use story_blocks::Draft;
use story_reasons::{Diagnosis, Subjects};
use version_pair::NoMemory;

// Adds what OpenSearch documents that makes the same picture, unless the reading allows for it already.
fn add_documented(draft: &mut Draft<'_>, documented: Documented, reading: Reading) {
    if reading.gets == Gets::Last {
        draft.say(&[documented.copies], &[]);
    }
    if reading.writes == Writes::Once {
        draft.say(&[documented.retries], &[]);
    }
    if reading.conflicts != ConflictReading::Unknown {
        draft.say(&[documented.conflicts], &[]);
    }
}

/// Adds what is to be ruled out first, what in the history speaks for or against it, and what to do then.
/// Adds nothing if no anomaly is named.
pub fn add_advice(
    draft: &mut Draft<'_>,
    explained: &Subjects<'_>,
    found: Option<Diagnosis>,
) -> Result<(), NoMemory> {
    let Some(found) = found else {
        return Ok(());
    };
    let unexplained = &explained.unexplained;
    let words = words_of(found.anomaly);
    draft.heading("First rule out");
    draft.say(&[words.rule_out], &[]);
    add_documented(
        draft,
        documented_of(found.anomaly),
        explained.account.reading,
    );
    draft.end_paragraph();
    add_signs(draft, unexplained, &explained.list, found)?;
    draft.heading("Then");
    draft.paragraph(words.look, &[]);
    draft.paragraph(KEEP, &[]);
    Ok(())
}
