use crate::anomaly_words::words_of;
use evidence::Certainty;
use readings::Gets;
use story_blocks::Draft;
use story_blocks::Word::{Count, Number, Phrase, Version};
use story_reasons::{AnomalyCount, Damage, Diagnosis, GivenAgain, LostWrites, Subjects, damage_of};
use version_pair::NoMemory;

// Adds an anomaly with the number of its documents, as an item.
fn add_count(draft: &mut Draft<'_>, count: &AnomalyCount) {
    let what = words_of(count.anomaly).what;
    let name = match what.split_once(": ") {
        Some((name, _)) => name,
        None => what,
    };
    let template = if count.first == count.last {
        "{}: {}, on line {}"
    } else {
        "{}: {}, on lines {} to {}"
    };
    draft.item(
        template,
        &[
            Phrase(name),
            Count(count.documents),
            draft.line(count.first),
            draft.line(count.last),
        ],
    );
}

// Adds how many documents are refuted on their own, and what they show.
fn add_documents(draft: &mut Draft<'_>, damage: &Damage, documents: usize, gets: Gets) {
    draft.paragraph(
        match gets {
            Gets::Last =>
                "Documents that are refuted on their own, each by the replies to its own calls: {} of {}. The headline of each, and the lines of the replies that show it:",
            Gets::Any =>
                "Documents that are refuted on their own, each by the replies to its own writes: {} of {}. The headline of each, and the lines of the replies that show it:",
        },
        &[Count(damage.documents), Count(documents)],
    );
    for count in damage.counts.iter() {
        add_count(draft, count);
    }
    draft.end_list(0, "");
}

// Adds over how much of the recording it is known that writes are lost: from the first reply that shows an older state on.
fn add_known(draft: &mut Draft<'_>, since: usize) {
    let last = draft.lines.events().saturating_sub(1);
    match draft.lines.milliseconds(since, last) {
        Some(passed) => draft.paragraph(
            "That is known over {2}.{3} seconds of recording, from line {0} to line {1}.",
            &[
                draft.line(since),
                draft.line(last),
                Number(passed / 1000),
                Number(passed % 1000 / 100),
            ],
        ),
        None => draft.paragraph(
            "That is known over lines {0} to {1}.",
            &[draft.line(since), draft.line(last)],
        ),
    }
}

// Adds how many acknowledged writes are never seen again.
fn add_lost(draft: &mut Draft<'_>, lost: &LostWrites) {
    draft.say(
        &[
            "Acknowledged writes that are never seen again: {} (documents: {}; versions: {} to {}; lines of their replies: {} to {}). No later reply shows or builds on one of them, though a later reply shows an older state of its document. ",
        ],
        &[
            Count(lost.writes),
            Count(lost.documents),
            Version(Some(lost.least)),
            Version(Some(lost.greatest)),
            draft.line(lost.first),
            draft.line(lost.last),
        ],
    );
    add_known(draft, lost.since);
}

// Adds how many writes were given a version that another write of their document had been given.
fn add_given_again(draft: &mut Draft<'_>, again: &GivenAgain) {
    draft.paragraph(
        "Writes that were given a version which another write of the same document had been given: {} (lines of their replies: {} to {}). What later replies say of these versions follows from that, and is not counted as an anomaly of its own.",
        &[
            Count(again.writes),
            draft.line(again.first),
            draft.line(again.last),
        ],
    );
}

// Returns that no other document is broken, as far as that was looked for.
fn none_words(gets: Gets) -> &'static str {
    match gets {
        Gets::Last => "No other document is refuted on its own.",
        Gets::Any => "No other document is refuted by its own writes alone.",
    }
}

/// Adds how much is broken beyond the first finding. Adds nothing if it is undecided whether there is an order.
pub fn add_damage(
    draft: &mut Draft<'_>,
    explained: &Subjects<'_>,
    found: Option<Diagnosis>,
) -> Result<(), NoMemory> {
    let unexplained = &explained.unexplained;
    if matches!(unexplained.certainty, Certainty::Undecided) {
        return Ok(());
    }
    let gets = explained.account.reading.gets;
    let documents = unexplained.whole.docs();
    let damage = damage_of(draft.alloc, explained, found)?;
    if damage.others > 0 || damage.lost.is_some() || damage.again.is_some() {
        draft.heading("How much is broken");
    }
    if damage.others > 0 {
        add_documents(draft, &damage, documents, gets);
    } else if explained.list.len() < documents {
        draft.paragraph(none_words(gets), &[]);
    }
    if let Some(lost) = &damage.lost {
        add_lost(draft, lost);
    }
    if let Some(again) = &damage.again {
        add_given_again(draft, again);
    }
    Ok(())
}
