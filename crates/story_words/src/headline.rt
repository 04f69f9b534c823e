use crate::anomaly_words::words_of;
use evidence::Certainty;
use story_blocks::Draft;
use story_blocks::Word::{Id, Number, Text};
use story_reasons::{Anomaly, Diagnosis, Subjects, call_of};

// Returns what an explanation is about, as a template that the number of the call is given to. `alone` says that the
// evidence is of a get that is judged by itself.
fn title_of(certainty: Certainty, alone: bool) -> &'static str {
    match certainty {
        Certainty::Evident if alone => {
            "Nothing explains the reply to a get, whatever copy answered it."
        }
        Certainty::Evident | Certainty::ReportedRuledOut | Certainty::RuledOut => {
            "The replies contradict one another: no order of the calls explains them."
        }
        Certainty::Answered | Certainty::DocumentAnswered => {
            "No order of the calls explains the replies."
        }
        Certainty::Undecided => {
            "No order of the calls was found that explains the reply to call {}."
        }
    }
}

/// Returns how much the answer says, in words.
pub fn certainty_words(certainty: Certainty) -> &'static str {
    match certainty {
        Certainty::Evident => {
            "This is proved by evidence: it holds whatever became of the calls without a reply."
        }
        Certainty::ReportedRuledOut => {
            "This is proved, since the document is ruled out: it holds whatever became of the calls without a reply."
        }
        Certainty::RuledOut => {
            "This is proved, though the line says no more than `no`: the document is ruled out, whatever became of the calls without a reply. With the option --rule-out the line says `refuted`."
        }
        Certainty::Answered => {
            "This is proved: every write was answered, and there is no order with these answers."
        }
        Certainty::DocumentAnswered => {
            "This is proved: every write of this document was answered, and there is no order of its calls with these answers, whatever became of the writes of other documents."
        }
        Certainty::Undecided => {
            "This `no` is undecided, so it is no sign of a fault: some writes have no reply that says whether they were performed, and the search for an order with such writes is bounded and misses some."
        }
    }
}

/// Returns the headline of an explanation: the anomaly, with the call that shows it, its document and its line.
/// What it follows from is then added as the first paragraph. If no anomaly is named, that is the headline.
pub fn add_headline(
    draft: &mut Draft<'_>,
    explained: &Subjects<'_>,
    found: Option<Diagnosis>,
) -> String {
    let unexplained = &explained.unexplained;
    let title = title_of(unexplained.certainty, explained.account.is_of_get_alone());
    let number = Number(unexplained.call);
    let named = match found {
        Some(found) if !matches!(found.anomaly, Anomaly::Unnamed) => {
            call_of(unexplained.whole, found.call)
        }
        _ => None,
    };
    let (Some(call), Some(found)) = (named, found) else {
        return draft.text(title, &[number]);
    };
    draft.paragraph(title, &[number]);
    draft.text(
        "{0} (call {1.no} of {2}, line {1.replied}).",
        &[
            Text(words_of(found.anomaly).what),
            draft.call(&call.record),
            Id(call.id),
        ],
    )
}
