//! What the line of a text reports, by what was found of it.

ghost use Rattle.std.specs.Prelude.{◌≡◌, ◌≢◌, Some as Just, cond};
ghost use Rattle.evidence.specs.declared.ruling_out.RulingOut.{RulingOut as Ruling};
ghost use Rattle.history.specs.declared.text_read.TextRead.{TextRead as TextOf};
ghost use Rattle.readings.specs.WayBack.{IsKept};
ghost use Rattle.report.specs.Details.{status_of};
ghost use Rattle.report.specs.Findings.{IsFoundOf, events_of};
ghost use Rattle.report.specs.Verdict.{get_offence, gets_judged, is_get_reply, offence_in_text, own_numbers};
ghost use Rattle.report.specs.aids.Counting.{AreCountsOf};
ghost use Rattle.report.specs.aids.Reports.{HasStatus, IsReportOn};
ghost use Rattle.readings.specs.declared.reading.Reading.{Reading as ReadingOf};

use crate::text_finding::TextFinding;
use compose::{
    CallNumbers, Case, Failing, Finding, Offence, Proof, count_calls, count_left_out,
    is_complete_case,
};
use doc_register::Reply;
use events::{Event, History};
use evidence::Refuted;
use evidence::laws::evidence_refutes;
use readings::laws::evidence_refutes as evidence_refutes_readings;
use readings::{Gets, Reading, WayBack, Writes, text_history};
use result_lines::{Reported, TextCounts};
use stream_io::Status;

// Whether the event is the reply to a get.
fn is_get_reply(event: &Event) -> bool
    ensures { result ≡ is_get_reply event.now }
{
    match event {
        Event::Reply { reply, .. } => match reply {
            Reply::Found { .. } | Reply::Missing => true,
            Reply::Indexed { .. } | Reply::Deleted { .. } | Reply::Conflict => false,
        },
        Event::Call { .. } | Event::Lost { .. } => false,
    }
}

// Returns one for the reply to a get, and zero for another event.
fn gets_answered(event: &Event) -> usize
    ensures { result ≡ cond (is_get_reply event.now) 1 0 }
{
    usize::from(is_get_reply(event))
}

// Returns the number of gets of a text that are judged one by one, if they are.
fn gets_judged(gets: Gets, text: &History) -> Option<usize>
    ensures { result ≡ gets_judged gets text.now }
{
    match gets {
        Gets::Last => None,
        Gets::Any => {
            let mut count = 0;
            for place in 0..text.len() {
                count += gets_answered(text.event(place));
            }
            Some(count)
        }
    }
}

// Returns the numbers that the text's own calls have in what is judged.
fn own_numbers(writes: Writes) -> CallNumbers
    ensures { result ≡ own_numbers writes }
{
    match writes {
        Writes::Once => CallNumbers::All,
        Writes::Repeated => CallNumbers::Even,
    }
}

/// Returns what is counted of a text, whose events are judged as this proof has them.
pub fn counts_of(proof: &Proof, text: &History, reading: Reading) -> TextCounts
    ensures { AreCountsOf reading proof.now text.now result }
{
    let unplaced = count_left_out(proof, own_numbers(reading.writes));
    let gets = gets_judged(reading.gets, text);
    TextCounts {
        docs: text.docs(),
        calls: count_calls(text),
        left_out: unplaced.saturating_sub(gets.unwrap_or(0)),
        gets,
    }
}

// Returns the offence by the text's calls and events.
fn offence_in_text(back: &WayBack<'_>, own: Offence) -> Offence
    ensures { result ≡ offence_in_text back.now.writes back.now.text.now own }
{
    let call = back.number(own.call);
    Offence {
        event: back.reply(own.event, call),
        call,
        before_shown: own.before_shown,
    }
}

/// Returns the offence of a get that nothing explains: its reply.
pub fn get_offence(text: &History, evidence: Refuted) -> Offence
    ensures { result ≡ get_offence text.now evidence }
{
    let call = match evidence {
        Refuted::PairTwice(first, _)
        | Refuted::NoWriter(first)
        | Refuted::StaleGet(first, _)
        | Refuted::MissedWrite(first, _)
        | Refuted::StaleSwap(first, _)
        | Refuted::RuledOut(first) => first,
    };
    Offence {
        event: text.ending(call).unwrap_or(0),
        call,
        before_shown: true,
    }
}

/// What the line of a text reports, and whether it is proved: that an order explains the text, or that none does.
#[derive(Clone, Copy)]
pub struct Answer {
    pub reported: Reported,
    pub proved: bool,
}

impl TextFinding {
    /// Returns the history that was judged.
    pub fn judged(&self) -> &History
        ensures { result.now ≡ events_of self.now.finding }
    {
        match &self.finding {
            Finding::Explained(proof) => proof.history(),
            Finding::Unexplained(case, _) => case.history(),
        }
    }

    /// Returns the text's own history.
    pub fn history(&self) -> &History
        ensures { (reading : ReadingOf) (read : TextOf) → IsKept reading read (events_of self.now.finding) self.now.text
            → result.now ≡ read.history }
    {
        text_history(self.judged(), &self.text)
    }

    // Returns the answer if an order explains what was judged.
    fn answer_explained(&self, proof: &Proof, reading: Reading) -> Answer
        requires { self.now.finding ≡ Finding.Explained proof.now }
        ensures report { (ruling : Ruling) (read : TextOf) → IsFoundOf ruling reading read self.now
            → IsReportOn ruling reading read result.reported (Just result.proved) }
        ensures status { HasStatus (Finding.Explained proof.now) self.now.get (status_of result.reported) }
    {
        // What evidence says is known from here on, and that there is an order.
        evidence_refutes_readings();
        let _ = proof.history();
        let text = self.history();
        let reported = match self.get {
            None => Reported::Yes(counts_of(proof, text, reading)),
            Some(get) => Reported::Refuted(get.evidence, get_offence(text, get.evidence)),
        };
        Answer {
            reported,
            proved: true,
        }
    }

    // Returns the answer if no order was found for what was judged.
    fn answer_unexplained(&self, case: &Case, failing: &Failing, reading: Reading) -> Answer
        requires { self.now.finding ≡ Finding.Unexplained case.now failing.now }
        ensures report { (ruling : Ruling) (read : TextOf) → IsFoundOf ruling reading read self.now
            → IsReportOn ruling reading read result.reported (Just result.proved) }
        ensures status { status_of result.reported ≢ Status.Yes }
    {
        // What evidence says is known from here on, and that no order was found.
        evidence_refutes();
        evidence_refutes_readings();
        let _ = case.history();
        let back = WayBack {
            text: self.history(),
            writes: reading.writes,
        };
        let offence = offence_in_text(&back, failing.offence);
        match (failing.evidence, self.get) {
            (Some(evidence), _) => Answer {
                reported: Reported::Refuted(back.evidence(evidence), offence),
                proved: true,
            },
            (None, Some(get)) => Answer {
                reported: Reported::Refuted(get.evidence, offence),
                proved: true,
            },
            (None, None) => Answer {
                reported: Reported::No(offence),
                proved: is_complete_case(case),
            },
        }
    }

    /// Returns what the line of the text reports, and whether that is proved.
    pub fn answer(&self, reading: Reading) -> Answer
        // The line says of the text what it is promised to, the number of calls is the text's, and what is said to be
        // proved is.
        ensures report { (ruling : Ruling) (read : TextOf) → IsFoundOf ruling reading read self.now
            → IsReportOn ruling reading read result.reported (Just result.proved) }
        // It is yes just if an order explains what was judged, and each get is explained.
        ensures status { HasStatus self.now.finding self.now.get (status_of result.reported) }
    {
        match &self.finding {
            Finding::Explained(proof) => self.answer_explained(proof, reading),
            Finding::Unexplained(case, failing) => self.answer_unexplained(case, failing, reading),
        }
    }
}
