//! Reasons that precede the reply at which a search first fails: those of the prefix that ends with it.

ghost use Rattle.std.specs.Prelude.{◌≡◌, ◌≢◌, IfOk, IfSome, IsTrue};
ghost use Rattle.compose.specs.Certainties.{Says};
ghost use Rattle.events.specs.Order.{IsLinearizable};
ghost use Rattle.report.specs.aids.Earlier.{IsEarlier};

use crate::finding::evidence_against;
use compose::{Case, Certainty, Failing, RulingOut, Verdict, certainty_of, check_alone};
use events::laws::prefixes;
use readings::{Writes, attempts_of};
use std::alloc::{AllocError, Global};
use version_pair::NoMemory;

/// A prefix of a history that provably has no order by itself, and why.
#[derive(Drop)]
pub struct Earlier {
    pub case: Case,
    pub failing: Failing,
    pub certainty: Certainty,
}

// Whether calls are named as reasons, and hold whatever became of the calls without a reply.
fn has_reasons(certainty: Certainty) -> bool
    ensures { IsTrue result → certainty ≢ Certainty.Undecided }
{
    match certainty {
        Certainty::Evident | Certainty::ReportedRuledOut | Certainty::RuledOut => true,
        Certainty::Answered | Certainty::DocumentAnswered | Certainty::Undecided => false,
    }
}

// Returns what is found of the case, if it has reasons: evidence, of which a document that is ruled out is some if
// `ruling_out` asks for it.
fn with_reasons(
    alloc: Global,
    case: Case,
    failing: &Failing,
    ruling_out: RulingOut,
    writes: Writes,
) -> Result<Option<Earlier>, NoMemory>
    ensures case { IfOk result (λ found. IfSome found (λ earlier. earlier.case ≡ case)) }
    ensures says { IfOk result (λ found. IfSome found (λ earlier.
        Says case.conflicts case.events earlier.failing.evidence failing.now.offence.call earlier.certainty)) }
    ensures proved { IfOk result (λ found. IfSome found (λ _. ¬ IsLinearizable case.conflicts case.events)) }
{
    let evidence = evidence_against(alloc, &case, ruling_out, writes)?;
    let failing = Failing {
        evidence,
        offence: failing.offence,
    };
    let certainty = certainty_of(alloc, &case, &failing, attempts_of(writes))?;
    if !has_reasons(certainty) {
        return Ok(None);
    }
    Ok(Some(Earlier {
        case,
        failing,
        certainty,
    }))
}

/// Returns the prefix that ends with the broken reply, if it provably has no order by itself. `certainty` is how much
/// is said of the whole history. It costs a check of the prefix.
pub fn earlier_reasons(
    alloc: Global,
    case: &Case,
    failing: &Failing,
    certainty: Certainty,
    writes: Writes,
) -> Result<Option<Earlier>, NoMemory>
    ensures { IfOk result (λ found. IfSome found (IsEarlier case.now failing.now.offence)) }
{
    // That no order of a history explains it if none explains a prefix is known from here on.
    prefixes();
    let history = case.history();
    let Failing { evidence, offence } = *failing;
    if !has_reasons(certainty) {
        return Ok(None);
    }
    // A history has far fewer events than the greatest number.
    let prefix = history.prefix(offence.event.saturating_add(1))?;
    let ruling_out = match evidence {
        Some(_) => RulingOut::On,
        None => RulingOut::Off,
    };
    match check_alone(alloc, prefix, case.conflicts()) {
        Ok(Verdict::No(earlier)) => with_reasons(alloc, earlier, failing, ruling_out, writes),
        Ok(Verdict::Yes(_)) => Ok(None),
        Err(_) => Err(AllocError),
    }
}
