ghost use Rattle.std.specs.Prelude.{◌≡◌};
ghost use Rattle.history.specs.Faults.{line_fault as fault_of};

use api_lines::{LineFault, TextCause};
use events::HistFault;

/// Returns the reason why an event was refused, as a fault of its line.
pub fn line_fault(fault: HistFault) -> LineFault
    ensures { result ≡ fault_of fault }
{
    match fault {
        HistFault::SecondCall => LineFault::Reported(TextCause::SecondCall),
        HistFault::NoCall => LineFault::Reported(TextCause::NoCall),
        HistFault::Ended => LineFault::Reported(TextCause::Ended),
        HistFault::Kind => LineFault::Reported(TextCause::Shape),
        HistFault::Full => LineFault::Reported(TextCause::Full),
        HistFault::NoMemory => LineFault::NoMemory,
        HistFault::ShardMoved => LineFault::Reported(TextCause::ShardMoved),
    }
}
