ghost use Rattle.std.specs.Prelude.{◌≡◌, IfOk};
ghost use Rattle.recorder.specs.aids.Notes.{numbered as event_at};

use doc_register::{Op, Reply};
use events::Event;
use version_pair::{DocId, NoMemory};

/// An event that has no number yet.
#[derive(Drop)]
pub enum Unnumbered {
    Call { id: DocId, op: Op },
    Reply { no: u64, reply: Reply },
    Lost { no: u64 },
}

impl Unnumbered {
    /// Returns the event under this number. A call is numbered by it, on shard 0.
    pub fn with_number(self, number: u64) -> Event
        ensures { result ≡ event_at self number }
    {
        match self {
            Unnumbered::Call { id, op } => Event::Call {
                no: number,
                shard: 0,
                id,
                op,
            },
            Unnumbered::Reply { no, reply } => Event::Reply { no, reply },
            Unnumbered::Lost { no } => Event::Lost { no },
        }
    }

    /// Returns the same event once more.
    pub fn copy(&self) -> Result<Unnumbered, NoMemory>
        ensures { IfOk result (λ event. event ≡ self.now) }
    {
        match self {
            Unnumbered::Call { id, op } => Ok(Unnumbered::Call {
                id: id.copy()?,
                op: *op,
            }),
            Unnumbered::Reply { no, reply } => Ok(Unnumbered::Reply {
                no: *no,
                reply: *reply,
            }),
            Unnumbered::Lost { no } => Ok(Unnumbered::Lost { no: *no }),
        }
    }
}
