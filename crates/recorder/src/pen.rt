ghost use Rattle.std.specs.Prelude.{◌≡◌};
ghost use Rattle.recorder.specs.Pens.{new_pen};

use crate::notes::Notes;
use crate::strand::Strand;
use std::alloc::Global;
use std::marker::Model;

/// A pen, through which one client thread records. It keeps a list of all that was recorded through it, each
/// event with its number.
#[derive(Debug, Drop)]
pub struct Pen {
    pub(crate) notes: Notes,
}

impl Model for Pen {
    ghost use Rattle.recorder.specs.Pens.{PenState};

    ghost Value = { PenState };

    ghost view = { λ p. p.notes.pen };
}

impl Pen {
    /// Returns a pen through which nothing was recorded. It allocates nothing.
    pub(crate) fn new(alloc: Global) -> Pen
        ensures { result ≡ new_pen }
    {
        Pen {
            notes: Notes::new(alloc),
        }
    }

    /// Returns the list as a strand.
    pub(crate) fn into_strand(self) -> Strand
        ensures { result ≡ self.list }
    {
        let Pen { notes } = self;
        notes.into_strand()
    }
}
