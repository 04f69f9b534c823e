ghost use Rattle.std.specs.Prelude.{◌≡◌};

use doc_register::Reply;

/// The numbers that gets found with a pair.
#[derive(Clone, Copy)]
pub enum FoundNumbers {
    /// No get found the pair.
    Unseen,
    /// Each get that found the pair found this number.
    One(u64),
    /// Two gets found different numbers, so no write gave both.
    Several,
}

/// What replies say of a known pair.
#[derive(Clone, Copy)]
pub struct Version {
    /// Whether a reply says which call took the pair.
    pub reported: bool,
    /// What gets found with the pair.
    pub numbers: FoundNumbers,
}

/// The version of a pair of which no reply says anything.
pub const UNREPORTED: Version = Version {
    reported: false,
    numbers: FoundNumbers::Unseen,
};

impl FoundNumbers {
    ghost use Rattle.deciding.specs.aids.Versions.{numbers_with};

    /// Returns the numbers with one more.
    pub fn with(self, k: u64) -> FoundNumbers
        ensures { result ≡ numbers_with self k }
    {
        match self {
            FoundNumbers::Unseen => FoundNumbers::One(k),
            FoundNumbers::One(known) => {
                if known == k {
                    FoundNumbers::One(known)
                } else {
                    FoundNumbers::Several
                }
            }
            FoundNumbers::Several => FoundNumbers::Several,
        }
    }
}

impl Version {
    ghost use Rattle.deciding.specs.aids.Versions.{version_with};

    /// Returns what is known of the pair, with one more reply that shows it.
    pub fn with(self, reply: Reply) -> Version
        ensures { result ≡ version_with self reply }
    {
        match reply {
            Reply::Indexed { .. } | Reply::Deleted { .. } => Version {
                reported: true,
                ..self
            },
            Reply::Found { k, .. } => Version {
                numbers: self.numbers.with(k),
                ..self
            },
            Reply::Missing | Reply::Conflict => self,
        }
    }
}
