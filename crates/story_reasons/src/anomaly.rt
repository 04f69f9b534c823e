/// What the calls that an explanation names show of a store, in the words of the field.
#[derive(Clone, Copy, PartialEq, Eq)]
pub enum Anomaly {
    /// A get returned an older version than one that was acknowledged before the get was made.
    StaleRead,
    /// A get found nothing, though a write was acknowledged before the get was made.
    WriteNotSeen,
    /// A reply shows the document as it was before what another reply shows.
    TakenBack,
    /// A write was answered as if an acknowledged one before it had not been made.
    LostWrite,
    /// A write was performed, though the version that its condition asks for had been replaced.
    LostUpdate,
    /// A write was performed, though its condition can't have held.
    UnmetCondition,
    /// Two writes of one shard got one version.
    VersionTwice,
    /// A get returned what no recorded write can have written.
    UnwrittenValue,
    /// A reply needs a version that no recorded write can have made.
    UnwrittenVersion,
    /// A write was answered with a conflict, though it has no condition, or its condition held.
    UnfoundedConflict,
    /// None of these: the calls that are named show no more than that there is no order.
    Unnamed,
}

impl Anomaly {
    /// Returns whether a reply shows an older state than another one, so that later replies tell more.
    pub fn is_of_state(self) -> bool {
        matches!(
            self,
            Anomaly::StaleRead | Anomaly::WriteNotSeen | Anomaly::TakenBack | Anomaly::LostWrite
        )
    }

    // Whether it follows only from what is known of other calls, so that a fault of one call or two that is complete at
    // about the same time tells more.
    fn is_derived(self) -> bool {
        matches!(
            self,
            Anomaly::TakenBack
                | Anomaly::UnwrittenValue
                | Anomaly::UnwrittenVersion
                | Anomaly::UnfoundedConflict
                | Anomaly::Unnamed
        )
    }

    // Whether the other one is named in its place, if it is of the same document and complete at about the same time.
    fn gives_way_to(self, other: Anomaly) -> bool {
        match self {
            Anomaly::VersionTwice => matches!(
                other,
                Anomaly::StaleRead | Anomaly::WriteNotSeen | Anomaly::LostWrite
            ),
            _ => self.is_derived(),
        }
    }

    // Whether the loss of an acknowledged write before it is named in its place.
    fn may_be_of_loss(self) -> bool {
        self != Anomaly::UnmetCondition
    }
}

/// What a headline names.
#[derive(Clone, Copy, PartialEq, Eq)]
pub enum Ground {
    /// The anomaly that is found first.
    Found,
    /// The first fault of one call or two of the same document.
    Fault,
    /// The loss of an acknowledged write.
    Loss,
}

/// Returns what a headline names, by the anomaly that is found first, whether an acknowledged write before it is gone, and
/// the first fault of the same document, if it is complete at about the same time.
pub fn ground_of(found: Anomaly, is_gone: bool, fault: Option<Anomaly>) -> Ground {
    match fault {
        _ if is_gone && found.may_be_of_loss() => Ground::Loss,
        Some(fault) if found.gives_way_to(fault) => Ground::Fault,
        _ => Ground::Found,
    }
}
