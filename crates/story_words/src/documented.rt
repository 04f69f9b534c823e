use story_reasons::Anomaly;

/// What a healthy OpenSearch does, by its documentation, that makes the same picture as an anomaly: sentences, each after
/// a space; an empty text if there is nothing of the kind.
#[derive(Clone, Copy)]
pub struct Documented {
    /// Of gets that are answered by several copies.
    pub copies: &'static str,
    /// Of writes that are sent again.
    pub retries: &'static str,
    /// Of conflicts.
    pub conflicts: &'static str,
}

const NOTHING: Documented = Documented {
    copies: "",
    retries: "",
    conflicts: "",
};

/// Returns what OpenSearch documents that makes the same picture as the anomaly.
pub fn documented_of(anomaly: Anomaly) -> Documented {
    match anomaly {
        Anomaly::StaleRead => Documented {
            copies: " Of OpenSearch: a get without `preference=_primary` may be answered by any copy, but one in sync has what was acknowledged before the get was made; a primary that is cut off answers gets until it steps down, which is documented, and a stale read all the same.",
            ..NOTHING
        },
        Anomaly::WriteNotSeen => Documented {
            retries: " Of OpenSearch: a delete that its coordinating node sent again after it lost the connection to the primary: the first attempt removes the document, and the reply to the second says `not_found`.",
            ..NOTHING
        },
        Anomaly::TakenBack => Documented {
            copies: " Of OpenSearch: a get without `preference=_primary` may be answered by any copy, and one copy shows a write that is not acknowledged yet, while the next one doesn't.",
            conflicts: " A conflict is tested against the primary's own state there, which may hold a write that is lost later.",
            ..NOTHING
        },
        Anomaly::LostWrite => Documented {
            retries: " Of OpenSearch: a write without a condition that its coordinating node sent again after it lost the connection to the primary: the reply to the second attempt says `updated` of a document that the first one made, or `not_found` of one that it removed.",
            ..NOTHING
        },
        Anomaly::LostUpdate => Documented {
            copies: " Of OpenSearch, if a get is among the reasons: it may show a write that a change of the primary takes back.",
            conflicts: " Of OpenSearch, if a conflict is among the reasons: it is tested against the primary's own state, which may hold a write that is lost later.",
            ..NOTHING
        },
        Anomaly::UnwrittenValue | Anomaly::UnwrittenVersion => Documented {
            retries: " OpenSearch does so itself: its coordinating node sends a write again after it lost the connection to the primary, so that a write without a condition may be performed twice.",
            ..NOTHING
        },
        Anomaly::UnfoundedConflict => Documented {
            retries: " OpenSearch does so itself: its coordinating node sends a write again after it lost the connection to the primary, and the second attempt meets a conflict with the first one.",
            conflicts: " Of OpenSearch: a conflict is tested against the primary's own state, which may hold a write that is lost later.",
            ..NOTHING
        },
        Anomaly::Unnamed => Documented {
            copies: " Of OpenSearch: a get that another copy answered.",
            retries: " A write that its coordinating node sent again.",
            conflicts: " A conflict with a write that was lost later.",
        },
        Anomaly::UnmetCondition | Anomaly::VersionTwice => NOTHING,
    }
}
