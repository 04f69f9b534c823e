use story_reasons::Anomaly;

/// What is said of an anomaly.
#[derive(Clone, Copy)]
pub struct AnomalyWords {
    /// Its name and what was seen, in words that the call and its line follow.
    pub what: &'static str,
    /// What makes the same picture without a fault of the store, and is to be ruled out first.
    pub rule_out: &'static str,
    /// What to look at in the store.
    pub look: &'static str,
}

/// Returns what is said of the anomaly.
pub fn words_of(anomaly: Anomaly) -> AnomalyWords {
    match anomaly {
        Anomaly::StaleRead => AnomalyWords {
            what: "Stale read: a get returned an older version than one that was acknowledged before",
            rule_out: "A get whose line was written only after it was sent: it may have overlapped the write. A cache or a proxy that answered in place of the store. An index that was deleted and re-created between the two calls: its numbers start again.",
            look: "Find the copy that answered the get: one that lagged behind, or was cut off or stopped and still answered. If the newer version is read again later, only the read was stale; if it never is, the write may have been rolled back after it was acknowledged.",
        },
        Anomaly::WriteNotSeen => AnomalyWords {
            what: "Acknowledged write not seen: a get found nothing after a write was acknowledged",
            rule_out: "An unrecorded client that deleted the document, or an index that was deleted or re-created between the two calls. A get that was sent to another index, or with another routing: it looks at another shard. A get whose line was written only after it was sent.",
            look: "Find the copy that answered the get: one that lagged behind, or was cut off and still answered. If the document is found again later, only the read was stale; if it never is, the write may have been rolled back after it was acknowledged. Look for a change of the primary in between.",
        },
        Anomaly::TakenBack => AnomalyWords {
            what: "Shown and taken back: a reply shows the document as it was before what another reply shows",
            rule_out: "A later call whose line was written only after it was sent: the two calls may have overlapped. A reply that was recorded for another call than its own. An unrecorded client that changed the document, or an index that was re-created between the two replies.",
            look: "Find the copies that answered the two calls, and what each of them held. A write that is shown before it is acknowledged, and then rolled back, is a dirty read; two copies that answer with different states are another cause. Look for a change of the primary in between.",
        },
        Anomaly::LostWrite => AnomalyWords {
            what: "Acknowledged write lost: a reply shows the document as if an acknowledged write before it had not been made",
            rule_out: "An index that was re-created, or restored from a snapshot, between the two calls. An unrecorded client that changed the document between them. A call whose line was written only after it was sent: the two may have overlapped. A store whose numbers are not assigned in the order of its changes.",
            look: "Look for a change of the primary between the two calls: a copy that became the primary without holding the acknowledged write, or a primary that came back with older data. Compare what each copy holds now, before they are repaired.",
        },
        Anomaly::LostUpdate => AnomalyWords {
            what: "Lost update: a write was performed though the version that its condition asks for had been replaced",
            rule_out: "A client library or a proxy that leaves the condition out. A store that compares something other than the pair, such as a version of its own, or whose numbers are not assigned in the order of its changes. An index that was re-created between the two writes. A write whose line was written only after it was sent.",
            look: "Find the node that performed each of the two writes: two nodes that both took themselves for the primary, or one that does not compare the condition and write in one step. What the first of them wrote was overwritten unseen: read the document, and see whether it is still missing.",
        },
        Anomaly::UnmetCondition => AnomalyWords {
            what: "Condition not honoured: a write was performed though its condition cannot have held",
            rule_out: "A client library or a proxy that leaves the condition out, or a store that compares something other than the pair. An unrecorded client that wrote the document in between. A reply that was recorded for another call than its own.",
            look: "Find the node that performed the write, and what it held at that time: a copy that had missed earlier changes, or one that does not compare conditions. Repeat the calls by hand against a store that nothing disturbs: if it performs the write too, it does not keep the condition at all.",
        },
        Anomaly::VersionTwice => AnomalyWords {
            what: "One version given twice: two writes of a shard were answered with the same version",
            rule_out: "Writes to different shards or indices that are recorded as one: each counts for itself, so the call lines have to name the shard. An index that was deleted and re-created between the two writes: its numbers start again. One reply that was recorded for two calls.",
            look: "Look for two nodes that were the primary in one term at that time (split brain), or for a primary that came back with older data and counted on from there. One of the two writes may be lost: read what each copy holds now, before they are repaired.",
        },
        Anomaly::UnwrittenValue => AnomalyWords {
            what: "Read of something nobody wrote: a get returned what no recorded write can have written",
            rule_out: "An unrecorded client that writes the document: look for one first. A document that was there before the recording began, or a write that was sent before it began and performed later. A write whose line is missing or was written late: a recorder has to write each call down before it sends it. A write that was retried below the recorder, so that the recorded reply is that of the second attempt.",
            look: "Read the document from each copy and compare them: a copy that differs is damaged, or holds what another document was given. Look for a recovery or a move of the shard at that time.",
        },
        Anomaly::UnwrittenVersion => AnomalyWords {
            what: "Version that nobody wrote: a reply needs a version that no recorded write can have made",
            rule_out: "An unrecorded client that writes the document: look for one first. A document that was there before the recording began, or a write that was sent before it began and performed later. A write whose line is missing or was written late. A write that was retried below the recorder, so that the recorded reply is that of the second attempt.",
            look: "Compare what each copy holds of the document, and the history of its versions if the store keeps one. Look for a recovery or a move of the shard, and for a change of the primary, at that time.",
        },
        Anomaly::UnfoundedConflict => AnomalyWords {
            what: "Conflict without a cause: a write was answered with a conflict though no condition of it was unmet",
            rule_out: "A write that was retried below the recorder: a client library or a proxy sends it again after a timeout, the first attempt is performed, and the second meets a conflict. An unrecorded client that wrote the document, or a document that was there before the recording began. A store that refuses writes for other reasons, and reports these as conflicts.",
            look: "Find out whether anything between the recorder and the store repeats writes, and switch that off, or check with `--conflicts maybe`. Else find the node that refused the write: it may have held a version that was rolled back later, or that no reply shows.",
        },
        Anomaly::Unnamed => AnomalyWords {
            what: "No order of the calls explains the replies",
            rule_out: "An unrecorded client. A write that was retried below the recorder. A call line that was written late. An index that was re-created. Each of these makes a correct store look wrong.",
            look: "Look at the calls that were open around that reply, and at the nodes that answered them. Shorten the recording first: what is left shows more clearly which calls contradict one another.",
        },
    }
}

/// What to keep and how to shorten it, whatever the anomaly.
pub const KEEP: &str =
    "Keep the whole recording, and the logs of all nodes and a list of what was done to them in the minutes around these lines. `python3 -m casbench_recording.shrink FILE > FEW` cuts the recording down to the few calls that get the same answer without options.";
