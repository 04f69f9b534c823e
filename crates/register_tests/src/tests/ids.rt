//! Ids of documents.

use std::alloc::Global;
use version_pair::{DocId, IdFault, IdText};

// Returns the fault of the id of that many letters.
fn fault_of_letters(alloc: Global, count: usize) -> Option<IdFault> {
    let letters = [b'd'; 513];
    DocId::new(alloc, str::from_utf8(letters.get(..count)?).ok()?).err()
}

#[test]
fn id_lengths(rt: HostRuntime) {
    for (count, fault) in [
        (0, Some(IdFault::Empty)),
        (512, None),
        (513, Some(IdFault::TooLong)),
    ] {
        assert!(rt; fault_of_letters(rt.alloc(), count) == fault, "{count}");
    }
}

// Returns whether an id and its copy have the text that the id was made of.
fn has_text(alloc: Global, text: &str) -> Option<bool> {
    let id = IdText::new(text)?.to_id(alloc).ok()?;
    let copy = id.copy().ok()?;
    Some(copy == id && copy.as_str() == text && id.text().as_str() == text)
}

#[test]
fn texts_of_ids(rt: HostRuntime) {
    assert!(rt; has_text(rt.alloc(), "d") == Some(true));
    assert!(rt; IdText::new("").is_none());
}
