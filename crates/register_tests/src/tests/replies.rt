//! Which replies an operation can have.

use doc_register::{Op, Reply};
use version_pair::Pair;

// Returns whether the reply can be that of a get, of an index, of a delete and of a create.
fn fits_each(reply: Reply) -> [bool; 4] {
    [
        reply.fits(Op::Get),
        reply.fits(Op::Index { k: 4, cond: None }),
        reply.fits(Op::Delete { cond: None }),
        reply.fits(Op::Create { k: 4 }),
    ]
}

// Returns whether replies with a pair fit the operations that they should.
fn fit() -> Option<bool> {
    let pair = Pair::new(1, 7)?;
    let created = Reply::Indexed {
        pair,
        created: true,
    };
    let replaced = Reply::Indexed {
        pair,
        created: false,
    };
    let fit = fits_each(Reply::Found { pair, k: 4 }) == [true, false, false, false]
        && fits_each(created) == [false, true, false, true]
        && fits_each(replaced) == [false, true, false, false]
        && fits_each(Reply::Deleted { pair, found: true }) == [false, false, true, false];
    Some(fit)
}

#[test]
fn kinds_of_reply(rt: HostRuntime) {
    assert!(rt; fit() == Some(true));
    assert!(rt; fits_each(Reply::Missing) == [true, false, false, false]);
    assert!(rt; fits_each(Reply::Conflict) == [false, true, true, true]);
}
