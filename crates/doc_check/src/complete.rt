ghost use Rattle.std.specs.Prelude.{◌↔◌, IsTrue};
ghost use Rattle.doc_check.specs.NoOrders.{AreAllComplete};

use doc_register::Conflicts;
use events::Rec;

/// Returns whether the records are complete: each write has a reply that says whether it was performed. Under
/// Maybe a conflict doesn't say it.
pub fn is_complete(records: &[Rec], conflicts: Conflicts) -> bool
    // The result is true exactly if the records are complete.
    ensures { IsTrue result ↔ AreAllComplete conflicts records.now }
{
    for found in records {
        if !found.is_complete(conflicts) {
            return false;
        }
    }
    true
}
