ghost use Rattle.std.specs.Prelude.{◌≡◌};
ghost use Rattle.doc_check.specs.NoOrders.{HasNoOrder};

use doc_register::Conflicts;
use events::Rec;
use std::marker::Model;
use version_pair::DocId;

/// The calls of a document for which no order was found.
///
/// Contracts see its id, its records and its reading of conflicts. The type guarantees that no places without
/// a given pair are valid for its records in this reading.
#[derive(Debug, Drop)]
pub struct NoOrder {
    id: DocId,
    records: Vec<Rec>,
    conflicts: Conflicts,
}

impl Model for NoOrder {
    ghost use Rattle.doc_check.specs.NoOrders.{HasNoOrder, Unordered};

    ghost Value = { Unordered };

    ghost view = { λ n. record {
      doc = n.id;
      records = n.records.items;
      conflicts = n.conflicts;
    } };

    ghost invariant = { λ n. HasNoOrder n.conflicts n.records.items };
}

impl NoOrder {
    // Returns the value for records for which no places without a given pair are valid.
    pub(crate) fn of(id: DocId, records: Vec<Rec>, conflicts: Conflicts) -> NoOrder
        requires { HasNoOrder conflicts records.items }
        ensures { result ≡ record {
          doc = id;
          records = records.items;
          conflicts = conflicts;
        } }
    {
        NoOrder {
            id,
            records,
            conflicts,
        }
    }

    /// Returns the document's id.
    pub fn id(&self) -> &DocId
        ensures { result.now ≡ self.now.doc }
    {
        &self.id
    }

    /// Returns the document's calls, in their order in the history.
    pub fn records(&self) -> &[Rec]
        // They are the records for which no order was found.
        ensures same { result.now ≡ self.now.records }
        // No places without a given pair are valid for them.
        ensures none { HasNoOrder self.now.conflicts self.now.records }
    {
        // The access to a field makes the type's invariant known from here on.
        let _ = &self.id;
        &self.records
    }

    /// Returns how conflicts are read.
    pub fn conflicts(&self) -> Conflicts
        ensures { result ≡ self.now.conflicts }
    {
        self.conflicts
    }
}
