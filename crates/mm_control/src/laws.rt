//! Laws of the storage control. Each is the contract of a function with an empty body.
ghost use Rattle.mm_control.specs.Laws.{AreSets, NamesOnce, NamesInOrder};

/// An addition adds its row and no other row. A deletion removes its row and no other row. Both keep the rows in order.
pub fn tables_are_sets()
    ensures law { AreSets }
{}

/// The stores of a report type are in the order of their identifiers. Each store with a row for the report type is
/// named once, and no other store is named.
pub fn stores_are_named_once()
    ensures law { NamesOnce }
    ensures in_order { NamesInOrder }
{}
