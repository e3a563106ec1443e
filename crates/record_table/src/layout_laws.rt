//! The laws of texts and names in records.
ghost use Rattle.record_table.specs.Laws.{TextsAreHeld, TextsAreReadBack, NamesAreReadBack, LabelsAreReadBack};

/// Each of some texts is held in their table: it stands there whole, where the table says.
pub fn texts_are_held()
    ensures { TextsAreHeld }
{}

/// A text that a table holds is read of the offset and the size that are written for it.
pub fn texts_are_read_back()
    ensures { TextsAreReadBack }
{}

/// A name that a table holds is read back, where it is not empty and has no zero byte.
pub fn names_are_read_back()
    ensures { NamesAreReadBack }
{}

/// Such a name of a local, or the number that it has without one, is read back.
pub fn labels_are_read_back()
    ensures { LabelsAreReadBack }
{}
