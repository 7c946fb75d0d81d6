//! What holds of the texts in the objects.
ghost use Rattle.apex_objects.specs.Laws.{AreReadBack};

/// A reader of JSON takes back each call and each reply of an entry, each name in an entry or in a
/// row of the listing, and each message in a row as it is, from the place where its object has it.
pub fn texts_are_read_back()
    ensures { AreReadBack }
{}
