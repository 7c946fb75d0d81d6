//! What holds of the moments of a history, and of texts.
ghost use Rattle.apex_moments.specs.Laws.{AreInOrder, ArePictures};
ghost use Rattle.apex_moments.specs.Texts.{AreReadBack};

/// The picture of every run has a column for each entry of the history. The column has the entry,
/// and for each process its state after the entry, what it waits for and the mutexes that it owns,
/// and for each core the process that it runs.
pub fn columns_say_entries()
    ensures { ArePictures }
{}

/// The moments of every run, of a lawful table, are in order on the axis of its trace: the moment
/// after an entry comes after the one before it, whatever the number of entries of one time, and
/// each is in the tick of its time.
pub fn moments_are_in_order()
    ensures { AreInOrder }
{}

/// A reader of XML takes back every text as it is: the name of a process is read from an SVG as the
/// table gives it.
pub fn texts_are_read_back()
    ensures { AreReadBack }
{}
