//! What holds of the text of strings of JSON.
ghost use Rattle.apex_json.specs.Strings.{AreReadBack};

/// A reader of JSON takes every string back as it is, and its closing quote ends it.
pub fn strings_are_read_back()
    ensures { AreReadBack }
{}
