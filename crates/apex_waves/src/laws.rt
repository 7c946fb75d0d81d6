//! What holds of dumps.
ghost use Rattle.apex_waves.specs.Laws.{TimesRise};

/// The times of a dump rise from line to line, as IEEE 1364 asks, whatever the number of entries of
/// one tick.
pub fn times_rise()
    ensures { TimesRise }
{}
