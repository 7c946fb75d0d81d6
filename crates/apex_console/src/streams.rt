//! The stream on which a program reports.
ghost use Rattle.apex_history.specs.Counted.{inner_of, failures_of};
ghost use Rattle.apex_console.specs.Streams.{Told};

use apex_history::{Counted, Sink};
use std::io::Write;

/// Writes the text on the error writer.
pub fn write_error<E: Sink>(text: &[u8], error_writer: &mut Counted<E>)
    ensures { Told text.now
        (E.contents (inner_of error_writer.old)) (E.contents (inner_of error_writer.new))
        (failures_of error_writer.old) (failures_of error_writer.new) }
{
    // The status shows the end even if the text cannot be written.
    let _ = error_writer.write_all(text);
}
