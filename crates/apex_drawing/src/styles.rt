//! The styles in which a history is drawn.

use apex_pictures::Frame;
use apex_scales::TickLength;

/// A style in which a history is drawn.
#[derive(Drop)]
pub enum Style {
    /// As SVG, the columns of a frame.
    Svg(Frame),
    /// As a trace in the Trace Event Format, which is JSON: all columns, along an axis with ticks of this
    /// length.
    Trace(TickLength),
}
