//! What is printed of captures that are written out.

ghost use Rattle.tl_definitions.specs.MidwayRows.{KeyRows, ReadingRows, BoundRows};

/// Replies and requests of which the past may have the other half.
pub fn key_rows()
    ensures { KeyRows }
{}

/// Beats that may be heads or later beats.
pub fn reading_rows()
    ensures { ReadingRows }
{}

/// Claims, and Grants of requests that nobody recorded.
pub fn bound_rows()
    ensures { BoundRows }
{}
