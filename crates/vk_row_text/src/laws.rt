//! Laws of rows, each the contract of a function that does nothing.
ghost use Rattle.vk_row_text.specs.Telling.{NamesDiffer, RowsTellPoints};

/// Steps with the same rows and the same bytes are the same points, in the same order, but for batches
/// of a submit that never start.
pub fn rows_tell_points()
    ensures { RowsTellPoints }
{}

/// Names of rows that are written alike are the same name.
pub fn names_differ()
    ensures { NamesDiffer }
{}
