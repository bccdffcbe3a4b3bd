//! Entries of a boundary.

use conley_chains::Matrix;

/// Whether a boundary has these entries: row, column and code.
pub(crate) fn has_entries(boundary: &Matrix, entries: &[(u32, u32, u8)]) -> bool {
    for (row, column, code) in entries {
        if *column as usize >= boundary.columns() {
            return false;
        }
        if boundary.entry(*row, *column).code() != *code {
            return false;
        }
    }
    true
}
