//! What a matrix keeps.

use conley_chains::Matrix;

/// Entries of a matrix, each a row, a column and a code.
pub(crate) type Entries<'a> = &'a [(u32, u32, u8)];

/// How many entries a matrix keeps.
fn count_of(matrix: &Matrix) -> usize {
    let mut count = 0usize;
    for k in 0..matrix.columns() {
        if k < 4_294_967_296 {
            count = count.wrapping_add(matrix.column(k as u32).entries().len());
        }
    }
    count
}

/// Whether a matrix keeps these entries and no other.
pub(crate) fn keeps(matrix: &Matrix, entries: Entries) -> bool {
    if count_of(matrix) != entries.len() {
        return false;
    }
    for (row, column, code) in entries {
        if *column as usize >= matrix.columns() || matrix.entry(*row, *column).code() != *code {
            return false;
        }
    }
    true
}
