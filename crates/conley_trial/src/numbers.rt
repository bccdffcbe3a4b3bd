//! The numbers of a summary.

ghost use Rattle.std.specs.Prelude.{◌≡◌, ◌<◌, ◌^◌, length, slice_index};
ghost use Rattle.conley_lists.specs.Lists.{items_of};
ghost use Rattle.conley_chains.specs.Matrix.{column_count};
ghost use Rattle.conley_trial.specs.Numbers as spec;

use conley_chains::Matrix;

/// How many of these dimensions are k.
fn count_of_dim(dims: &[u8], k: u8) -> usize
    ensures { result ≡ spec.count_of_dim dims.now k }
{
    dims.iter().filter(|dim| **dim == k).count()
}

/// The number of cells of dimension 0, less those of dimension 1, plus those of dimension 2. No memory.
pub(crate) fn euler(dims: &[u8]) -> i64
    requires { length dims.now < 2 ^ 32 }
    ensures { result ≡ spec.euler dims.now }
{
    count_of_dim(dims, 0) as i64 - count_of_dim(dims, 1) as i64 + count_of_dim(dims, 2) as i64
}

/// The number in place k, 0 past the end.
fn number_at(row: &[u32], k: usize) -> u32
    ensures { result ≡ slice_index row.now k }
{
    if k < row.len() {
        return row[k];
    }
    0
}

/// The sum of the numbers of all sets at dimension k. No memory.
pub(crate) fn index_sum(numbers: &[Vec<u32>], k: usize) -> u64
    requires { length numbers.now < 2 ^ 32 }
    ensures { result ≡ spec.index_sum (items_of numbers.now) k }
{
    let mut sum = 0;
    for row in numbers {
        sum += u64::from(number_at(row, k));
    }
    sum
}

/// How many entries other than zero a matrix has. No memory.
pub(crate) fn entry_count(matrix: &Matrix) -> u64
    requires rows { matrix.now.rows < 2 ^ 32 }
    requires columns { column_count matrix.now < 2 ^ 32 }
    ensures { result ≡ spec.entry_count matrix.now }
{
    let _kept = matrix.rows();
    let mut count = 0;
    for column in 0..matrix.columns() as u32 {
        count += matrix.column(column).entries().len() as u64;
    }
    count
}
