ghost use Rattle.std.specs.Prelude.{◌≡◌, IfOk, length};

use conley_chains::{Chain, Matrix, MatrixError, NoMemory};
use conley_field::{PrimeField, Scalar};
use std::alloc::Global;
use std::test::Fail;

const FIVE: PrimeField = PrimeField::Five;

/// Entries of a matrix of two rows and two columns.
const TWO: [(u32, u32, u8); 2] = [(0, 0, 2), (1, 1, 3)];

/// The codes of a matrix with two columns, in two rows.
fn codes(matrix: &Matrix) -> Option<[u8; 4]> {
    if matrix.columns() != 2 {
        return None;
    }
    Some([
        matrix.entry(0, 0).code(),
        matrix.entry(0, 1).code(),
        matrix.entry(1, 0).code(),
        matrix.entry(1, 1).code(),
    ])
}

/// The codes of the matrix times itself.
fn square(alloc: Global) -> Result<Option<[u8; 4]>, MatrixError> {
    let matrix = Matrix::from_entries(alloc, &FIVE, 2, 2, &TWO)?;
    Ok(codes(&matrix.product(alloc, &FIVE, &matrix)?))
}

/// The codes of the matrix plus itself.
fn double(alloc: Global) -> Result<Option<[u8; 4]>, MatrixError> {
    let matrix = Matrix::from_entries(alloc, &FIVE, 2, 2, &TWO)?;
    Ok(codes(&matrix.plus(alloc, &FIVE, &matrix, Scalar::of(1))?))
}

/// The codes of a copy of the matrix whose second column gains the first twice.
fn gained(alloc: Global) -> Result<Option<[u8; 4]>, MatrixError> {
    let matrix = Matrix::from_entries(alloc, &FIVE, 2, 2, &TWO)?;
    let mut copy = matrix.copy(alloc)?;
    copy.add_scaled(&FIVE, 1, 0, Scalar::of(2))?;
    Ok(codes(&copy))
}

#[test]
fn sums_and_products_of_a_matrix(rt: HostRuntime) -> Result<(), Fail> {
    let alloc = rt.alloc();
    let found = [square(alloc)?, double(alloc)?, gained(alloc)?];
    assert!(rt; found == [Some([4, 0, 0, 4]), Some([4, 0, 0, 1]), Some([2, 4, 0, 3])]);
    Ok(())
}

#[test]
fn entries_in_any_order_make_one_matrix(rt: HostRuntime) -> Result<(), Fail> {
    let matrix = Matrix::from_entries(rt.alloc(), &FIVE, 2, 2, &[(1, 1, 3), (0, 0, 2)])?;
    assert!(rt; matrix.rows() == 2 && codes(&matrix) == Some([2, 0, 0, 3]));
    Ok(())
}

#[test]
fn a_matrix_without_entries(rt: HostRuntime) -> Result<(), Fail> {
    let empty = Matrix::empty(rt.alloc(), 3, 2)?;
    assert!(rt; empty.rows() == 3 && codes(&empty) == Some([0, 0, 0, 0]));
    Ok(())
}

#[test]
fn an_identity_has_ones(rt: HostRuntime) -> Result<(), Fail> {
    let identity = Matrix::identity(rt.alloc(), &FIVE, 2)?;
    assert!(rt; identity.rows() == 2 && codes(&identity) == Some([1, 0, 0, 1]));
    Ok(())
}

/// The numbers of rows and columns of the part in the second row and the second column, and its code.
fn part(alloc: Global) -> Result<(usize, usize, u8), MatrixError> {
    let matrix = Matrix::from_entries(alloc, &FIVE, 2, 2, &TWO)?;
    let part = matrix.restrict(alloc, &[1], &[1])?;
    Ok((part.rows(), part.columns(), part.entry(0, 0).code()))
}

#[test]
fn a_part_of_a_matrix(rt: HostRuntime) -> Result<(), Fail> {
    assert!(rt; part(rt.alloc())? == (1, 1, 3));
    Ok(())
}

/// Whether a chain has these entries and no other.
fn is(chain: &Chain, entries: &[(u32, u8)]) -> bool {
    let found = chain.entries();
    if found.len() != entries.len() {
        return false;
    }
    for i in 0..entries.len() {
        if found[i].0 != entries[i].0 || found[i].1.code() != entries[i].1 {
            return false;
        }
    }
    true
}

/// Whether the matrix takes the chain of two ones to its two entries.
fn image_is_right(alloc: Global) -> Result<bool, MatrixError> {
    let matrix = Matrix::from_entries(alloc, &FIVE, 2, 2, &TWO)?;
    let both = Chain::from_pairs(alloc, &[(0, Scalar::of(1)), (1, Scalar::of(1))])?;
    Ok(is(&matrix.apply(alloc, &FIVE, &both)?, &[(0, 2), (1, 3)]))
}

#[test]
fn images_of_chains(rt: HostRuntime) -> Result<(), Fail> {
    assert!(rt; image_is_right(rt.alloc())?);
    Ok(())
}

/// Entries that are no matrix of two rows and two columns, and what is told of them.
const NO_MATRICES: [(&[(u32, u32, u8)], MatrixError); 10] = [
    (&[(0, 0, 2), (0, 0, 1)], MatrixError::Repeated(1)),
    (&[(0, 0, 0)], MatrixError::Zero(0)),
    (&[(2, 0, 1)], MatrixError::Range(0)),
    (&[(0, 0, 5)], MatrixError::Range(0)),
    (&[(0, 0, 2), (0, 0, 1), (0, 0, 0)], MatrixError::Repeated(1)),
    (&[(1, 0, 1), (0, 0, 0), (9, 0, 1)], MatrixError::Zero(1)),
    (&[(2, 0, 0), (2, 0, 1), (0, 0, 1)], MatrixError::Range(0)),
    (&[(1, 1, 1), (0, 2, 1), (1, 1, 1)], MatrixError::Range(1)),
    (&[(1, 1, 1), (0, 1, 1), (0, 0, 5)], MatrixError::Range(2)),
    (&[(1, 0, 1), (0, 1, 1), (1, 0, 1)], MatrixError::Repeated(2)),
];

#[test]
fn refusals_of_matrices(rt: HostRuntime) {
    for (entries, error) in &NO_MATRICES {
        let matrix = Matrix::from_entries(rt.alloc(), &FIVE, 2, 2, entries);
        assert_eq!(rt; matrix.err(), Some(*error));
    }
}

/// Entries of a chain.
const MANY: [(u32, u8); 4] = [(9, 4), (2, 1), (30, 2), (7, 3)];

/// Places of that chain, and their codes.
const PLACES: [(u32, u8); 7] = [(0, 0), (2, 1), (7, 3), (8, 0), (9, 4), (30, 2), (31, 0)];

#[test]
fn a_chain_has_its_entries(rt: HostRuntime) -> Result<(), Fail> {
    let many = Chain::from_entries(rt.alloc(), &FIVE, &MANY)?;
    assert!(rt; PLACES.iter().all(|p| many.entry(p.0).code() == p.1));
    Ok(())
}

#[test]
fn a_chain_of_one_entry(rt: HostRuntime) -> Result<(), Fail> {
    let one = Chain::from_entries(rt.alloc(), &FIVE, &[(7, 1)])?;
    assert!(rt; is(&one, &[(7, 1)]));
    Ok(())
}

#[test]
fn a_chain_of_pairs(rt: HostRuntime) -> Result<(), Fail> {
    let pair = Chain::from_pairs(rt.alloc(), &[(7, Scalar::of(1))])?;
    assert!(rt; is(&pair, &[(7, 1)]));
    Ok(())
}

#[test]
fn a_chain_of_a_row_of_codes(rt: HostRuntime) -> Result<(), Fail> {
    let row = [Scalar::of(0), Scalar::of(3), Scalar::of(0), Scalar::of(1)];
    let chain = Chain::from_row(rt.alloc(), &row)?;
    assert!(rt; is(&chain, &[(1, 3), (3, 1)]));
    Ok(())
}

/// Whether the chain plus twice the chain of one entry has its entries.
fn sum_is_right(alloc: Global) -> Result<bool, MatrixError> {
    let many = Chain::from_entries(alloc, &FIVE, &MANY)?;
    let one = Chain::from_entries(alloc, &FIVE, &[(7, 1)])?;
    let sum = many.plus(alloc, &FIVE, Scalar::of(2), &one)?;
    Ok(is(&sum, &[(2, 1), (9, 4), (30, 2)]))
}

/// Whether the chain without two places has its entries.
fn rest_is_right(alloc: Global) -> Result<bool, MatrixError> {
    let many = Chain::from_entries(alloc, &FIVE, &MANY)?;
    Ok(is(&many.without(alloc, 30, 7)?, &[(2, 1), (8, 4)]))
}

/// Whether the chain at listed places has its entries.
fn listed_is_right(alloc: Global) -> Result<bool, MatrixError> {
    let many = Chain::from_entries(alloc, &FIVE, &MANY)?;
    Ok(is(&many.restrict(alloc, &[2, 5, 9])?, &[(0, 1), (2, 4)]))
}

#[test]
fn chains_from_chains(rt: HostRuntime) -> Result<(), Fail> {
    let alloc = rt.alloc();
    assert!(rt; sum_is_right(alloc)? && rest_is_right(alloc)? && listed_is_right(alloc)?);
    Ok(())
}

/// Entries that are no chain, and what is told of them.
const NO_CHAINS: [(&[(u32, u8)], MatrixError); 5] = [
    (&[(7, 0)], MatrixError::Zero(0)),
    (&[(7, 0), (7, 1)], MatrixError::Zero(0)),
    (&[(7, 1), (8, 5), (7, 0)], MatrixError::Range(1)),
    (&[(3, 1), (9, 1), (9, 2), (3, 4)], MatrixError::Repeated(2)),
    (&[(9, 1), (3, 1), (4, 2), (3, 4)], MatrixError::Repeated(3)),
];

#[test]
fn refusals_of_chains(rt: HostRuntime) {
    for (entries, error) in &NO_CHAINS {
        let chain = Chain::from_entries(rt.alloc(), &FIVE, entries);
        assert_eq!(rt; chain.err(), Some(*error));
    }
}

/// The matrix of eight rows whose one column is 1 in the last.
fn one_column(alloc: Global) -> Result<Matrix, NoMemory> {
    let mut columns = Vec::new(alloc);
    columns.push(Chain::from_pairs(alloc, &[(7, Scalar::of(1))])?)?;
    Ok(Matrix::from_columns(8, columns))
}

#[test]
fn a_matrix_of_one_column(rt: HostRuntime) -> Result<(), Fail> {
    let matrix = one_column(rt.alloc())?;
    assert!(rt; matrix.rows() == 8 && matrix.columns() == 1);
    assert!(rt; is(matrix.column(0), &[(7, 1)]));
    assert!(rt; matrix.entry(7, 0).code() == 1 && matrix.entry(6, 0).code() == 0);
    Ok(())
}

/// The entries of a row and of a column of 21, both out of order.
fn long_entries(alloc: Global, code: u8, turned: bool) -> Result<Vec<(u32, u32, u8)>, Fail>
    ensures { IfOk result (λ entries. length entries.items ≡ 21) }
{
    let mut entries = Vec::new(alloc);
    for k in 0..21u32 {
        let place = 8 * k % 21;
        entries.push(if turned {
            (place, 0, code)
        } else {
            (0, place, code)
        })?;
    }
    if entries.len() != 21 {
        return Err("not 21 entries".into());
    }
    Ok(entries)
}

/// The one entry of a row of 21 ones times a column of 21 twos.
fn long_product(alloc: Global) -> Result<u8, Fail> {
    let row = long_entries(alloc, 1, false)?;
    let left = Matrix::from_entries(alloc, &FIVE, 1, 21, &row)?;
    let column = long_entries(alloc, 2, true)?;
    let right = Matrix::from_entries(alloc, &FIVE, 21, 1, &column)?;
    Ok(left.product(alloc, &FIVE, &right)?.entry(0, 0).code())
}

#[test]
fn a_product_over_many_columns(rt: HostRuntime) -> Result<(), Fail> {
    assert!(rt; long_product(rt.alloc())? == 2);
    Ok(())
}

/// A matrix of three rows and two columns with rows and columns exchanged.
fn turned(alloc: Global) -> Result<Matrix, MatrixError> {
    let entries = [(0, 0, 2), (2, 0, 1), (0, 1, 3)];
    Ok(Matrix::from_entries(alloc, &FIVE, 3, 2, &entries)?.transpose(alloc)?)
}

#[test]
fn rows_and_columns_exchanged(rt: HostRuntime) -> Result<(), Fail> {
    let turned = turned(rt.alloc())?;
    assert!(rt; turned.rows() == 2 && turned.columns() == 3);
    assert!(rt;
        is(turned.column(0), &[(0, 2), (1, 3)])
            && is(turned.column(1), &[])
            && is(turned.column(2), &[(0, 1)])
    );
    Ok(())
}

#[test]
fn a_matrix_hands_out_its_columns(rt: HostRuntime) -> Result<(), Fail> {
    let columns = turned(rt.alloc())?.into_columns();
    assert!(rt; columns.len() == 3 && is(&columns[0], &[(0, 2), (1, 3)]) && is(&columns[1], &[]));
    Ok(())
}

/// Entries of a chain, and what the chain above has at six places once it gained that one twice.
const GAINS: [([(u32, u8); 2], [u8; 6]); 4] = [
    ([(31, 1), (40, 4)], [0, 1, 3, 4, 2, 2]),
    ([(9, 3), (30, 4)], [0, 1, 3, 0, 0, 0]),
    ([(10, 1), (30, 1)], [0, 1, 3, 4, 4, 0]),
    ([(1, 1), (2, 2)], [2, 0, 3, 4, 2, 0]),
];

/// The codes at six places of the chain that gained another twice.
fn codes_with(alloc: Global, entries: &[(u32, u8); 2]) -> Result<[u8; 6], MatrixError> {
    let chain = Chain::from_entries(alloc, &FIVE, &MANY)?;
    let other = Chain::from_entries(alloc, &FIVE, entries)?;
    let sum = chain.add_scaled(alloc, &FIVE, Scalar::of(2), &other)?;
    Ok([1, 2, 7, 9, 30, 31].map(|place| sum.entry(place).code()))
}

#[test]
fn a_chain_gains_another(rt: HostRuntime) -> Result<(), Fail> {
    for (entries, codes) in &GAINS {
        assert!(rt; codes_with(rt.alloc(), entries)? == *codes);
    }
    Ok(())
}
