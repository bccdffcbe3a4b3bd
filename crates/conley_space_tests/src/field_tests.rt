use conley_field::{AnyField, Field, PrimeField, Scalar};
use std::test::Fail;

/// The codes of what each operation gives for 2 and 3, in a field where the two differ from each other and from zero.
fn codes_at_two_and_three<F: Field>(field: &F) -> Option<[u8; 8]> {
    let two = field.from_code(2)?;
    let three = field.from_code(3)?;
    Some([
        field.order(),
        field.zero().code(),
        field.one().code(),
        field.from_int(-1).code(),
        field.add(two, three).code(),
        field.neg(two).code(),
        field.mul(two, three).code(),
        field.inv(two).code(),
    ])
}

/// The orders of the table.
const ORDERS: [u32; 11] = [2, 3, 5, 7, 11, 13, 17, 19, 23, 29, 31];

/// Orders of no field of the table.
const NONE: [u32; 8] = [0, 1, 4, 6, 9, 32, 37, 257];

#[test]
fn orders_of_the_table(rt: HostRuntime) {
    assert!(rt; ORDERS.iter().all(|n| PrimeField::of(*n).is_some() && AnyField::of(*n).is_some()));
    assert!(rt; NONE.iter().all(|n| PrimeField::of(*n).is_none() && AnyField::of(*n).is_none()));
}

/// Orders, and the codes of small sums and products.
const CODES: [(u32, [u8; 8]); 3] = [
    (5, [5, 0, 1, 4, 0, 3, 1, 3]),
    (7, [7, 0, 1, 6, 5, 5, 6, 4]),
    (31, [31, 0, 1, 30, 5, 29, 6, 16]),
];

#[test]
fn codes_of_small_sums_and_products(rt: HostRuntime) -> Result<(), Fail> {
    for (order, codes) in &CODES {
        let prime = PrimeField::of(*order).ok_or("a prime")?;
        let any = AnyField::of(*order).ok_or("a prime")?;
        let found = [codes_at_two_and_three(&prime), codes_at_two_and_three(&any)];
        assert!(rt;
            found == [Some(*codes), Some(*codes)] && any == AnyField::Prime(prime),
            "{order}"
        );
    }
    Ok(())
}

#[test]
fn codes_out_of_range(rt: HostRuntime) -> Result<(), Fail> {
    let three = PrimeField::of(3).ok_or("a prime")?;
    assert_eq!(rt; [-1, 7, -6].map(|n| three.from_int(n).code()), [2, 1, 0]);
    let five = AnyField::of(5).ok_or("a prime")?;
    assert!(rt; five.from_code(5).is_none() && five.from_code(4) == Some(Scalar::of(4)));
    assert_eq!(rt; five.inv(Scalar::of(2)).code(), 3);
    Ok(())
}
