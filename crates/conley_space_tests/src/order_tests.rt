ghost use Rattle.std.specs.Prelude.{◌≡◌, [], ◌∷◌, IfOk};
ghost use Rattle.conley_lists.specs.Lists.{items_of};
ghost use Rattle.conley_order.specs.ClassRows.{ClassRows};

use conley_order::{
    Grading, ReachRows, has_bit, is_next, join_row, lower_rows, lower_still, same, set_bit,
    words_of,
};
use std::alloc::{AllocError, Global};
use std::test::Fail;

/// Three cells in two classes: 0 and 2 in class 0, and 1 in class 1, which is at or below class 0.
fn two_classes(alloc: Global) -> Result<ReachRows, AllocError>
    ensures { IfOk result (λ rows. rows.class_of ≡ 0 ∷ 1 ∷ 0 ∷ []) }
{
    let class_of = vec![in alloc; 0, 1, 0]?;
    Ok(ReachRows::from_rows(class_of, two_rows(alloc)?))
}

/// Two rows of bits: each class reaches itself, and class 0 reaches class 1.
fn two_rows(alloc: Global) -> Result<Vec<Vec<u64>>, AllocError>
    ensures { IfOk result (λ rows. items_of rows.items ≡ (3 ∷ []) ∷ (2 ∷ []) ∷ []) }
{
    let mut rows = Vec::new(alloc);
    rows.push(vec![in alloc; 3]?)?;
    rows.push(vec![in alloc; 2]?)?;
    Ok(rows)
}

#[test]
fn a_cell_has_a_class(rt: HostRuntime) -> Result<(), Fail> {
    let grading = two_classes(rt.alloc())?;
    assert!(rt; grading.cells() == 3 && grading.class_of(2) == 0);
    assert!(rt; grading.classes() == [0, 1, 0].as_slice());
    Ok(())
}

#[test]
fn a_bit_says_which_class_is_below(rt: HostRuntime) -> Result<(), Fail> {
    let grading = two_classes(rt.alloc())?;
    let below = [
        grading.below(0, 2),
        grading.below(1, 2),
        grading.below(2, 1),
        grading.below(1, 1),
    ];
    assert!(rt; below == [true, true, false, true]);
    assert!(rt; same(&grading, 0, 2) && !same(&grading, 0, 1));
    Ok(())
}

/// Of two cells, the second above the first: which are lower than the second with nothing between.
fn next_below_the_top(alloc: Global) -> Result<Option<[bool; 2]>, AllocError> {
    let grading = two_classes(alloc)?;
    let lower = lower_rows(alloc, &grading, &[1, 0])?;
    if lower.len() != 2 || lower[1].is_empty() {
        return Ok(None);
    }
    let still = lower_still(alloc, &lower, 1)?;
    if still.is_empty() {
        return Ok(None);
    }
    Ok(Some([is_next(&lower[1], &still, 0), is_next(&lower[1], &still, 1)]))
}

#[test]
fn what_is_lower_and_next(rt: HostRuntime) -> Result<(), Fail> {
    assert!(rt; next_below_the_top(rt.alloc())? == Some([true, false]));
    Ok(())
}

#[test]
fn marks_past_the_first_word_stand_in_the_next(rt: HostRuntime) -> Result<(), Fail> {
    let mut marks = vec![in rt.alloc(); false; 70]?;
    marks[1] = true;
    marks[69] = true;
    assert!(rt; words_of(rt.alloc(), &marks)?.as_slice() == [2, 32].as_slice());
    Ok(())
}

#[test]
fn bits_are_set_and_joined(rt: HostRuntime) {
    let mut words = [2u64, 0];
    set_bit(words.as_mut_slice(), 69);
    join_row(words.as_mut_slice(), &[4, 1]);
    assert!(rt; words == [6, 33] && has_bit(words.as_slice(), 69) && !has_bit(words.as_slice(), 0));
}
