//! Whole runs of `trial K`.

use crate::running::{Answer, said};
use conley_outside::MemoryDepot;
use conley_tool::Outcome;
use std::alloc::{AllocError, Global};
use std::test::Fail;

/// What the words say over a depot without files.
fn told(alloc: Global, texts: &[&str]) -> Result<Answer, AllocError> {
    let mut depot = MemoryDepot::new(alloc);
    said(alloc, texts, &mut depot, 400, 7)
}

#[test]
fn the_summary_of_the_unit_square_is_printed(rt: HostRuntime) -> Result<(), Fail> {
    let answer = told(rt.alloc(), &["trial", "1"])?;
    assert!(rt; answer.is(0, "cells 9\nmorse 2\nindex 1 1 1\neuler 1\nentries 1\n", ""));
    Ok(())
}

/// Words with another number than one from 1 to 60.
const OTHERS: [&[&str]; 8] = [
    &["trial"],
    &["trial", "0"],
    &["trial", "61"],
    &["trial", "01"],
    &["trial", "+1"],
    &["trial", "x"],
    &["trial", ""],
    &["trial", "1", "2"],
];

#[test]
fn other_words_are_usage(rt: HostRuntime) -> Result<(), Fail> {
    for texts in &OTHERS {
        let answer = told(rt.alloc(), texts)?;
        assert!(rt; answer.outcome == Outcome::Usage && answer.out.written().is_empty());
    }
    Ok(())
}

/// The numbers of a line that begins with a word.
fn numbers_of(alloc: Global, line: &str, word: &str) -> Result<Vec<u32>, Fail> {
    let mut words = line.split(' ');
    if words.next() != Some(word) {
        return Err("another word".into());
    }
    let mut numbers = Vec::new(alloc);
    for number in words {
        numbers.push(number.parse()?)?;
    }
    Ok(numbers)
}

/// The numbers of a line of indices in three dimensions, each second one taken away.
fn alternating_sum(alloc: Global, line: &str) -> Result<Option<i64>, Fail> {
    let sums = numbers_of(alloc, line, "index")?;
    if sums.len() != 3 {
        return Ok(None);
    }
    Ok(Some(i64::from(sums[0]) - i64::from(sums[1]) + i64::from(sums[2])))
}

/// Whether a text is the five lines of a summary of the grid of 21 by 21 squares, with 1 as its number of Euler.
fn is_summary(alloc: Global, text: &[u8]) -> Result<bool, Fail> {
    let mut lines = str::from_utf8(text)?.lines();
    Ok(
        lines.next() == Some("cells 1849")
            && numbers_of(alloc, lines.next().unwrap_or(""), "morse")?.len() == 1
            && alternating_sum(alloc, lines.next().unwrap_or(""))? == Some(1)
            && lines.next() == Some("euler 1")
            && numbers_of(alloc, lines.next().unwrap_or(""), "entries")?.len() == 1,
    )
}

#[test]
fn the_indices_of_a_larger_grid_have_its_number_of_euler(rt: HostRuntime) -> Result<(), Fail> {
    let answer = told(rt.alloc(), &["trial", "21"])?;
    assert!(rt; answer.has_lines(5) && is_summary(rt.alloc(), answer.out.written())?);
    Ok(())
}

/// Whether two runs for a number say the same.
fn says_the_same(alloc: Global, number: &str) -> Result<bool, AllocError> {
    let first = told(alloc, &["trial", number])?;
    let second = told(alloc, &["trial", number])?;
    Ok(first.out.written() == second.out.written())
}

#[test]
fn a_number_has_one_summary(rt: HostRuntime) -> Result<(), Fail> {
    assert!(rt; says_the_same(rt.alloc(), "21")?);
    Ok(())
}
