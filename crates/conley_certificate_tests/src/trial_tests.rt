//! Problems that are made for a number: how many parts they have, and analyses of them that are checked.

ghost use Rattle.std.specs.Prelude.{◌≤◌};

use conley_analysis::analyze;
use conley_checker::check;
use conley_trial::trial_problem;
use std::alloc::Global;
use std::test::Fail;

/// How many parts the problem of a number has.
fn part_count(alloc: Global, number: u32) -> Result<usize, Fail>
    requires some { 1 ≤ number }
    requires few { number ≤ 60 }
{
    let problem = trial_problem(alloc, number)?;
    Ok(problem.partition.count())
}

#[test]
fn parts_are_as_many_as_a_plain_program_makes(rt: HostRuntime) -> Result<(), Fail> {
    assert!(rt; part_count(rt.alloc(), 1)? == 5);
    assert!(rt; part_count(rt.alloc(), 3)? == 15);
    Ok(())
}

/// Whether an analysis of the problem of a number is accepted.
fn is_accepted(alloc: Global, number: u32) -> Result<bool, Fail>
    requires some { 1 ≤ number }
    requires few { number ≤ 60 }
{
    let problem = trial_problem(alloc, number)?;
    let certificate = analyze(alloc, &problem.complex, &problem.partition)?;
    let verdict = check(alloc, &problem.complex, &problem.partition, &certificate);
    Ok(verdict.is_ok())
}

#[test]
fn analyses_of_made_problems_are_accepted(rt: HostRuntime) -> Result<(), Fail> {
    assert!(rt; is_accepted(rt.alloc(), 1)?);
    assert!(rt; is_accepted(rt.alloc(), 21)?);
    Ok(())
}
