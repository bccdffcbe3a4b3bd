//! Tests of the program below `main`: whole runs over files in memory, and the libraries of the outside and of JSON.
//! Runs are tables: a command, a file, and what stands on `out` and `err`; files.rt and refusals.rt have the files.
#![tactic(auto)]

#[cfg(test)]
mod analyze_runs;
#[cfg(test)]
mod check_runs;
#[cfg(test)]
mod field_runs;
#[cfg(test)]
mod files;
#[cfg(test)]
mod json_tests;
#[cfg(test)]
mod large_files;
#[cfg(test)]
mod morse_runs;
#[cfg(test)]
mod outside_tests;
#[cfg(test)]
mod refusals;
#[cfg(test)]
mod running;
#[cfg(test)]
mod runs;
#[cfg(test)]
mod sets_runs;
#[cfg(test)]
mod trial_runs;
