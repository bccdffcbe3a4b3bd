//! Tests of problem files, of certificates, and of the analyses that these tell, a module a library. Expected values were worked out by hand.
#![tactic(auto)]

#[cfg(test)]
mod analysis_tests;
#[cfg(test)]
mod certificate_file_tests;
#[cfg(test)]
mod checker_tests;
#[cfg(test)]
mod complexes;
#[cfg(test)]
mod equivalence_tests;
#[cfg(test)]
mod input_tests;
#[cfg(test)]
mod matrices;
#[cfg(test)]
mod trial_tests;
#[cfg(test)]
mod uses_tests;
