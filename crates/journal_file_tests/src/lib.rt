//! Tests of `journal_file`: what stands in a file after appends that are stopped, or of which one call fails, at each call
//! of the disk; journals from elsewhere, sound and damaged; and a file of the machine.
#![tactic(auto)]

#[cfg(test)]
mod appends;
#[cfg(test)]
mod journals;
#[cfg(test)]
mod real_files;
#[cfg(test)]
mod samples;
