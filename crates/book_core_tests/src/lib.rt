//! Tests of the machine of indexes. Each is a page of steps and questions with the answers that the rules ask for, which a new
//! book must give back as it stands: whole sweeps in `worked`, steps that may not follow in `broken`, what occurs in
//! `occurring`, plans of writes in `planning`, replies to reads in `reading`, and as many schedules and groups as there may be in
//! `limits`.
#![tactic(auto)]

#[cfg(test)]
mod broken;
#[cfg(test)]
mod limits;
#[cfg(test)]
mod occurring;
#[cfg(test)]
mod planning;
#[cfg(test)]
mod playing;
#[cfg(test)]
mod reading;
#[cfg(test)]
mod worked;
