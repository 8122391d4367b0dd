//! Tests of the drive, of a port and of scripts against the standards: what no clause says and no run of the program
//! can say, and values that come from outside.
#![tactic(auto)]

#[cfg(test)]
mod port_steps;
#[cfg(test)]
mod queue;
#[cfg(test)]
mod streams;
