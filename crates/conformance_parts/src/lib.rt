//! Tests of the crates below the drive against the standards: what no clause says, and values that come
//! from outside.
#![tactic(auto)]

#[cfg(test)]
mod audit_lines;
#[cfg(test)]
mod commands;
#[cfg(test)]
mod damage;
#[cfg(test)]
mod fises;
#[cfg(test)]
mod frames;
#[cfg(test)]
mod memory;
#[cfg(test)]
mod profiles;
#[cfg(test)]
mod registers;
#[cfg(test)]
mod tables;
#[cfg(test)]
mod tokens;
