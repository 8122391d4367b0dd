//! A controller as a program: a host writes registers and lends its memory in lines over standard streams.
#![tactic(auto)]

pub mod hba_lines;
pub mod hba_tool;
pub mod hba_wire;
