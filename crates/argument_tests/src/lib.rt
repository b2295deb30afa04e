//! Tests of the program's command line: how it is read and refused.
#![tactic(auto)]

#[cfg(test)]
mod command_lines;
