//! Tests of a journal: its text, as it is written, byte for byte, as it is read, and as it was damaged; and its writer,
//! with a file that fails and one that forgets.
#![tactic(auto)]

#[cfg(test)]
mod damaged;
#[cfg(test)]
mod fakes;
#[cfg(test)]
mod writers;
#[cfg(test)]
mod written;
