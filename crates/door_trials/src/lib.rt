//! Tests alone: doors in memory and over TCP, clocks and gates at concrete types, and what of them crosses threads.
#![tactic(auto)]

#[cfg(test)]
mod doors;
