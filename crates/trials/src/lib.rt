//! Tests alone, of what no case as data reaches: sources, sinks and files in memory, the files of the system, the
//! table of transactions, the index of deadlines, the list of applications, and generic calls at types of the lowest crates. Cases as data are
//! run by the crate `cases`.
#![tactic(auto)]

#[cfg(test)]
mod applications;
#[cfg(test)]
mod deadlines;
#[cfg(test)]
mod hall;
#[cfg(test)]
mod memory;
#[cfg(test)]
mod readings;
#[cfg(test)]
mod real;
#[cfg(test)]
mod steps;
#[cfg(test)]
mod values;
