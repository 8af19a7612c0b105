//! Tests alone: the agent that serves, over memory with two workers, and over sockets of the loopback.
#![tactic(auto)]

#[cfg(test)]
mod caller;
#[cfg(test)]
mod faults;
#[cfg(test)]
mod frames;
#[cfg(test)]
mod loopback;
#[cfg(test)]
mod serving;
#[cfg(test)]
mod tally;
#[cfg(test)]
mod turnstile;
