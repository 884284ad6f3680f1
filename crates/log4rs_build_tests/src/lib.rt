//! Tests of trees, settings, sizes, intervals, durations, formats and reloads, of building
//! configurations from texts, with their errors and with handed-in components, and of what a program
//! starts with: real files as sources, printed refusals, arguments, the environment and the system's
//! time zone; through public functions.
#![tactic(auto)]

#[cfg(test)]
mod faults;
#[cfg(test)]
mod files;
#[cfg(test)]
mod formats;
#[cfg(test)]
mod handed;
#[cfg(test)]
mod kept;
#[cfg(test)]
mod measures;
#[cfg(test)]
mod parts;
#[cfg(test)]
mod plans;
#[cfg(test)]
mod printed;
#[cfg(test)]
mod process;
#[cfg(test)]
mod refilled;
#[cfg(test)]
mod reload;
#[cfg(test)]
mod rows;
#[cfg(test)]
mod sample;
#[cfg(test)]
mod setup;
#[cfg(test)]
mod shown;
#[cfg(test)]
mod steps;
#[cfg(test)]
mod tops;
#[cfg(test)]
mod trees;
#[cfg(test)]
mod warnings;
#[cfg(test)]
mod zones;
