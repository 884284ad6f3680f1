//! Tests of stores, paths, encoders, styled text and its writers, appenders, rolling and sessions,
//! through public functions.
#![tactic(auto)]

#[cfg(test)]
mod appends;
#[cfg(test)]
mod background;
#[cfg(test)]
mod builders;
#[cfg(test)]
mod consoles;
#[cfg(test)]
mod cores;
#[cfg(test)]
mod custom;
#[cfg(test)]
mod disk;
#[cfg(test)]
mod encoders;
#[cfg(test)]
mod encodings;
#[cfg(test)]
mod files;
#[cfg(test)]
mod flaky;
#[cfg(test)]
mod folders;
#[cfg(test)]
mod locks;
#[cfg(test)]
mod paths;
#[cfg(test)]
mod pieces;
#[cfg(test)]
mod rollers;
#[cfg(test)]
mod rolling;
#[cfg(test)]
mod script;
#[cfg(test)]
mod sessions;
#[cfg(test)]
mod setup;
#[cfg(test)]
mod stores;
#[cfg(test)]
mod sweeps;
#[cfg(test)]
mod triggers;
#[cfg(test)]
mod writers;
