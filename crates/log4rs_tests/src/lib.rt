//! Tests of shared loggers and their handles, of starting and reloading, and of the macros of `log`,
//! through public functions.
#![tactic(auto)]

#[cfg(test)]
mod beside;
#[cfg(test)]
mod handlers;
#[cfg(test)]
mod kept;
#[cfg(test)]
mod kinds;
#[cfg(test)]
mod macros;
#[cfg(test)]
mod notes;
#[cfg(test)]
mod origins;
#[cfg(test)]
mod own_log;
#[cfg(test)]
mod raced;
#[cfg(test)]
mod records;
#[cfg(test)]
mod reloaded;
#[cfg(test)]
mod reporter;
#[cfg(test)]
mod seats;
#[cfg(test)]
mod setup;
#[cfg(test)]
mod shared;
#[cfg(test)]
mod stepped;
#[cfg(test)]
mod swaps;
#[cfg(test)]
mod texts;
