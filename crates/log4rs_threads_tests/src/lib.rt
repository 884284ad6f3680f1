//! Tests of configurations, routing, delivery, doors, journals, swaps beside records, publishers
//! with their sessions, and worlds, through public functions.
#![tactic(auto)]

#[cfg(test)]
mod beside;
#[cfg(test)]
mod building;
#[cfg(test)]
mod cores;
#[cfg(test)]
mod delivery;
#[cfg(test)]
mod doors;
#[cfg(test)]
mod governed;
#[cfg(test)]
mod journaled;
#[cfg(test)]
mod journals;
#[cfg(test)]
mod refused;
#[cfg(test)]
mod schedules;
#[cfg(test)]
mod sessions;
#[cfg(test)]
mod shapes;
#[cfg(test)]
mod swapped;
