//! Tests of the units, the translations and the sessions of developments in B0: an implementation with an array, a local and a
//! loop, and random ones, whose code is compared with what their statements mean.
#![tactic(auto)]

#[cfg(test)]
mod components;
#[cfg(test)]
mod drawing;
#[cfg(test)]
mod draws;
#[cfg(test)]
mod exchange;
#[cfg(test)]
mod family;
#[cfg(test)]
mod parts;
#[cfg(test)]
mod random;
#[cfg(test)]
mod runs;
#[cfg(test)]
mod sessions;
#[cfg(test)]
mod table;
