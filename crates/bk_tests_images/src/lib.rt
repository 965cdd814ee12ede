//! Tests of images and of the machine that runs them, and of what stands lowest beside them: devices, ends of lines and
//! numbered names.
#![tactic(auto)]

#[cfg(test)]
mod devices;
#[cfg(test)]
mod encoding;
#[cfg(test)]
mod execution;
#[cfg(test)]
mod line_ends;
#[cfg(test)]
mod lists;
#[cfg(test)]
mod loading;
#[cfg(test)]
mod numbering;
#[cfg(test)]
mod ranges;
