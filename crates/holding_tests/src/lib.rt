//! Tests of operations and requests whose bodies are staged, or were let fall, over ordered maps.
#![tactic(auto)]

#[cfg(test)]
mod gone;
#[cfg(test)]
mod meanwhile;
#[cfg(test)]
mod receiving;
#[cfg(test)]
mod requests;
#[cfg(test)]
mod sharing;
#[cfg(test)]
mod staged;
