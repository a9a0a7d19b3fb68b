//! Tests of libraries over ordered maps, without a socket or a database: what connections are answered, one
//! and many at once, however their bytes are cut and wherever reads and writes fail, and who of them was
//! silent; runs; orders as lines; what is held beside a keeper; numbers and texts of the model.
#![tactic(auto)]

#[cfg(test)]
mod connections;
#[cfg(test)]
mod conversation;
#[cfg(test)]
mod cuts;
#[cfg(test)]
mod ends;
#[cfg(test)]
mod holding;
#[cfg(test)]
mod interleaved;
#[cfg(test)]
mod listing;
#[cfg(test)]
mod login;
#[cfg(test)]
mod messages;
#[cfg(test)]
mod model;
#[cfg(test)]
mod play;
#[cfg(test)]
mod runs;
#[cfg(test)]
mod sessions;
#[cfg(test)]
mod setting;
#[cfg(test)]
mod silence;
#[cfg(test)]
mod streams;
#[cfg(test)]
mod texts;
