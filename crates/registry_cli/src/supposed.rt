//! What is supposed of files each time that they are opened.
use sqlite::{Start, Unknown};

/// Files of which the same is supposed each time that they are opened.
pub trait Supposed: Start {
    fn new() -> Self;
}

impl Supposed for Unknown {
    fn new() -> Unknown {
        Unknown
    }
}
