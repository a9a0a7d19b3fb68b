//! Which connections wait for room to stage a body, in the order in which they began to. No contract speaks
//! of them: a turn that stages nothing is a turn as every other.

use std::alloc::{AllocError, Global};

/// The connections that wait for room to stage a body.
#[derive(Drop)]
pub struct Waiting {
    /// Their numbers, in the order in which they began to wait.
    numbers: Vec<u64>,
    /// Since the first of them was tried last, room may have been made, or another one has become the first.
    due: bool,
}

impl Waiting {
    /// None; takes no memory.
    pub fn new(alloc: Global) -> Waiting {
        Waiting {
            numbers: Vec::new(alloc),
            due: false,
        }
    }

    /// Makes sure that so many can wait.
    pub fn reserve(&mut self, count: usize) -> Result<(), AllocError> {
        self.numbers.reserve(count)
    }

    /// Whether a connection may take room: none waits, or it is the first of them.
    pub fn may_take(&self, number: u64) -> bool {
        match self.numbers.first() {
            Some(first) => *first == number,
            None => true,
        }
    }

    /// A stage was let go.
    pub fn note_room(&mut self) {
        self.due = true;
    }

    /// A connection does not wait, or not any more.
    pub fn remove(&mut self, number: u64) {
        let before = self.numbers.len();
        if before == 0 {
            return;
        }
        self.numbers.retain(|waiting| *waiting != number);
        self.due = self.due || self.numbers.len() < before;
    }

    /// What a connection does behind a turn: whether it waits, and whether it let a stage go.
    pub fn note_turn(&mut self, number: u64, waits: bool, let_go: bool) {
        self.due = self.due || let_go;
        if !waits {
            self.remove(number);
        } else if !self.numbers.contains(&number) {
            // (there is room for it since it came)
            let _ = self.numbers.push(number);
        }
    }

    /// The first of them, where room may have been made since it was tried last.
    pub fn take_due(&mut self) -> Option<u64> {
        if !self.due {
            return None;
        }
        self.due = false;
        self.numbers.first().copied()
    }
}
