//! Bytes of blobs that were read last, held so that the next readers need not read them again. No contract
//! speaks of them.

use std::alloc::Global;
use std::collections::VecDeque;
use std::rc::Rc;

/// At most so many bytes together, in the order in which they were read.
#[derive(Drop)]
pub struct Recent {
    list: VecDeque<Rc<Vec<u8>>>,
    bytes: usize,
    most: usize,
}

impl Recent {
    /// None; takes no memory.
    pub fn new(alloc: Global, most: usize) -> Recent {
        Recent {
            list: VecDeque::new(alloc),
            bytes: 0,
            most,
        }
    }

    /// Lets all of them go.
    pub fn forget(&mut self) {
        self.list.clear();
        self.bytes = 0;
    }

    /// Lets those go that were read first, until there is room for so many bytes.
    fn make_room(&mut self, size: usize) {
        for _ in 0..self.list.len() {
            if self.bytes <= self.most.saturating_sub(size) {
                return;
            }
            if let Some(first) = self.list.pop_front() {
                self.bytes = self.bytes.saturating_sub(first.len());
            }
        }
    }

    /// Holds bytes that were read, unless they are more than may be held, or memory is wanting.
    pub fn hold(&mut self, bytes: &Rc<Vec<u8>>) {
        let size = bytes.len();
        if size > self.most {
            return;
        }
        self.make_room(size);
        if let Ok(bytes) = bytes.clone() {
            if self.list.push_back(bytes).is_ok() {
                self.bytes = self.bytes.saturating_add(size);
            }
        }
    }
}
