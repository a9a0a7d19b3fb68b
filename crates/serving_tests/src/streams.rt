//! Readers and writers that cut, wait and fail.

use std::alloc::Global;
use std::io;
use std::io::{Read, Write};

/// Gives its bytes in reads of at most so many, and fails at a read once there were so many.
#[derive(Drop)]
pub struct Reads<'a> {
    pub left: &'a [u8],
    pub size: usize,
    /// How many bytes there are before a place that no read goes across; none where it is behind.
    pub cut: usize,
    /// How many reads succeed.
    pub room: usize,
}

impl<'a> Reads<'a> {
    /// Reads of at most so many bytes, none of which fails.
    pub fn of(left: &'a [u8], size: usize) -> Reads<'a> {
        Reads {
            left,
            size,
            cut: 0,
            room: usize::MAX,
        }
    }
}

impl Read for Reads<'_> {
    fn read(&mut self, buf: &mut [u8]) -> io::Result<usize> {
        if self.room == 0 {
            return Err(io::Error::from(io::ErrorKind::BrokenPipe));
        }
        self.room -= 1;
        let mut most = self.size.min(buf.len()).min(self.left.len());
        if self.cut > 0 {
            most = most.min(self.cut);
            self.cut -= most;
        }
        let (now, later) = self.left.split_at(most);
        for (place, byte) in buf.iter_mut().zip(now.iter()) {
            *place = *byte;
        }
        self.left = later;
        Ok(most)
    }
}

/// Takes so many bytes, at most so many a call, and then fails or takes no more.
#[derive(Drop)]
pub struct Writes {
    pub room: usize,
    pub size: usize,
    pub fails: bool,
    pub taken: Vec<u8>,
}

impl Write for Writes {
    fn write(&mut self, buf: &[u8]) -> io::Result<usize> {
        if self.room == 0 && self.fails {
            return Err(io::Error::from(io::ErrorKind::BrokenPipe));
        }
        let most = self.size.min(self.room).min(buf.len());
        let (now, _) = buf.split_at(most);
        self.taken.extend_from_slice(now)?;
        self.room -= most;
        Ok(most)
    }

    fn flush(&mut self) -> io::Result<()> {
        Ok(())
    }
}
