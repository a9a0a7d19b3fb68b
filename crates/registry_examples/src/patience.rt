//! What is done where the registry answers that memory was wanting.

use crate::serving::{Answer, Way};
use example_files::Asked;

/// How often what wants memory is asked again.
#[derive(Clone, Copy, Debug, PartialEq, Eq)]
pub enum Patience {
    None,
    Once,
}

/// The reply to a request for which memory was wanting, and what is written where there was none to
/// read the request.
const BUSY: &[u8] = b"HTTP/1.1 503 Service Unavailable\r\nContent-Length: 0\r\n\r\n";

const NO_BUFFER: &[u8] =
    b"HTTP/1.1 503 Service Unavailable\r\nContent-Length: 0\r\nConnection: close\r\n\r\n";

impl Patience {
    /// The ways in which connections are served over ordered maps: with patience the first alone, since each
    /// is as much memory that can be refused.
    pub fn ways(self) -> &'static [Way] {
        match self {
            Patience::None => &[Way::Whole, Way::InPieces, Way::InTurns],
            Patience::Once => &[Way::Whole],
        }
    }

    /// Whether an answer says that memory was wanting, and is to be asked for again.
    pub fn asks_again(self, asked: &Asked, answer: &Answer) -> bool {
        self == Patience::Once
            && match asked {
                Asked::Requests(_) => {
                    let bytes = answer.bytes.as_slice();
                    (bytes == BUSY && answer.end.as_str() == "Closed")
                        || (bytes == NO_BUFFER && answer.end.as_str() == "Refused(NoBufferMemory)")
                }
                Asked::Command(_) => answer.bytes.as_slice() == b"Memory\r\n".as_slice(),
                _ => false,
            }
    }
}
