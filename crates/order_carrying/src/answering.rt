//! An order carried out over a service that goes on, and answered.
ghost use Rattle.std.specs.Prelude.{◌≡◌, IfOk, OnErr};
ghost use Rattle.order_carrying.specs.Answering.{IsAnswered, AnswersLine, IsOneStep};

use crate::carrying::carry_over;
use order_texts::{Unread, read_order, write_failure};
use registry_model::Keeper;
use registry_orders::{Failure, Order};
use registry_service::Service;
use std::alloc::{AllocError, Global};

/// Carries an order out, and gives the answer to it.
fn answer_order<K: Keeper>(
    alloc: Global,
    service: &mut Service<K>,
    order: &Order,
) -> Result<Vec<u8>, AllocError>
    ensures honest { K.is_honest service.new → K.is_honest service.old }
    ensures steps { K.is_honest service.new → IsOneStep (K.kept service.old) (K.kept service.new) }
    ensures answers { K.is_honest service.new → IfOk result (λ bytes.
        IsAnswered (K.kept service.old) order.now bytes.items (K.kept service.new)) }
    ensures unsaid { K.is_honest service.new → OnErr result (K.kept service.new ≡ K.kept service.old) }
{
    // What changes the registry is told in memory that is taken first.
    let lost = write_failure(alloc, Failure::StorageFailure)?;
    let mut answer = Vec::from_slice(alloc, b"0\n")?;
    match carry_over(alloc, service, order, &mut answer) {
        Ok(()) => Ok(answer),
        Err(failure) => match failure {
            Failure::StorageFailure => Ok(lost),
            // Memory was wanting for the table.
            Failure::ConnectionFailure => Err(AllocError),
            _ => write_failure(alloc, failure),
        },
    }
}

/// Carries out the order that a line spells, without the line's end, as one step of what the service does,
/// and gives the whole answer to it. A line that spells no order is answered as a command line that is not
/// read, and changes nothing, nor does one for which memory is wanting to read it. The error is that memory
/// for the answer is wanting, and then nothing has changed.
pub fn answer_line<K: Keeper>(
    alloc: Global,
    service: &mut Service<K>,
    line: &[u8],
) -> Result<Vec<u8>, AllocError>
    ensures honest { K.is_honest service.new → K.is_honest service.old }
    ensures steps { K.is_honest service.new → IsOneStep (K.kept service.old) (K.kept service.new) }
    ensures answers { K.is_honest service.new → IfOk result (λ bytes.
        AnswersLine (K.kept service.old) line.now bytes.items (K.kept service.new)) }
    ensures unsaid { K.is_honest service.new → OnErr result (K.kept service.new ≡ K.kept service.old) }
{
    match read_order(alloc, line) {
        Ok(order) => answer_order(alloc, service, &order),
        Err(Unread::Malformed) => write_failure(alloc, Failure::InvalidOptions),
        Err(Unread::Memory) => write_failure(alloc, Failure::OutOfMemory),
    }
}
