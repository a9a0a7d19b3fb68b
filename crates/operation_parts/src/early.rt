//! What an operation answers before it is done. Each function makes one end of the two or three that a look
//! or a change has.

ghost use Rattle.std.specs.Prelude.{◌≡◌};
ghost use Rattle.operation_parts.specs.Early.{FoundOr, IsWithin, after};

use oci_types::Fault;
use registry_model::{Refusal, Reply};

/// What was looked for; or what is answered in its place, the refusal or the fault.
pub fn found_or<T>(
    looked: Result<Option<T>, Fault>,
    refusal: Refusal,
) -> Result<T, Result<Reply, Fault>>
    ensures { FoundOr refusal looked result }
{
    match looked {
        Ok(Some(found)) => Ok(found),
        Ok(None) => Err(Ok(Reply::refusal(refusal))),
        Err(fault) => Err(Err(fault)),
    }
}

/// What is answered where a change goes over the quota, or where that could not be told.
pub fn within_quota(over: Result<bool, Fault>) -> Result<(), Result<Reply, Fault>>
    ensures { IsWithin over result }
{
    match over {
        Ok(false) => Ok(()),
        Ok(true) => Err(Ok(Reply::refusal(Refusal::QuotaExceeded))),
        Err(fault) => Err(Err(fault)),
    }
}

/// The reply to what was done, or the fault for which it was not.
pub fn after<T: Drop>(done: Result<T, Fault>, reply: Reply) -> Result<Reply, Fault>
    ensures { result ≡ after done reply }
{
    match done {
        Ok(_) => Ok(reply),
        Err(fault) => Err(fault),
    }
}
