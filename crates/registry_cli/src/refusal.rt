//! Why a registry of either layout is not opened, as the program tells it.
ghost use Rattle.registry_orders.specs.Failures.{IsOfOpening};

use layout_opening::LayoutFault;
use oci_types::Fault;
use registry_orders::{Cause, Failure};
use registry_pack::OpenError;
use registry_store::OpenFault;
use store_pack::PackFault;

/// A fault, and what is wrong with the path of the database where that is known by then.
#[derive(Clone, Copy)]
pub struct Refusal {
    pub fault: OpenFault,
    pub cause: Option<Cause>,
}

impl Refusal {
    /// The storage failed, for this cause.
    pub fn of_storage(cause: Option<Cause>) -> Refusal {
        Refusal {
            fault: OpenFault::Storage,
            cause,
        }
    }

    /// Memory was refused.
    pub fn of_memory() -> Refusal {
        Refusal {
            fault: OpenFault::Memory,
            cause: None,
        }
    }
}

/// What is wrong with a file of contents that is not the one of the rows.
fn refusal_of_file(error: OpenError) -> Refusal {
    match error {
        OpenError::Memory => Refusal::of_memory(),
        OpenError::Disk(_) => Refusal::of_storage(None),
        OpenError::Missing => Refusal::of_storage(Some(Cause::NoContents)),
        OpenError::Foreign => Refusal::of_storage(Some(Cause::ForeignContents)),
        OpenError::Newer => Refusal::of_storage(Some(Cause::NewerContents)),
        OpenError::Short => Refusal::of_storage(Some(Cause::ShortContents)),
    }
}

fn refusal_of_pack(fault: PackFault) -> Refusal {
    match fault {
        PackFault::Rows(Fault::Memory) => Refusal::of_memory(),
        PackFault::Rows(Fault::Storage) | PackFault::Unnamed | PackFault::Misplaced => {
            Refusal::of_storage(None)
        }
        PackFault::Pack(error) => refusal_of_file(error),
    }
}

/// Why a registry is not opened.
pub fn refusal_of(fault: LayoutFault<Refusal>) -> Refusal {
    match fault {
        LayoutFault::Tables(fault) => Refusal { fault, cause: None },
        LayoutFault::Pack(fault) => refusal_of_pack(fault),
        LayoutFault::File(refusal) => refusal,
    }
}

/// Why a database is not opened, as the program tells it.
pub fn failure_of(fault: OpenFault) -> Failure
    ensures { IsOfOpening result }
{
    match fault {
        OpenFault::Memory => Failure::OutOfMemory,
        OpenFault::Storage => Failure::StorageFailure,
        OpenFault::Schema(found) => Failure::Schema(found),
        OpenFault::NotARegistry => Failure::NotARegistry,
    }
}
