ghost use Rattle.std.specs.Prelude.{◌≡◌, OnOk, IfErr};
ghost use Rattle.std.specs.Io.KnownBytes.{Appends};
ghost use Rattle.order_carrying.specs.Listed.{IsListText};
ghost use Rattle.registry_orders.specs.Failures.{IsOfOrder};
ghost use Rattle.registry_orders.specs.Orders.{Obeys};
ghost use Rattle.registry_orders.specs.Outputs.{output, AppendsPart};
ghost use Rattle.order_carrying.specs.Carrying.{Shows, ShowsList, CarriesOrder, IsSilentUnlessBroken};

use crate::list_text;
use oci_types::Fault;
use order_texts::table_of;
use registry_model::Keeper;
use registry_orders::failure::of_command;
use registry_orders::output::write_text;
use registry_orders::{Change, Failure, Form, Listing, Order};
use registry_service::Service;
use std::alloc::Global;
use std::io::Write;

/// How an order ended, and the keeper behind it.
#[derive(Drop)]
pub struct Ended<K: Keeper> {
    pub keeper: K,
    /// What failed, if anything did.
    pub carried: Result<(), Failure>,
}

/// Makes a change.
#[tactic(auto, using(crate::proofs::OrderStatuses::of_fault))]
fn make_change<K: Keeper>(
    alloc: Global,
    service: &mut Service<K>,
    change: &Change,
) -> Result<(), Failure>
    ensures honest { K.is_honest service.new → K.is_honest service.old }
    ensures obeys { K.is_honest service.new
        → Obeys (K.kept service.old) change.now result (K.kept service.new) }
    ensures told { IfErr result IsOfOrder }
{
    match service.admin(alloc, &change.command()) {
        Ok(()) => Ok(()),
        Err(fault) => Err(of_command(fault)),
    }
}

/// Writes a text. Where that fails, a first part of it was written.
fn show<W: Write>(out: &mut W, text: &str) -> Result<(), Failure>
    ensures written { OnOk result (Appends (W.contents out.old) (W.contents out.new) text.now) }
    ensures part { AppendsPart (W.contents out.old) (W.contents out.new) text.now }
    ensures fails { IfErr result (λ failure. failure ≡ Failure.ConnectionFailure) }
{
    match write_text(out, text.as_bytes()) {
        Ok(()) => Ok(()),
        Err(_) => Err(Failure::ConnectionFailure),
    }
}

/// Writes what each repository holds and may hold.
fn show_usage<K: Keeper, W: Write>(
    alloc: Global,
    service: &mut Service<K>,
    out: &mut W,
) -> Result<(), Failure>
    ensures honest { K.is_honest service.new → K.is_honest service.old }
    ensures shows { K.is_honest service.new
        → Shows (K.kept service.old) result
        (output (W.contents out.old) (W.contents out.new)) (K.kept service.new) }
    ensures silent { IsSilentUnlessBroken result (output (W.contents out.old) (W.contents out.new)) }
    ensures told { IfErr result IsOfOrder }
{
    match service.usages(alloc) {
        Ok(usages) => match table_of(alloc, usages.as_slice()) {
            Ok(table) => show(out, table.as_str()),
            Err(_) => Err(Failure::OutOfMemory),
        },
        Err(Fault::Memory) => Err(Failure::OutOfMemory),
        Err(Fault::Storage) => Err(Failure::StorageFailure),
    }
}

/// Writes a list.
fn show_list<K: Keeper, W: Write>(
    alloc: Global,
    service: &mut Service<K>,
    listing: &Listing,
    form: Form,
    out: &mut W,
) -> Result<(), Failure>
    ensures honest { K.is_honest service.new → K.is_honest service.old }
    ensures shows { K.is_honest service.new
        → ShowsList (K.kept service.old) (IsListText (K.kept service.old).world listing.now form) result
        (output (W.contents out.old) (W.contents out.new)) (K.kept service.new) }
    ensures silent { IsSilentUnlessBroken result (output (W.contents out.old) (W.contents out.new)) }
    ensures told { IfErr result IsOfOrder }
{
    match list_text(alloc, service, listing, form) {
        Ok(Some(text)) => show(out, text.as_str()),
        Ok(None) => Err(Failure::NoRepo),
        Err(Fault::Memory) => Err(Failure::OutOfMemory),
        Err(Fault::Storage) => Err(Failure::StorageFailure),
    }
}

/// Carries out an order over a service that goes on. An order that is refused changes nothing, nor does
/// one for which memory is wanting. `NoRepo` where the repository of a list is not there;
/// `ConnectionFailure` where `out` takes the table of `Order::Usage` or the text of `Order::List` not whole,
/// but a first part of it; nothing else is written.
pub fn carry_over<K: Keeper, W: Write>(
    alloc: Global,
    service: &mut Service<K>,
    order: &Order,
    out: &mut W,
) -> Result<(), Failure>
    ensures honest { K.is_honest service.new → K.is_honest service.old }
    ensures carries { K.is_honest service.new
        → CarriesOrder (K.kept service.old) order.now result
        (output (W.contents out.old) (W.contents out.new)) (K.kept service.new) }
    ensures silent { IsSilentUnlessBroken result (output (W.contents out.old) (W.contents out.new)) }
    ensures told { IfErr result IsOfOrder }
{
    match order {
        Order::Change(change) => make_change(alloc, service, change),
        Order::Usage => show_usage(alloc, service, out),
        Order::List { listing, form } => show_list(alloc, service, listing, *form, out),
    }
}

/// Carries out an order over a keeper, likewise, and gives the keeper back, and what failed.
pub fn carry_out<K: Keeper, W: Write>(
    alloc: Global,
    keeper: K,
    order: &Order,
    out: &mut W,
) -> Ended<K>
    ensures honest { K.is_honest result.keeper → K.is_honest keeper }
    ensures carries { K.is_honest result.keeper
        → CarriesOrder (K.kept keeper) order.now result.carried
        (output (W.contents out.old) (W.contents out.new)) (K.kept result.keeper) }
    ensures silent { IsSilentUnlessBroken result.carried (output (W.contents out.old) (W.contents out.new)) }
    ensures told { IfErr result.carried IsOfOrder }
{
    let mut service = Service::new(keeper);
    let carried = carry_over(alloc, &mut service, order, out);
    Ended {
        keeper: service.into_keeper(),
        carried,
    }
}
