//! The text of a list.
ghost use Rattle.registry_model.specs.Keeping.{ReadsSo, Spends};
ghost use Rattle.order_carrying.specs.Listed.{AreListed, IsListText};
ghost use Rattle.order_carrying.specs.Reading.{items_if, TellsText};

use crate::grants::grants;
use crate::reading::{held, repos};
use oci_types::Fault;
use order_texts::{Item, text_of};
use registry_model::Keeper;
use registry_orders::{Form, Listing};
use registry_service::Service;
use std::alloc::Global;

/// The items of a list; none of a repository that is not there.
fn items<K: Keeper>(
    alloc: Global,
    service: &mut Service<K>,
    listing: &Listing,
) -> Result<Option<Vec<Item>>, Fault>
    ensures found { K.is_honest service.new
        → ReadsSo (λ items. AreListed (K.kept service.old).world listing.now (items_if items)) result
        (K.kept service.old) (K.kept service.new) }
    ensures spends { Spends result (K.kept service.old) (K.kept service.new) }
    ensures honest { K.is_honest service.new → K.is_honest service.old }
{
    match listing {
        Listing::Repos => repos(alloc, service),
        Listing::InRepo { name, what } => {
            if service.has_repo(name)? {
                held(alloc, service, name, *what)
            } else {
                Ok(None)
            }
        }
        Listing::Grants { name, token, shown } => grants(alloc, service, name, token, *shown),
    }
}

/// The text of a list: its lines, or its JSON array and a line's end. None where the list is of a
/// repository that is not there. Nothing changes.
pub fn list_text<K: Keeper>(
    alloc: Global,
    service: &mut Service<K>,
    listing: &Listing,
    form: Form,
) -> Result<Option<String>, Fault>
    ensures found { K.is_honest service.new
        → TellsText result (IsListText (K.kept service.old).world listing.now form)
        (K.kept service.old) (K.kept service.new) }
    ensures spends { Spends result (K.kept service.old) (K.kept service.new) }
    ensures honest { K.is_honest service.new → K.is_honest service.old }
{
    match items(alloc, service, listing)? {
        Some(items) => Ok(Some(text_of(alloc, &items, form)?)),
        None => Ok(None),
    }
}
