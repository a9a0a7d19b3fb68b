//! The levels of tokens on repositories, read of a service.
ghost use Rattle.std.specs.Option.{IsSomeAnd};
ghost use Rattle.std.specs.FinMap.{keys};
ghost use Rattle.registry_model.specs.Keeping.{ReadsSo, Spends};
ghost use Rattle.order_texts.specs.Items.{items_shown};
ghost use Rattle.order_carrying.specs.Grants.{AreGrantsOn, AreGrantsOver, AreGrantsOf};
ghost use Rattle.order_carrying.specs.Reading.{items_if};

use oci_types::{Fault, RepoName, Token};
use order_texts::{Item, grants_of, items_of_grants};
use registry_model::Keeper;
use registry_orders::Shown;
use registry_service::Service;
use std::alloc::Global;

/// The levels on one repository, in byte order of their tokens; none where it is not there.
fn on_one<K: Keeper>(
    alloc: Global,
    service: &mut Service<K>,
    name: &RepoName,
    asked: &Option<Token>,
    shown: Shown,
) -> Result<Vec<Item>, Fault>
    ensures found { K.is_honest service.new → ReadsSo
        (λ items. AreGrantsOn (K.kept service.old).world name.now asked.now shown (items_shown items))
        result (K.kept service.old) (K.kept service.new) }
    ensures spends { Spends result (K.kept service.old) (K.kept service.new) }
    ensures honest { K.is_honest service.new → K.is_honest service.old }
{
    let levels = service.levels(alloc, name)?;
    match grants_of(alloc, name, &levels, asked, shown) {
        Ok(items) => Ok(items),
        Err(_) => Err(Fault::Memory),
    }
}

/// The levels on each repository, in byte order of the names: one read tells all of them.
fn on_all<K: Keeper>(
    alloc: Global,
    service: &mut Service<K>,
    asked: &Option<Token>,
    shown: Shown,
) -> Result<Option<Vec<Item>>, Fault>
    ensures found { K.is_honest service.new → ReadsSo
        (λ items. let w = (K.kept service.old).world in
        IsSomeAnd (items_if items) (AreGrantsOver w (keys w.repos) asked.now shown))
        result (K.kept service.old) (K.kept service.new) }
    ensures spends { Spends result (K.kept service.old) (K.kept service.new) }
    ensures honest { K.is_honest service.new → K.is_honest service.old }
{
    let grants = service.grants(alloc)?;
    match items_of_grants(alloc, &grants, asked, shown) {
        Ok(items) => Ok(Some(items)),
        Err(_) => Err(Fault::Memory),
    }
}

/// The levels on the repository of a name, or on all; none where the one of the name is not there.
pub fn grants<K: Keeper>(
    alloc: Global,
    service: &mut Service<K>,
    name: &Option<RepoName>,
    asked: &Option<Token>,
    shown: Shown,
) -> Result<Option<Vec<Item>>, Fault>
    ensures found { K.is_honest service.new → ReadsSo
        (λ items. AreGrantsOf (K.kept service.old).world name.now asked.now shown (items_if items))
        result (K.kept service.old) (K.kept service.new) }
    ensures spends { Spends result (K.kept service.old) (K.kept service.new) }
    ensures honest { K.is_honest service.new → K.is_honest service.old }
{
    match name {
        Some(name) => {
            if !service.has_repo(name)? {
                return Ok(None);
            }
            Ok(Some(on_one(alloc, service, name, asked, shown)?))
        }
        None => on_all(alloc, service, asked, shown),
    }
}
