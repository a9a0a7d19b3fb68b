//! What a repository holds after a write, by what was known of it.
ghost use Rattle.std.specs.Prelude.{◌≡◌, ◌+◌, ◌<◌, IfSome};
ghost use Rattle.registry_store.specs.Usages.{Applies, IsNext};

use registry_model::Usage;
use store_reads::Change;

/// So many, after some came and some went. `None` past 64 bits, and where more went than there were.
fn after(before: u64, come: u64, gone: u64) -> Option<u64>
    ensures { IfSome result (λ left. left + gone ≡ before + come) }
{
    match before.checked_add(come) {
        Some(all) => all.checked_sub(gone),
        None => None,
    }
}

/// What a repository of the usage holds after the change. `None` where one of its numbers cannot be.
fn changed(usage: Usage, change: Change) -> Option<Usage>
    requires { usage.used < 18446744073709551615 }
    ensures { IfSome result (λ v. Applies change usage v) }
{
    match (
        after(usage.used, change.added, change.gone),
        after(usage.blobs, change.blobs, change.blobs_gone),
        after(usage.manifests, change.manifests, change.manifests_gone),
        after(usage.tags, change.tags, change.tags_gone),
        after(usage.sessions, change.opened, change.ended),
    ) {
        (Some(used), Some(blobs), Some(manifests), Some(tags), Some(sessions)) => Some(Usage {
            used,
            quota: usage.quota,
            blobs,
            manifests,
            tags,
            sessions,
        }),
        _ => None,
    }
}

/// The same, where both are known. `None` also where the usage may stand for more bytes than it tells.
pub(crate) fn next_usage(usage: Option<Usage>, change: Option<Change>) -> Option<Usage>
    ensures { IfSome result (λ v. IsNext usage change v) }
{
    match (usage, change) {
        (Some(usage), Some(change)) if usage.used < u64::MAX => changed(usage, change),
        _ => None,
    }
}
