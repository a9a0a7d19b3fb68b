ghost use Rattle.std.specs.Prelude.{◌≡◌, ◌≤◌, ◌<◌, IsNone, IsSomeAnd};
ghost use Rattle.registry_model.specs.Usage.{is_over};

use crate::limits::LARGEST_QUOTA;

/// The most bytes that a repository may use: 0 to 9,223,372,036,854,775,807 (profile).
#[derive(Clone, Copy)]
pub struct Quota {
    pub bytes: u64,
    ghost in_range: { bytes < 9223372036854775808 },
}

impl Quota {
    /// The quota of so many bytes, or `None` past 9,223,372,036,854,775,807.
    pub fn new(bytes: u64) -> Option<Quota>
        ensures within { bytes < 9223372036854775808 → IsSomeAnd result (λ q. q.bytes ≡ bytes) }
        ensures past { 9223372036854775808 ≤ bytes → IsNone result }
    {
        if bytes <= LARGEST_QUOTA {
            Some(Quota { bytes })
        } else {
            None
        }
    }
}

/// What a repository holds and may hold, in bytes and in numbers of things.
#[derive(Clone, Copy)]
pub struct Usage {
    pub used: u64,
    pub quota: u64,
    pub blobs: u64,
    pub manifests: u64,
    pub tags: u64,
    pub sessions: u64,
}

/// Whether a command that leads from `before` used bytes to `after` goes over the quota: it uses
/// more than before and more than the quota (profile).
pub fn over_quota(before: u64, after: u64, quota: Quota) -> bool
    ensures { result ≡ is_over before after quota.bytes }
{
    after > before && after > quota.bytes
}
