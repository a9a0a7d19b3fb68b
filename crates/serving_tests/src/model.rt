//! Numbers, texts and copies of the model and of the names.

use crate::setting::same;
use crate::texts::ABC;
use oci_types::{Digest, Fault, NameFault, RepoName, Tag, Token};
use registry_model::quota::over_quota;
use registry_model::{Quota, Refusal};
use std::alloc::Global;
use std::fmt::Display;
use std::process::Abort;

#[test]
fn quotas_end_below_2_to_63(rt: HostRuntime) {
    for (place, (bytes, is_quota)) in [
        (0, true),
        (9_223_372_036_854_775_807, true),
        (9_223_372_036_854_775_808, false),
        (18_446_744_073_709_551_615, false),
    ]
    .iter()
    .enumerate()
    {
        same(&rt, place, Quota::new(*bytes).is_some(), *is_quota);
    }
}

/// Before, after, and whether that is over a quota of 10.
static USES: [(u64, u64, bool); 5] = [
    (0, 10, false),
    (0, 11, true),
    (10, 11, true),
    (11, 11, false),
    (12, 11, false),
];

#[test]
fn over_quota_is_more_than_before_and_than_the_quota(rt: HostRuntime) {
    let quota = Quota::new(10).expect(&rt, "a quota");
    for (place, (before, after, is_over)) in USES.iter().enumerate() {
        same(&rt, place, over_quota(*before, *after, quota), *is_over);
    }
}

/// Refusals, their statuses, and how long their bodies are.
static REFUSALS: [(Refusal, u16, usize); 20] = [
    (Refusal::TokenRequired, 401, 63),
    (Refusal::NoEndpoint, 404, 64),
    (Refusal::InvalidName, 400, 72),
    (Refusal::MethodNotAllowed, 405, 66),
    (Refusal::AccessDenied, 403, 56),
    (Refusal::BlobUnknown, 404, 61),
    (Refusal::ManifestUnknown, 404, 69),
    (Refusal::UploadUnknown, 404, 70),
    (Refusal::InvalidDigest, 400, 65),
    (Refusal::DigestMismatch, 400, 72),
    (Refusal::ContentTooLarge, 413, 66),
    (Refusal::RangeLength, 400, 74),
    (Refusal::RangeOutOfOrder, 416, 74),
    (Refusal::InvalidRange, 400, 77),
    (Refusal::ManifestBlobUnknown, 404, 79),
    (Refusal::InvalidManifest, 400, 69),
    (Refusal::InvalidReference, 400, 70),
    (Refusal::QuotaExceeded, 403, 57),
    (Refusal::TooManyUploads, 429, 68),
    (Refusal::InvalidPageSize, 400, 65),
];

#[test]
fn refusals_have_statuses_and_bodies(rt: HostRuntime) {
    for (place, (refusal, code, length)) in REFUSALS.iter().enumerate() {
        same(&rt, place, refusal.status().code(), *code);
        same(&rt, place, refusal.body().len(), *length);
    }
}

/// Of a digest and of a repository's name.
#[test]
fn copies_of_names_are_equal(rt: HostRuntime) {
    let alloc = rt.alloc();
    let digest = Digest::parse(alloc, ABC).expect(&rt, "a digest");
    let copy = digest.clone().expect(&rt, "memory");
    same(&rt, 0, copy.as_str(), ABC);
    let name = RepoName::parse(alloc, "team/app").expect(&rt, "a name");
    let copy = name.clone().expect(&rt, "memory");
    same(&rt, 1, copy.as_str(), "team/app");
}

/// Of a tag and of a token.
#[test]
fn copies_of_words_are_equal(rt: HostRuntime) {
    let alloc = rt.alloc();
    let tag = Tag::parse(alloc, "latest").expect(&rt, "a tag");
    let copy = tag.clone().expect(&rt, "memory");
    same(&rt, 2, copy.as_str(), "latest");
    let token = Token::parse(alloc, "t1").expect(&rt, "a token");
    let copy = token.clone().expect(&rt, "memory");
    same(&rt, 3, copy.as_str(), "t1");
}

/// This is printed of it.
fn is_printed<T: Display>(rt: &impl Abort, alloc: Global, fault: &T, wanted: &str) {
    let text = format!(in alloc; "{fault}").expect(rt, "memory");
    same(rt, 0, text.as_str(), wanted);
}

#[test]
fn faults_have_texts_and_numbers(rt: HostRuntime) {
    let alloc = rt.alloc();
    let length = "the digest does not have the form of its algorithm";
    is_printed(&rt, alloc, &NameFault::DigestLength, length);
    is_printed(&rt, alloc, &Fault::Storage, "storage failed");
    same(&rt, 1, NameFault::Memory.number(), 7);
}
