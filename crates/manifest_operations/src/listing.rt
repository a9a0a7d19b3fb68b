//! Pages of tags (OCI Distribution Specification 1.1, Listing Tags).

ghost use Rattle.std.specs.Prelude.{◌≡◌, MatchResult};
ghost use Rattle.registry_model.specs.Answer.{answer_of, owned};
ghost use Rattle.registry_model.specs.Ask.{text_in};
ghost use Rattle.registry_model.specs.Keeping.{Spends};
ghost use Rattle.registry_model.specs.TagPage.{size_in, text_or_empty, link_behind, tags_reply, list_tags};
ghost use Rattle.operation_parts.specs.Operating.{Operates, IsUnspent, HasRepo, Answers, Carries};

use oci_documents::tags_text;
use oci_types::{Fault, RepoName, Tag};
use registry_model::numbers::number;
use registry_model::{Body, Keeper, Refusal, Reply, Status, page_link};
use std::alloc::Global;

/// How many tags a page holds at most, if that is bounded; `None` where the text is no number.
fn page_size(n: Option<&str>) -> Option<Option<u64>>
    ensures { result ≡ size_in (text_in n.entry) }
{
    match n {
        None => Some(None),
        Some(text) => {
            if text.is_empty() {
                Some(None)
            } else {
                Some(Some(number(text.as_bytes())?))
            }
        }
    }
}

fn text_or_empty(text: Option<&str>) -> &str
    ensures { result.now ≡ text_or_empty (text_in text.entry) }
{
    match text {
        None => "",
        Some(text) => text,
    }
}

/// Where the next page begins, if more tags follow.
fn next_page(
    alloc: Global,
    name: &RepoName,
    n: Option<u64>,
    tags: &[Tag],
    more: bool,
) -> Result<Option<String>, Fault>
    ensures { MatchResult result
        (λ link. owned link ≡ link_behind name.now n (record { tags = tags.now; more = more }))
        (λ fault. fault ≡ Fault.Memory) }
{
    if !more {
        return Ok(None);
    }
    let Some(n) = n else {
        return Ok(None);
    };
    let Some(last) = tags.last() else {
        return Ok(None);
    };
    Ok(Some(page_link(alloc, name, n, last)?))
}

fn tags_reply(
    alloc: Global,
    name: &RepoName,
    n: Option<u64>,
    tags: &[Tag],
    more: bool,
) -> Result<Reply, Fault>
    ensures { MatchResult result
        (λ reply. answer_of reply ≡ tags_reply name.now n (record { tags = tags.now; more = more }))
        (λ fault. fault ≡ Fault.Memory) }
{
    let text = tags_text(alloc, name, tags)?;
    let link = next_page(alloc, name, n, tags, more)?;
    let body = Body::Owned(text.into_bytes());
    let mut reply = Reply::bare(Status::OK).with_content("application/json", body);
    reply.link = link;
    Ok(reply)
}

/// The tags of a repository that is there behind `last` in byte order, at most `n` of them.
pub fn list_tags<K: Keeper>(
    keeper: &mut K,
    alloc: Global,
    name: &RepoName,
    n: Option<&str>,
    last: Option<&str>,
) -> Result<Reply, Fault>
    requires unspent { IsUnspent (K.kept keeper.old) }
    requires there { K.is_honest keeper.old → HasRepo (K.kept keeper.old) name.now }
    ensures comes { K.is_honest keeper.new → Operates result name.now
        (λ r. list_tags r name.now (text_in n.entry) (text_in last.entry))
        (K.kept keeper.old) (K.kept keeper.new) }
    ensures answers { Answers result }
    ensures carries { Carries result }
    ensures spends { Spends result (K.kept keeper.old) (K.kept keeper.new) }
    ensures honest { K.is_honest keeper.new → K.is_honest keeper.old }
{
    let Some(n) = page_size(n) else {
        return Ok(Reply::refusal(Refusal::InvalidPageSize));
    };
    let (tags, more) = keeper.tags_after(alloc, name, text_or_empty(last), n)?;
    tags_reply(alloc, name, n, &tags, more)
}
