//! The tags of repositories.
ghost use Rattle.std.specs.Prelude.{◌≡◌};
ghost use Rattle.registry_model.specs.Keeping.{tags_shown};
ghost use Rattle.registry_model.specs.Lookups.{tag_at, tags_at};
ghost use Rattle.store_contents.specs.Layouts.{Layout};
ghost use Rattle.store_statements.specs.Between.{Keeps, Stays, Tells};
ghost use Rattle.store_statements.specs.Clauses.{Lasts};

use oci_types::{Digest, Fault, RepoName, Tag};
use sqlite::{Alter, Connection};
use std::alloc::Global;
use store_statements::tag_list::list_tags;
use store_statements::tags::find_tag;

/// The digest that a tag names.
pub fn tag<S: Alter>(
    alloc: Global,
    conn: &mut Connection<S>,
    repo: &RepoName,
    tag: &Tag,
) -> Result<Option<Digest>, Fault>
    ensures found { (l : Layout)
        → Tells S.Store l conn.old conn.new result (λ w v. v ≡ tag_at w repo.now tag.now) }
    ensures settled { (l : Layout) → Stays S.Store l conn.old conn.new result }
    ensures kept { (l : Layout) → Keeps S.Store l conn.old conn.new }
    ensures survives { Lasts S.Store conn.old conn.new }
{
    find_tag(alloc, conn, repo.as_str(), tag.as_str())
}

/// The tags of a repository, in byte order, each with the digest that it names.
pub fn all_tags<S: Alter>(
    alloc: Global,
    conn: &mut Connection<S>,
    repo: &RepoName,
) -> Result<Vec<(Tag, Digest)>, Fault>
    ensures found { (l : Layout) → Tells S.Store l conn.old conn.new result
        (λ w tags. tags_shown tags ≡ tags_at w repo.now) }
    ensures settled { (l : Layout) → Stays S.Store l conn.old conn.new result }
    ensures survives { Lasts S.Store conn.old conn.new }
{
    list_tags(alloc, conn, repo.as_str())
}
