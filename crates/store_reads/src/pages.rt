//! Pages of tags.
ghost use Rattle.std.specs.Prelude.{◌≡◌};
ghost use Rattle.registry_model.specs.Keeping.{page_shown};
ghost use Rattle.registry_model.specs.Lookups.{page_at};
ghost use Rattle.store_contents.specs.Layouts.{Layout};
ghost use Rattle.store_statements.specs.Between.{Stays, Tells};
ghost use Rattle.store_statements.specs.Clauses.{Lasts};

use oci_types::{Fault, RepoName, Tag};
use sqlite::{Alter, Connection};
use std::alloc::Global;
use store_statements::tag_pages::{TagPage, tags_page};

/// The first `n` tags, or all, behind `last` in byte order, and whether more follow a page that is not empty
/// by its size.
pub fn tags_after<S: Alter>(
    alloc: Global,
    conn: &mut Connection<S>,
    repo: &RepoName,
    last: &str,
    n: Option<u64>,
) -> Result<(Vec<Tag>, bool), Fault>
    ensures found { (l : Layout) → Tells S.Store l conn.old conn.new result
        (λ w page. page_shown page ≡ page_at w repo.now last.now n) }
    ensures settled { (l : Layout) → Stays S.Store l conn.old conn.new result }
    ensures survives { Lasts S.Store conn.old conn.new }
{
    match tags_page(alloc, conn, repo.as_str(), last, n) {
        Ok(TagPage { tags, more }) => Ok((tags, more)),
        Err(fault) => Err(fault),
    }
}
