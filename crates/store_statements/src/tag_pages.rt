//! Pages of the tags of a repository.
ghost use Rattle.std.specs.Prelude.{◌≡◌, IfOk, map, length};
ghost use Rattle.registry_model.specs.TagPage.{first_of, more_than};
ghost use Rattle.store_schema.specs.Rows.{bytes_at};
ghost use Rattle.store_contents.specs.Layouts.{Layout};
ghost use Rattle.store_statements.specs.Between.{Finds, Stays};
ghost use Rattle.store_statements.specs.Clauses.{Lasts};
ghost use Rattle.store_statements.specs.TagPages.{tags_behind, IsEnough, first_rows, are_more};
ghost use Rattle.store_statements.specs.Told.{IsRead};

use crate::numbers::LARGEST;
use crate::reading::each;
use crate::telling::checked;
use oci_types::{Fault, Tag};
use sqlite::{Alter, Connection, Error, Row, params};
use std::alloc::Global;
use store_contents::{fault_of, told};

/// Tags in their order, and whether more follow.
pub struct TagPage {
    pub tags: Vec<Tag>,
    pub more: bool,
}

/// How many rows to ask for: one more than the page may have, so that it is seen whether more follow. -1
/// asks for all.
fn rows_for(n: Option<u64>) -> i64
    ensures { IsEnough n result }
{
    match n {
        Some(n) if n < LARGEST => (n + 1) as i64,
        _ => -1,
    }
}

fn first(rows: &[Row], n: Option<u64>) -> &[Row]
    ensures { result.now ≡ first_rows n rows.now }
{
    match n {
        Some(n) if n < rows.len() as u64 => &rows[..n as usize],
        _ => rows,
    }
}

fn has_more(count: usize, n: Option<u64>) -> bool
    ensures { result ≡ are_more n count }
{
    match n {
        Some(n) => 0 < n && n < count as u64,
        None => false,
    }
}

fn page_in(alloc: Global, rows: &[Row], n: Option<u64>) -> Result<TagPage, Error>
    ensures { IfOk result
        (λ page. (page.tags.items ≡ map (λ row. bytes_at row 0) (first_rows n rows.now)) ×
        (page.more ≡ are_more n (length rows.now))) }
{
    let tags = each(alloc, first(rows, n))?;
    Ok(TagPage {
        tags,
        more: has_more(rows.len(), n),
    })
}

/// The same of what a query gave.
fn page_of(alloc: Global, shown: Result<Vec<Row>, Error>, n: Option<u64>) -> Result<TagPage, Fault>
    ensures { IsRead shown result
        (λ rows page. (page.tags.items ≡ map (λ row. bytes_at row 0) (first_rows n rows)) ×
        (page.more ≡ are_more n (length rows))) }
{
    match shown {
        Ok(rows) => told(page_in(alloc, &rows, n)),
        Err(error) => Err(fault_of(error)),
    }
}

/// At most `n` tags of the repository behind `last`, which need not be a tag, in their order; all where
/// there is no `n`. More follow behind a page that is not empty by its size.
pub fn tags_page<S: Alter>(
    alloc: Global,
    conn: &mut Connection<S>,
    repo: &str,
    last: &str,
    n: Option<u64>,
) -> Result<TagPage, Fault>
    ensures found { (l : Layout) → Finds S.Store l conn.old conn.new result
        (λ t page. (page.tags.items ≡ first_of n (tags_behind t.tags repo.now last.now)) ×
        (page.more ≡ more_than n (tags_behind t.tags repo.now last.now))) }
    ensures settled { (l : Layout) → Stays S.Store l conn.old conn.new result }
    ensures survives { Lasts S.Store conn.old conn.new }
{
    let shown = conn.query_all(
        "SELECT tag FROM registry_tags WHERE repo = ?1 AND tag > ?2 ORDER BY tag LIMIT ?3",
        params![repo, last, rows_for(n)],
    );
    let found = page_of(alloc, shown, n);
    checked(conn, found)
}
