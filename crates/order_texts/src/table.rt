ghost use Rattle.std.specs.Prelude.{◌≡◌, ◌++◌, string_bytes, IfOk, OnOk};
ghost use Rattle.order_texts.specs.Table.{rows_of, table_of};

use oci_types::RepoName;
use registry_model::Usage;
use std::alloc::{AllocError, Global};
use std::fmt;

const HEADING: &str =
    "                used               quota     blobs manifests      tags  sessions name";

/// The line of one repository: bytes right in 20 places, other numbers in 10.
#[derive(Drop)]
struct Row<'a> {
    name: &'a str,
    usage: Usage,
}

impl<'a> fmt::Display for Row<'a> {
    ghost use Rattle.std.specs.Prelude.{Some};
    ghost use Rattle.order_texts.specs.Table.{row_of};

    ghost output = { λ r. Some (row_of r.name.now r.usage) };

    fn fmt<W: fmt::Write>(&self, f: &mut fmt::Formatter<W>) -> fmt::Result {
        let usage = self.usage;
        write!(
            f,
            "{:>20}{:>20}{:>10}{:>10}{:>10}{:>10} {}",
            usage.used,
            usage.quota,
            usage.blobs,
            usage.manifests,
            usage.tags,
            usage.sessions,
            self.name
        )
    }
}

/// Writes the line of each repository.
fn push_rows(text: &mut String, usages: &[(RepoName, Usage)]) -> Result<(), AllocError>
    ensures { OnOk result (string_bytes text.new ≡ string_bytes text.old ++ rows_of usages.now) }
{
    for (name, usage) in usages {
        let row = Row {
            name: name.as_str(),
            usage: *usage,
        };
        writeln!(text, "{row}")?;
    }
    Ok(())
}

/// The table of what repositories hold and may hold: a heading, and a line for each, with the used bytes and
/// the quota right in 20 places, the numbers of blobs, manifests, tags and open upload sessions right in 10
/// places each, a space and the name (profile).
pub fn table_of(alloc: Global, usages: &[(RepoName, Usage)]) -> Result<String, AllocError>
    ensures { IfOk result (λ text. string_bytes text ≡ table_of usages.now) }
{
    let mut text = String::new(alloc);
    writeln!(text, "{HEADING}")?;
    push_rows(&mut text, usages)?;
    Ok(text)
}
