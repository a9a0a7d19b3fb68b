//! What the tables of a store hold behind an example, asked in SQL.

use anyhow::Result;
use example_files::Section;
use sqlite::{Alter, Connection};
use std::alloc::Global;

/// Where the tables answer another number than the example says.
pub fn differs_in_rows<S: Alter>(
    alloc: Global,
    tables: &mut Connection<S>,
    example: &Section,
) -> Result<Option<String>> {
    for rows in example.rows.iter() {
        let found: i64 = tables.query_row(rows.query.as_str(), &[])?.get(0)?;
        if found != rows.number {
            let file = example.file.as_str();
            let (line, wanted) = (rows.line, rows.number);
            let text = format!(in alloc; "{file}:{line}, wanted {wanted} and found {found}")?;
            return Ok(Some(text));
        }
    }
    Ok(None)
}
