use std::alloc::{AllocError, Global};

/// The first line in which two texts differ, in words; none where they are equal.
pub fn first_difference(
    alloc: Global,
    wanted: &[u8],
    found: &[u8],
) -> Result<Option<String>, AllocError> {
    if wanted == found {
        return Ok(None);
    }
    let mut wanted_lines = wanted.split(|byte| *byte == b'\n');
    let mut found_lines = found.split(|byte| *byte == b'\n');
    for number in 1..u64::MAX {
        let wanted_line = wanted_lines.next();
        let found_line = found_lines.next();
        if wanted_line != found_line {
            let wanted = shown(alloc, wanted_line)?;
            let found = shown(alloc, found_line)?;
            let text = format!(in alloc;
                "line {number} of the answer:\n  wanted {wanted}\n  found  {found}"
            )?;
            return Ok(Some(text));
        }
    }
    Ok(Some(String::from_str(alloc, "they differ")?))
}

/// The beginning of a line, in ASCII.
fn shown(alloc: Global, line: Option<&[u8]>) -> Result<String, AllocError> {
    match line {
        Some(line) => {
            let beginning = line.get(..200).unwrap_or(line).escape_ascii();
            format!(in alloc; "`{beginning}`")
        }
        None => String::from_str(alloc, "the end"),
    }
}
