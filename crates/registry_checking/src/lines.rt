//! The lines of what is wrong.
ghost use Rattle.std.specs.Prelude.{OnOk};
ghost use Rattle.std.specs.Fmt.{WritesOnOk};
ghost use Rattle.std.specs.Io.KnownBytes.{Appends};
ghost use Rattle.registry_checking.specs.Lines.{line, lines_of};

use crate::wrong::Wrong;
use oci_types::RepoName;
use std::io::Write;
use std::{fmt, io};

/// The repository, a space, a digest or a tag, and behind a colon and a space what is wrong with it.
fn write_line<W: fmt::Write>(
    f: &mut fmt::Formatter<W>,
    repo: &RepoName,
    what: &str,
    words: &str,
) -> fmt::Result
    ensures { WritesOnOk W.write_str_gives f.old result (line repo.now what.now words.now) f.new }
{
    write!(f, "{} {what}: {words}", repo.as_str())
}

impl fmt::Display for Wrong {
    ghost use Rattle.std.specs.Prelude.{Some};
    ghost use Rattle.registry_checking.specs.Lines.{line_of};

    ghost output = { λ wrong. Some (line_of wrong) };

    fn fmt<W: fmt::Write>(&self, f: &mut fmt::Formatter<W>) -> fmt::Result {
        match self {
            Wrong::Content { repo, digest, flaw } => {
                write_line(f, repo, digest.as_str(), flaw.words())
            }
            Wrong::Tag { repo, tag } => write_line(f, repo, tag.as_str(), "a tag of no manifest"),
        }
    }
}

/// Writes a line for each: `REPO DIGEST: WHAT`, or with a tag in the digest's place.
pub fn write_wrongs<W: Write>(out: &mut W, wrongs: &[Wrong]) -> io::Result<()>
    ensures { OnOk result (Appends (W.contents out.old) (W.contents out.new) (lines_of wrongs.now)) }
{
    for wrong in wrongs {
        match writeln!(out, "{wrong}") {
            Ok(()) => {}
            Err(error) => return Err(error),
        }
    }
    Ok(())
}
