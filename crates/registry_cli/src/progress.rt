//! How far a migration or a check is, shown on a terminal.
use std::io::{IsTerminal, Stderr, Write};
use store_migration::{MovedRows, OldTable, Watch};

/// One line on standard error, written over itself; nothing where that is no terminal.
#[derive(Drop)]
pub struct Progress {
    err: Stderr,
    shown: bool,
}

impl Progress {
    pub fn new(err: Stderr) -> Progress {
        let shown = err.is_terminal();
        Progress { err, shown }
    }

    /// What was moved, in the line's place.
    pub fn finish(&mut self, moved: MovedRows) {
        if self.shown {
            let _ = writeln!(
                self.err,
                "\rregistry: moved {} blobs, {} manifests, {} sessions\u{1b}[K",
                moved.blobs, moved.manifests, moved.sessions
            );
        }
    }
}

impl Watch for Progress {
    fn moved(&mut self, table: OldTable, done: usize, of: usize) {
        if !self.shown {
            return;
        }
        let rows = match table {
            OldTable::Blobs => "blobs",
            OldTable::Manifests => "manifests",
            OldTable::Sessions => "sessions",
        };
        let _ = write!(self.err, "\rregistry: {done} of {of} {rows}\u{1b}[K");
    }
}

/// How far a check is, on one line of standard error that is written over itself; nothing where that is no
/// terminal.
#[derive(Drop)]
pub struct CheckProgress<'a> {
    rt: &'a HostRuntime,
}

impl<'a> CheckProgress<'a> {
    pub fn new(rt: &'a HostRuntime) -> CheckProgress<'a> {
        CheckProgress { rt }
    }
}

impl registry_checking::Watch for CheckProgress<'_> {
    fn looked_at(&self, done: u64, of: u64) {
        let mut err = self.rt.stderr();
        if !err.is_terminal() {
            return;
        }
        let end = if done == of { "\n" } else { "" };
        let _ = write!(
            err,
            "\rregistry: {done} of {of} blobs and manifests\u{1b}[K{end}"
        );
    }
}
