//! The program over database files.
use crate::databases::Databases;
use crate::progress::CheckProgress;
use crate::stored::run_in_files;
use crate::supposed::Supposed;
use either::Either;
use layout_opening::WrittenBeside;
use registry_tasks::Servers;
use sqlite::FileFrom;
use std::convert::AsStr;
use std::io::{Read, Write};
use store_bytes::TableContents;
use store_pack::PackContents;

/// Does what the words say, over files of which `F` says what is supposed of databases, and `P` of files of
/// contents.
pub fn run<F: Supposed + WrittenBeside<P>, P: Supposed, T: AsStr, R: Read, W: Write, E: Write>(
    rt: &HostRuntime,
    words: &[T],
    reader: &mut R,
    out: &mut W,
    err: &mut E,
) -> u8 {
    let mut databases = Databases::<F, P>::new(rt);
    let mut servers = Servers::new(rt);
    let watch = CheckProgress::new(rt);
    run_in_files::<
        FileFrom<F>,
        Either<TableContents, PackContents<FileFrom<P>>>,
        Databases<'_, F, P>,
        Servers<'_>,
        CheckProgress<'_>,
        T,
        R,
        W,
        E,
    >(
        rt,
        &mut databases,
        &mut servers,
        &watch,
        words,
        reader,
        out,
        err,
    )
}
