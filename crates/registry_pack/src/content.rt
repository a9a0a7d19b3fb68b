//! A content, whose bytes stand at a list of extents, read and compared in pieces.
ghost use Rattle.std.specs.Prelude.{◌≡◌, ◌<◌, ◌≤◌, length, IsTrue, IsNone, IfOk, IfSome, Any};
ghost use Rattle.registry_pack.specs.Extents.{ends_at, total_of};
ghost use Rattle.registry_pack.specs.Standing.{KeepsAll};
ghost use Rattle.registry_pack.specs.Content.{IsRunFrom, ReadsPiece, IsCompared};

use crate::extent::Extent;
use sqlite_disk::Disk;
use std::io;

/// What a comparison of two pieces found.
#[derive(Clone, Copy, Debug, PartialEq, Eq)]
pub enum Compared {
    /// So many bytes are the same; 0 where both contents have ended.
    Same(usize),
    /// The contents differ.
    Different,
}

/// Where the content's bytes stand from the `from`th on (the first is 0), up to the end of the extent that
/// has it; `None` if the content has no more than `from` bytes. An extent may have no bytes.
pub fn run_from(extents: &[Extent], from: usize) -> Option<Extent>
    ensures run { IfSome result (λ e. IsRunFrom extents.now from e) }
    ensures ends { IfSome result (λ e. Any (λ x. ends_at x ≡ ends_at e) extents.now) }
    ensures none { IsNone result → total_of extents.now ≤ from }
{
    let mut left = from;
    for extent in extents {
        let size = extent.size();
        if left < size {
            return Extent::new(extent.at() + left, size - left);
        }
        left -= size;
    }
    None
}

/// Reads bytes of the content from the `from`th on: as many as `buf` has room for, and no more than stand at
/// one extent. Gives how many: 0 only at the content's end. The bytes of `buf` behind them are as they were;
/// after an error those in front may have changed.
pub fn read_piece<D: Disk>(
    disk: &mut D,
    extents: &[Extent],
    from: usize,
    buf: &mut [u8],
) -> io::Result<usize>
    requires usable { IsTrue (D.Disk.is_usable disk.old) }
    requires room { 0 < length buf.old }
    ensures read { IfOk result (λ n. ReadsPiece (IsTrue (D.Disk.is_clean disk.new)) (D.Disk.seen disk.old)
        extents.now from buf.old buf.new n) }
    ensures kept { KeepsAll D.Disk disk.old disk.new }
    ensures usable { IsTrue (D.Disk.is_usable disk.new) }
{
    let Some(run) = run_from(extents, from) else {
        return Ok(0);
    };
    let n = buf.len().min(run.size());
    disk.read_at(run.at(), &mut buf[..n])?;
    Ok(n)
}

/// Compares a piece of two contents whose first `from` bytes are the same: no more bytes than `buf` has,
/// which is as long as `other_buf`. A caller begins at 0 and goes on behind each `Same`; both contents are
/// compared whole at `Same(0)`.
pub fn compare_piece<D: Disk>(
    disk: &mut D,
    ones: &[Extent],
    others: &[Extent],
    from: usize,
    buf: &mut [u8],
    other_buf: &mut [u8],
) -> io::Result<Compared>
    requires usable { IsTrue (D.Disk.is_usable disk.old) }
    requires room { 0 < length buf.old }
    requires same_room { length other_buf.old ≡ length buf.old }
    ensures compared { IfOk result (IsCompared (IsTrue (D.Disk.is_clean disk.new)) (D.Disk.seen disk.old)
        ones.now others.now from) }
    ensures kept { KeepsAll D.Disk disk.old disk.new }
    ensures usable { IsTrue (D.Disk.is_usable disk.new) }
{
    let n = read_piece(disk, ones, from, buf)?;
    if n == 0 {
        if run_from(others, from).is_some() {
            return Ok(Compared::Different);
        }
        return Ok(Compared::Same(0));
    }
    let m = read_piece(disk, others, from, &mut other_buf[..n])?;
    if m == 0 || buf[..m] != other_buf[..m] {
        return Ok(Compared::Different);
    }
    Ok(Compared::Same(m))
}
