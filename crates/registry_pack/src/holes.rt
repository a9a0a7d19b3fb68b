//! Sorted lists of holes: runs of free bytes, of which none overlaps or touches the next.
ghost use Rattle.std.specs.Prelude.{◌≡◌, ◌⊎◌, ◌↔◌, ◌+◌, ◌≤◌, ◌<◌, ◌^◌, ◌++◌, [], ◌∷◌, ℕ, length, take, drop};
ghost use Rattle.std.specs.Prelude.{vec_len, slice_index_or, All, IfSome, IfNone, OnOk, OnErr};
ghost use Rattle.std.specs.List.{AllWithin, HoldsAt};
ghost use Rattle.registry_pack.specs.Extents.{starts_at, ends_at, size_of, Covers, total_of};
ghost use Rattle.registry_pack.specs.Holes.{IsFree, AreHoles, Takes};
ghost use Rattle.registry_pack.specs.Joining.{IsFirstEnding, Joins};

use crate::extent::Extent;
use std::alloc::AllocError;

/// The bytes from one offset to another; none where `to` is not above `from`.
pub fn between(from: usize, to: usize) -> Extent
    requires { to < 2 ^ 63 }
    ensures covers { (p : ℕ) → Covers result p ↔ ((from ≤ p) × (p < to)) }
    ensures bounds { from ≤ to → (starts_at result ≡ from) × (ends_at result ≡ to) }
{
    let at = from.min(to);
    Extent::new(at, to - at).unwrap()
}

/// The offset behind the last byte.
pub fn end_of(extent: Extent) -> usize
    ensures end { result ≡ ends_at extent }
    ensures fits { result < 2 ^ 63 }
{
    extent.at() + extent.size()
}

/// The index of the first hole that ends at `at` or behind it.
pub fn first_ending_from(holes: &[Extent], at: usize) -> usize
    requires { AreHoles holes.now }
    ensures { IsFirstEnding holes.now at result }
{
    holes.partition_point(|hole| end_of(*hole) < at)
}

/// Joins an extent with the holes that it overlaps or touches, from the first that ends at its first byte or
/// behind it. Gives what they make together, and the index of the first hole behind that.
pub fn join(holes: &[Extent], first: usize, extent: Extent) -> (Extent, usize)
    requires order { AreHoles holes.now }
    requires first { IsFirstEnding holes.now (starts_at extent) first }
    requires some { 0 < size_of extent }
    ensures { Joins holes.now first extent result.0 result.1 }
{
    let mut joined = extent;
    let mut until = first;
    while until < holes.len() {
        let hole = holes[until];
        if end_of(joined) < hole.at() {
            return (joined, until);
        }
        joined = between(joined.at().min(hole.at()), end_of(joined).max(end_of(hole)));
        until += 1;
    }
    (joined, until)
}

/// Puts one hole in the place of those from an index up to another.
pub fn replace(
    holes: &mut Vec<Extent>,
    first: usize,
    until: usize,
    hole: Extent,
) -> Result<(), AllocError>
    requires order { first ≤ until }
    requires within { until ≤ vec_len holes.old }
    ensures ok { OnOk result (holes.new.items
        ≡ take first holes.old.items ++ hole ∷ drop until holes.old.items) }
    ensures err { OnErr result (holes.new.items ≡ holes.old.items) }
{
    if first == until {
        holes.insert(first, hole)?;
    } else {
        holes[first] = hole;
        holes.drain(first + 1..until);
    }
    Ok(())
}

/// The index of the first hole that has so many bytes.
pub fn first_hole_with(holes: &[Extent], size: usize) -> Option<usize>
    ensures found { IfSome result
        (λ i. (i < length holes.now) × HoldsAt (λ e. size ≤ size_of e) holes.now i) }
    ensures before { IfSome result (λ i. AllWithin (λ e. size_of e < size) holes.now 0 i) }
    ensures none { IfNone result (All (λ e. size_of e < size) holes.now) }
{
    for (i, hole) in holes.iter().enumerate() {
        if size <= hole.size() {
            return Some(i);
        }
    }
    None
}

/// The index of a hole that no other has more bytes than.
pub fn largest_hole(holes: &[Extent]) -> Option<usize>
    ensures found { IfSome result (λ i. (i < length holes.now)
        × HoldsAt (λ most. All (λ e. size_of e ≤ size_of most) holes.now) holes.now i) }
    ensures none { IfNone result (holes.now ≡ []) }
{
    if holes.is_empty() {
        return None;
    }
    let mut best = 0;
    for i in 1..holes.len() {
        if holes[best].size() < holes[i].size() {
            best = i;
        }
    }
    Some(best)
}

/// Takes the first `size` bytes of a hole out.
pub fn cut(holes: &mut Vec<Extent>, index: usize, size: usize) -> Extent
    requires order { AreHoles holes.old.items }
    requires within { index < vec_len holes.old }
    requires room { HoldsAt (λ e. size ≤ size_of e) holes.old.items index }
    requires some { 0 < size }
    ensures order { AreHoles holes.new.items }
    ensures size { size_of result ≡ size }
    ensures front { HoldsAt (λ e. starts_at result ≡ starts_at e) holes.old.items index }
    ensures taken { Takes holes.old.items holes.new.items result }
{
    let hole = holes[index];
    let until = hole.at() + size;
    if size == hole.size() {
        holes.remove(index);
    } else {
        holes[index] = between(until, end_of(hole));
    }
    between(hole.at(), until)
}

/// How many bytes the holes have together.
pub fn total(holes: &[Extent]) -> usize
    requires { AreHoles holes.now }
    ensures total { result ≡ total_of holes.now }
    ensures fits { result < 2 ^ 63 }
{
    let mut total = 0;
    for hole in holes {
        total += hole.size();
    }
    total
}
