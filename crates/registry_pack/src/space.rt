//! The free space of the pack.
ghost use Rattle.registry_pack.specs.Holes.{AreHoles, AreHolesFrom-prop};

use crate::extent::Extent;
use crate::holes::{
    between, cut, end_of, first_ending_from, first_hole_with, join, largest_hole, replace, total,
};
use std::alloc::{AllocError, Global};

/// Free bytes, as a sorted list of holes that neither overlap nor touch. Offsets and sizes are in bytes.
/// Takes 16 bytes of memory a hole. Where a call fails, memory was wanting, and nothing changed.
#[derive(Debug, Drop)]
pub struct Space {
    holes: Vec<Extent>,
    ghost apart: { AreHoles holes.items } by { AreHolesFrom-prop 0 holes.items },
}

impl Space {
    ghost use Rattle.std.specs.Prelude.{◌≡◌, ◌⊎◌, ◌↔◌, ◌+◌, ◌≤◌, ◌<◌, ◌^◌, ℕ};
    ghost use Rattle.std.specs.Prelude.{IfSome, IfNone, IfOk, OnOk, OnErr};
    ghost use Rattle.registry_pack.specs.Extents.{starts_at, size_of, total_of};
    ghost use Rattle.registry_pack.specs.Holes.{IsFree, IsRun, Gives, Takes};
    ghost use Rattle.registry_pack.specs.Space.{holes_in, IsFreeIn};

    /// Nothing is free. Takes no memory.
    pub fn none(alloc: Global) -> Space
        ensures { (p : ℕ) → IsFreeIn result p → ⊥ }
    {
        Space {
            holes: Vec::new(alloc),
        }
    }

    /// The bytes of the extents are free. They may stand in any order, overlap and be empty.
    pub fn of(mut extents: Vec<Extent>) -> Result<Space, AllocError>
        ensures { IfOk result (λ space. (p : ℕ) → IsFreeIn space p ↔ IsFree extents.items p) }
    {
        let mut space = Space::none(*extents.allocator());
        extents.sort_unstable_by_key(|extent| extent.at());
        for extent in &extents {
            space.give(*extent)?;
        }
        Ok(space)
    }

    /// The holes, in order.
    pub fn holes(&self) -> &[Extent]
        ensures { result.now ≡ holes_in self.now }
    {
        self.holes.as_slice()
    }

    /// The bytes of the extent are free from now on, besides those that are. It may overlap or touch holes.
    /// Costs a search by halves and an insertion; takes memory where the list of holes is full.
    pub fn give(&mut self, extent: Extent) -> Result<(), AllocError>
        ensures ok { OnOk result (Gives (holes_in self.old) (holes_in self.new) extent) }
        ensures err { OnErr result (holes_in self.new ≡ holes_in self.old) }
    {
        if extent.size() == 0 {
            return Ok(());
        }
        let first = first_ending_from(&self.holes, extent.at());
        let (hole, until) = join(&self.holes, first, extent);
        replace(&mut self.holes, first, until, hole)
    }

    /// All that is free in the other space is so in this one from now on, besides what is. Takes memory for
    /// the holes of both.
    pub fn add(&mut self, other: Space) -> Result<(), AllocError>
        ensures ok { OnOk result
            ((p : ℕ) → IsFreeIn self.new p ↔ (IsFreeIn self.old p ⊎ IsFreeIn other p)) }
        ensures err { OnErr result (holes_in self.new ≡ holes_in self.old) }
    {
        let Space { holes: mut extents } = other;
        extents.extend_from_slice(&self.holes)?;
        *self = Space::of(extents)?;
        Ok(())
    }

    /// What is free in this space or in the other. Takes memory for the holes of both.
    pub fn union(&self, other: &Space) -> Result<Space, AllocError>
        ensures { IfOk result
            (λ space. (p : ℕ) → IsFreeIn space p ↔ (IsFreeIn self.now p ⊎ IsFreeIn other.now p)) }
    {
        let mut extents = Vec::new(*self.holes.allocator());
        extents.extend_from_slice(&other.holes)?;
        extents.extend_from_slice(&self.holes)?;
        Space::of(extents)
    }

    /// Nothing is free from now on.
    pub fn clear(&mut self)
        ensures { (p : ℕ) → IsFreeIn self.new p → ⊥ }
    {
        self.holes.clear();
    }

    /// The bytes from `from` up to `to` that are not free here. Of the space in use, that is what is free.
    pub fn gaps(&self, from: usize, to: usize) -> Result<Space, AllocError>
        requires { to < 2 ^ 63 }
        ensures { IfOk result
            (λ space. (p : ℕ) → IsFreeIn space p ↔ ((from ≤ p) × (p < to) × ¬ IsFreeIn self.now p)) }
    {
        let mut space = Space::none(*self.holes.allocator());
        let mut at = from;
        for hole in &self.holes {
            space.give(between(at, to.min(hole.at())))?;
            at = at.max(end_of(*hole));
        }
        space.give(between(at, to))?;
        Ok(space)
    }

    /// Takes `size` bytes from the front of the first hole that has as many. `None` where no hole has, and
    /// nothing changes then. Goes over the holes in order.
    pub fn take(&mut self, size: usize) -> Option<Extent>
        requires some { 0 < size }
        ensures size { IfSome result (λ e. size_of e ≡ size) }
        ensures first { IfSome result
            (λ e. (at : ℕ) → IsRun (holes_in self.old) at size → starts_at e ≤ at) }
        ensures taken { IfSome result (Takes (holes_in self.old) (holes_in self.new)) }
        ensures no_room { IfNone result ((at : ℕ) → IsRun (holes_in self.old) at size → ⊥) }
        ensures none { IfNone result (holes_in self.new ≡ holes_in self.old) }
    {
        let index = first_hole_with(&self.holes, size)?;
        Some(cut(&mut self.holes, index, size))
    }

    /// Takes `size` bytes as `take` does; where no hole has as many, the whole of a largest one. `None` where
    /// nothing is free.
    pub fn take_most(&mut self, size: usize) -> Option<Extent>
        requires some { 0 < size }
        ensures size { IfSome result (λ e. (0 < size_of e) × (size_of e ≤ size)) }
        ensures first { IfSome result
            (λ e. (at : ℕ) → IsRun (holes_in self.old) at size → starts_at e ≤ at) }
        ensures taken { IfSome result (Takes (holes_in self.old) (holes_in self.new)) }
        // No longer run was free.
        ensures most { IfSome result (λ e. size_of e < size
            → (at : ℕ) → IsRun (holes_in self.old) at (size_of e + 1) → ⊥) }
        ensures nothing { IfNone result ((p : ℕ) → IsFreeIn self.old p → ⊥) }
        ensures none { IfNone result (holes_in self.new ≡ holes_in self.old) }
    {
        if let Some(extent) = self.take(size) {
            return Some(extent);
        }
        let index = largest_hole(&self.holes)?;
        let size = self.holes[index].size();
        Some(cut(&mut self.holes, index, size))
    }

    /// The offset behind the last free byte; 0 where nothing is free.
    pub fn end(&self) -> usize
        ensures { (p : ℕ) → IsFreeIn self.now p → p < result }
    {
        let Some(hole) = self.holes.last().copied() else {
            return 0;
        };
        end_of(hole)
    }

    /// Takes the last hole out if it ends at `end`, and gives its first offset; else gives `end`. A file that
    /// ends at `end`, with nothing free behind, may end at the result.
    pub fn trim(&mut self, end: usize) -> usize
        ensures order { result ≤ end }
        ensures was_free { (p : ℕ) → result ≤ p → p < end → IsFreeIn self.old p }
        ensures after { (p : ℕ)
            → IsFreeIn self.new p ↔ (IsFreeIn self.old p × ¬ ((result ≤ p) × (p < end))) }
        // No more could be cut.
        ensures whole { result < end → (p : ℕ) → p + 1 ≡ result → IsFreeIn self.old p → ⊥ }
        ensures cut { ((p : ℕ) → IsFreeIn self.old p → p < end)
            → (p : ℕ) → p + 1 ≡ result → IsFreeIn self.old p → ⊥ }
    {
        self.trim_from(0, end)
    }

    /// Trims as `trim` does if the last hole begins at `from` or behind it; else gives `end`.
    pub fn trim_from(&mut self, from: usize, end: usize) -> usize
        ensures order { result ≤ end }
        ensures from { result < end → from ≤ result }
        ensures was_free { (p : ℕ) → result ≤ p → p < end → IsFreeIn self.old p }
        ensures after { (p : ℕ)
            → IsFreeIn self.new p ↔ (IsFreeIn self.old p × ¬ ((result ≤ p) × (p < end))) }
        // No more could be cut.
        ensures whole { result < end → (p : ℕ) → p + 1 ≡ result → IsFreeIn self.old p → ⊥ }
        ensures cut { from ≡ 0 → ((p : ℕ) → IsFreeIn self.old p → p < end)
            → (p : ℕ) → p + 1 ≡ result → IsFreeIn self.old p → ⊥ }
    {
        let Some(hole) = self.holes.last().copied() else {
            return end;
        };
        if end_of(hole) != end {
            return end;
        }
        if hole.at() < from {
            return end;
        }
        self.holes.pop();
        hole.at()
    }

    /// How many bytes are free.
    pub fn total(&self) -> usize
        ensures total { result ≡ total_of (holes_in self.now) }
        ensures fits { result < 2 ^ 63 }
    {
        total(&self.holes)
    }
}
