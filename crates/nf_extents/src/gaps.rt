//! Which bytes of a file are free.

ghost use Rattle.std.specs.Prelude.{◌≡◌, [], ◌<◌, ◌≤◌, ◌+◌, ◌-◌, ◌^◌, ◌↔◌, length, All, IfOk, OnOk, IfSome, IfNone, IsSome, IsNone, IsTrue};
ghost use Rattle.std.specs.List.{HoldsAt};
ghost use Rattle.nf_extents.specs.Room.{AreApart, IsAllFree, IsRestOf, LacksPlace, LacksRoom, Takes, in_sectors, is_used, with_bytes};

use std::alloc::{AllocError, Global};
use std::marker::Model;

/// The most bytes that a file may have.
pub const MAX_END: u64 = 1 << 62;

/// How many bytes a sector has at most. No two bodies share one, so a write that is cut tears none but its own.
const SECTOR: u64 = 4_096;

/// A range of bytes of a file.
#[derive(Clone, Copy, PartialEq, Eq)]
pub struct Extent {
    /// Its first byte.
    pub place: u64,
    /// How many bytes it has.
    pub size: u64,
}

/// What is free of a file: gaps between what is used, and everything from an end on.
#[derive(Drop)]
pub struct Gaps {
    gaps: Vec<Extent>,
    end: u64,
}

impl Model for Gaps {
    ghost use Rattle.std.specs.Prelude.{◌≤◌, ◌^◌};
    ghost use Rattle.nf_extents.specs.Room.{AreApart, Room};

    ghost Value = { Room };

    ghost view = { λ gaps. record { gaps = gaps.gaps.items; end = gaps.end } };

    ghost invariant = { λ gaps. AreApart 0 gaps.gaps.items gaps.end × (gaps.end ≤ 2 ^ 62) };
}

impl Extent {
    /// The same with whole sectors, as `Pieces` takes them. What is too large for that is all of them.
    pub fn in_sectors(self) -> Extent
        ensures place { result.place ≡ self.place }
        ensures size { self.size ≤ 2 ^ 62 → result.size ≡ in_sectors self.size }
        ensures large { 2 ^ 62 < self.size → 2 ^ 62 < result.size }
    {
        let size = if self.size > MAX_END {
            u64::MAX
        } else {
            self.size.div_ceil(SECTOR) * SECTOR
        };
        Extent {
            place: self.place,
            size,
        }
    }
}

impl Gaps {
    /// Where nothing is free.
    pub fn none(alloc: Global) -> Gaps
        ensures { (result.gaps ≡ []) × (result.end ≡ 2 ^ 62) }
    {
        Gaps {
            gaps: Vec::new(alloc),
            end: MAX_END,
        }
    }

    /// What these leave of a file, where those of them that have bytes stand by rising place, share no byte, and end at `MAX_END` at most.
    pub fn around(alloc: Global, used: &[Extent]) -> Result<Option<Gaps>, AllocError>
        ensures apart { IfOk result (λ gaps. IsSome gaps ↔ AreApart 0 (with_bytes used.now) (2 ^ 62)) }
        ensures rest { IfOk result (λ gaps. IfSome gaps (IsRestOf used.now)) }
        // It ends with what is used.
        ensures end { IfOk result (λ gaps. IfSome gaps (λ room. 0 < room.end → IsTrue (is_used used.now (room.end - 1)))) }
    {
        let mut gaps = Gaps {
            gaps: Vec::new(alloc),
            end: 0,
        };
        for extent in used {
            if extent.size > 0 {
                if !gaps.ends_before(extent) {
                    return Ok(None);
                }
                gaps.append(extent)?;
            }
        }
        Ok(Some(gaps))
    }

    /// Where all is free from.
    pub fn end(&self) -> u64
        ensures end { result ≡ self.now.end }
        ensures fits { self.now.end ≤ 2 ^ 62 }
    {
        self.end
    }

    /// Takes so many bytes of a gap, where one has them, or else at the end; or nothing, where the file would be too long.
    pub fn take(&mut self, size: u64) -> Option<Extent>
        requires { 0 < size }
        ensures none { IsNone result ↔ LacksRoom self.old size }
        ensures unchanged { IfNone result (self.new ≡ self.old) }
        ensures size { IfSome result (λ extent. extent.size ≡ size) }
        ensures fits { IfSome result (λ extent. extent.place + size ≤ 2 ^ 62) }
        ensures free { IfSome result (IsAllFree self.old) }
        ensures taken { IfSome result (λ extent. Takes extent self.old self.new) }
        ensures gaps_first { IfSome result (λ extent. self.old.end ≤ extent.place → All (λ gap. gap.size < size) self.old.gaps) }
    {
        match first_fit(&self.gaps, size) {
            Some(at) => Some(self.cut(at, size)),
            None => self.extend(size),
        }
    }

    /// Takes whole sectors for a body of so many bytes.
    pub(crate) fn take_sectors(&mut self, len: usize) -> Option<Extent>
        requires { 0 < len }
        ensures none { IsNone result ↔ LacksPlace self.old len }
        ensures unchanged { IfNone result (self.new ≡ self.old) }
        ensures size { IfSome result (λ extent. extent.size ≡ in_sectors len) }
        ensures fits { IfSome result (λ extent. extent.place + len ≤ 2 ^ 62) }
        ensures free { IfSome result (IsAllFree self.old) }
        ensures taken { IfSome result (λ extent. Takes extent self.old self.new) }
    {
        let len = len as u64;
        if len > MAX_END {
            return None;
        }
        self.take(len.div_ceil(SECTOR) * SECTOR)
    }

    /// Whether the extent begins at the end or behind it, and itself ends at `MAX_END` at most.
    fn ends_before(&self, extent: &Extent) -> bool
        ensures { IsTrue result ↔ ((self.now.end ≤ extent.now.place) × (extent.now.place + extent.now.size ≤ 2 ^ 62)) }
    {
        self.end <= extent.place && extent.place <= MAX_END && extent.size <= MAX_END - extent.place
    }

    /// Takes an extent at the end or behind it, which then is the new end.
    fn append(&mut self, extent: &Extent) -> Result<(), AllocError>
        requires some { 0 < extent.now.size }
        requires behind { self.old.end ≤ extent.now.place }
        requires fits { extent.now.place + extent.now.size ≤ 2 ^ 62 }
        ensures taken { OnOk result (Takes extent.now self.old self.new) }
        ensures end { OnOk result (self.new.end ≡ extent.now.place + extent.now.size) }
    {
        if self.end < extent.place {
            self.gaps.push(Extent {
                place: self.end,
                size: extent.place - self.end,
            })?;
        }
        self.end = extent.place + extent.size;
        Ok(())
    }

    /// Takes so many bytes from the front of a gap that has them.
    fn cut(&mut self, at: usize, size: u64) -> Extent
        requires some { 0 < size }
        requires at { at < length self.old.gaps }
        requires room { HoldsAt (λ gap. size ≤ gap.size) self.old.gaps at }
        ensures size { result.size ≡ size }
        ensures within { result.place + size ≤ self.old.end }
        ensures fits { self.old.end ≤ 2 ^ 62 }
        ensures free { IsAllFree self.old result }
        ensures taken { Takes result self.old self.new }
    {
        let gap = self.gaps[at];
        if gap.size == size {
            self.gaps.remove(at);
        } else {
            self.gaps[at] = Extent {
                place: gap.place + size,
                size: gap.size - size,
            };
        }
        Extent {
            place: gap.place,
            size,
        }
    }

    /// Takes so many bytes at the end, where the file may be so long.
    fn extend(&mut self, size: u64) -> Option<Extent>
        requires { 0 < size }
        ensures none { IsNone result ↔ (2 ^ 62 < self.old.end + size) }
        ensures unchanged { IfNone result (self.new ≡ self.old) }
        ensures extent { IfSome result (λ extent. extent ≡ record { place = self.old.end; size = size }) }
        ensures free { IfSome result (IsAllFree self.old) }
        ensures taken { IfSome result (λ extent. Takes extent self.old self.new) }
    {
        if size > MAX_END - self.end {
            return None;
        }
        let place = self.end;
        self.end += size;
        Some(Extent { place, size })
    }
}

/// The first of the gaps that has so many bytes.
fn first_fit(gaps: &[Extent], size: u64) -> Option<usize>
    ensures none { IfNone result (All (λ gap. gap.size < size) gaps.now) }
    ensures at { IfSome result (λ at. at < length gaps.now) }
    ensures room { IfSome result (λ at. HoldsAt (λ gap. size ≤ gap.size) gaps.now at) }
{
    gaps.iter().position(|gap| size <= gap.size)
}
