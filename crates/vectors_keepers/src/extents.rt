//! Bodies in extents of a file in memory, which is cut.

use nf_extents::{Extent, Gaps, Pieces};
use sqlite_disk::{Crash, Memory};
use std::alloc::Global;
use std::process::Abort;
use std::test::Fail;

const SECTOR: u64 = 4_096;

fn sectors(place: u32, size: u32) -> Extent {
    Extent {
        place: u64::from(place) * SECTOR,
        size: u64::from(size) * SECTOR,
    }
}

#[test]
fn gaps_are_taken_before_the_end(rt: HostRuntime) -> Result<(), Fail> {
    let used = [sectors(1, 1), sectors(3, 2)];
    let Some(mut gaps) = Gaps::around(rt.alloc(), &used)? else {
        return Err(Fail::from("they are apart"));
    };
    assert!(rt; gaps.end() == 5 * SECTOR);
    assert!(rt; gaps.take(SECTOR) == Some(sectors(0, 1)));
    assert!(rt; gaps.take(2 * SECTOR) == Some(sectors(5, 2)));
    assert!(rt; gaps.take(SECTOR) == Some(sectors(2, 1)));
    assert!(rt; gaps.take(SECTOR) == Some(sectors(7, 1)));
    Ok(())
}

#[test]
fn extents_that_share_a_byte_have_no_gaps(rt: HostRuntime) -> Result<(), Fail> {
    let used = [
        sectors(0, 2),
        Extent {
            place: 2 * SECTOR - 1,
            size: 1,
        },
    ];
    assert!(rt; Gaps::around(rt.alloc(), &used)?.is_none());
    assert!(rt; used[1].in_sectors().size == SECTOR);
    let mut none = Gaps::none(rt.alloc());
    assert!(rt; none.take(1).is_none());
    Ok(())
}

// The bodies that are read of a file which was cut.
fn cut(alloc: Global, pieces: Pieces<Memory>, used: &[Extent]) -> Result<Pieces<Memory>, Fail> {
    let mut disk = pieces.into_disk();
    disk.crash();
    match Gaps::around(alloc, used)? {
        Some(gaps) => Ok(Pieces::over(disk, gaps)),
        None => Err(Fail::from("they are apart")),
    }
}

fn has(
    rt: &impl Abort,
    alloc: Global,
    pieces: &mut Pieces<Memory>,
    extent: Extent,
    byte: u8,
) -> Result<(), Fail> {
    let Ok(bytes) = pieces.read(alloc, extent) else {
        return Err(Fail::from("it can be read"));
    };
    assert!(rt; bytes.len() as u64 == extent.size);
    assert!(rt; bytes.iter().all(|it| *it == byte));
    Ok(())
}

fn put(alloc: Global, pieces: &mut Pieces<Memory>, byte: u8, size: usize) -> Result<Extent, Fail> {
    let body = vec![in alloc; byte; size]?;
    match pieces.write(&body) {
        Ok(extent) => Ok(extent),
        Err(_) => Err(Fail::from("it can be written")),
    }
}

#[test]
fn what_was_synced_outlasts_a_cut(rt: HostRuntime) -> Result<(), Fail> {
    let alloc = rt.alloc();
    let gaps = Gaps::around(alloc, &[])?.expect(&rt, "nothing is used");
    let mut pieces = Pieces::over(Memory::new(alloc), gaps);
    let first = put(alloc, &mut pieces, 1, 5_000)?;
    let second = put(alloc, &mut pieces, 2, 100)?;
    assert!(rt; pieces.sync().is_ok());
    let third = put(alloc, &mut pieces, 3, 100)?;
    assert!(rt; third.place == 3 * SECTOR);
    has(&rt, alloc, &mut pieces, third, 3)?;
    // The third is lost, and the second is dropped.
    let mut pieces = cut(alloc, pieces, &[first.in_sectors()])?;
    let fourth = put(alloc, &mut pieces, 4, 9_000)?;
    assert!(rt; fourth.place == second.place);
    assert!(rt; pieces.sync().is_ok());
    let mut pieces = cut(alloc, pieces, &[first.in_sectors(), fourth.in_sectors()])?;
    has(&rt, alloc, &mut pieces, first, 1)?;
    has(&rt, alloc, &mut pieces, fourth, 4)
}
