//! Each call of a keeper in memory, with one that fails between them.

use crate::calls::{drops, has, stores, tells};
use nf_base::BlobId;
use nf_keeper::{KeepFault, Keeper, MemKeeper};
use std::alloc::Global;
use std::process::Abort;
use std::test::Fail;

// The second and the fourth call fail.
fn keeps(rt: &impl Abort, alloc: Global, keeper: &mut MemKeeper) -> Result<(), Fail> {
    assert!(rt; stores(alloc, keeper, &[2, 1], 7, b"seven")?);
    assert!(rt; keeper.load().is_err());
    assert!(rt; tells(alloc, keeper, &[(1, 1), (2, 1)])?);
    let drops = drops(alloc, 1)?;
    assert!(rt; keeper.apply(&drops, None) == Err(KeepFault::Failed));
    assert!(rt; has(keeper, 7, Some(b"seven")));
    assert!(rt; keeper.apply(&drops, None) == Ok(()));
    assert!(rt; tells(alloc, keeper, &[(2, 1)])?);
    assert!(rt; keeper.sweep(&[BlobId::new(8)]) == Ok(()));
    assert!(rt; has(keeper, 7, None));
    Ok(())
}

#[test]
fn keeps_what_is_applied(rt: HostRuntime) -> Result<(), Fail> {
    let mut keeper = MemKeeper::new(rt.alloc(), &[2, 4])?;
    keeps(&rt, rt.alloc(), &mut keeper)?;
    assert!(rt; keeper.faults() == 2);
    Ok(())
}
