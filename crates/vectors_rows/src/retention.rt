//! How versions thin out, and what goes of a trash, by an example each.

use nf_base::{Moment, NodeId};
use nf_retention::{Trashed, going, newest_first, thinned};
use std::test::Fail;

/// Each gap is measured from the last version that was kept: were it from the one before, kept or not, the last one would go too.
#[test]
fn versions_thin_out(rt: HostRuntime) -> Result<(), Fail> {
    let versions = [999_999, 999_998, 999_996, 999_989, 999_985, 999_979].map(Moment::new);
    let gone = thinned(rt.alloc(), Moment::new(1_000_000), &versions)?;
    let to_go = [999_998, 999_985].map(Moment::new);
    assert!(rt; gone.as_slice() == to_go.as_slice());
    Ok(())
}

fn item(node: u64, at: u64, size: u64) -> Trashed {
    Trashed {
        node: NodeId::new(node),
        at: Moment::new(at),
        size,
    }
}

/// Of one moment the higher number is newer. The bound holds the sizes of two, the third is over it though the fourth would fit, and the
/// last is there for just 30 days.
#[test]
fn trash_goes(rt: HostRuntime) -> Result<(), Fail> {
    let all = vec![in rt.alloc();
        item(3, 500, 1),
        item(8, 100, 0),
        item(1, 900, 4),
        item(5, 700, 7),
        item(2, 900, 6),
    ]?;
    let sorted = newest_first(all)?;
    let gone = going(rt.alloc(), &sorted, Moment::new(2_592_100), 10)?;
    let to_go = [5, 3, 8].map(NodeId::new);
    assert!(rt; gone.as_slice() == to_go.as_slice());
    Ok(())
}
