//! The first rows, and what a site is opened over.

ghost use Rattle.std.specs.Prelude.{◌≡◌, IfOk};
ghost use Rattle.nf_desk.specs.Opened.{first_blob};
ghost use Rattle.nf_site.specs.Demo.{demo_rows};
ghost use Rattle.filesd.specs.Opening.{demo_blob, status_of_fault};

use crate::status::{RowsFault, Status};
use nf_base::BlobId;
use nf_desk::{First, FirstBlob, OpenFault};
use nf_site::demo_rows;
use std::alloc::{AllocError, Global};

/// The demonstration rows, and the bytes of their one file.
pub fn demonstration(alloc: Global) -> Result<First, AllocError>
    ensures rows { IfOk result (λ first. first.rows ≡ demo_rows) }
    ensures blob { IfOk result (λ first. first_blob first ≡ demo_blob) }
{
    let rows = demo_rows(alloc)?;
    let bytes = b"hello\n".to_vec(alloc)?;
    let id = BlobId::new(1);
    Ok(First {
        rows,
        blob: Some(FirstBlob { id, bytes }),
    })
}

/// The status of a run that isn't opened.
pub(crate) fn status_of(fault: OpenFault) -> Status
    ensures { result ≡ status_of_fault fault }
{
    match fault {
        OpenFault::Failed => Status::StoreFault,
        OpenFault::Unread { index, fault } => Status::BadRows(RowsFault::Unread { index, fault }),
        OpenFault::Broken(broken) => Status::BadRows(RowsFault::Broken {
            index: broken.index,
            rule: broken.rule,
        }),
        OpenFault::Found => Status::BadRows(RowsFault::Found),
        OpenFault::Missing => Status::BadRows(RowsFault::Missing),
        OpenFault::Memory => Status::Memory,
    }
}
