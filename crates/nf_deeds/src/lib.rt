//! What is done: the deeds by which what is allowed is carried out, and the limits that they keep.
#![tactic(auto)]

mod acting;
mod chunks;
mod copying;
mod discarding;
mod ending;
mod going;
mod leaving;
mod limits;
mod people;
mod quotas;
mod receiving;
mod refilling;
mod settling;
mod sweeping;

pub use acting::{copied, deleted, last_name, made_folder, moved, nothing_done, stored};
pub use chunks::chunk_limit;
pub use discarding::{done, emptied, item_dropped, item_restored, trash_of};
pub use ending::{decide_end, new_file};
pub use limits::{
    back_limit, carry_limit, copy_limit, limit_at, limit_with, offer_limit, passes, pieces_of,
    restored_limit,
};
pub use people::{are_named, is_taken, people_done, people_limit};
pub use quotas::{back_excess, carry_excess, copy_excess, excess_at, restore_excess};
pub use receiving::{mounts_for, push_mounts};
pub use refilling::{refilled, version_back};
pub use sweeping::{abandon, swept};
