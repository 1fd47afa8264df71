//! Laws of the site's states and histories. The functions do nothing: each stands for the fact that it ensures.
#![tactic(auto)]

mod access;
mod acts;
mod charges;
mod history;
mod joins;
mod listings;
mod locks;
mod reads;
mod tells;
mod transfers;
mod tree;
mod walks;
mod wholes;

pub use access::{
    changes_what_may_be_changed, lists_what_may_be_read, owners_and_reached_may,
    serves_what_may_be_read, what_may_be_read_is_listed, what_may_be_read_is_served,
};
pub use acts::{
    cut_bodies_keep, deletes_keep, drops_keep, folders_are_made, items_come_back,
    mounts_are_renamed, puts_keep, sweeps_take,
};
pub use charges::{
    charge_is_size_of_root, charges_leave_out_trash, quota_exactly, quotas_are_kept,
    writes_are_charged,
};
pub use history::{counters_rise, numbers_are_new, stays_sound};
pub use joins::{joins_are_charged, joins_are_whole};
pub use listings::{
    children_are_listed, lines_are_by_name, lines_are_these, mounts_are_listed,
    permissions_are_acts,
};
pub use locks::{held_is_there, holds_agree, locked_exactly, others_spare};
pub use reads::stored_is_read;
pub use tells::changes_tell;
pub use transfers::{copies_mirror, moves_keep};
pub use tree::{
    children_are_by_name, depth_is_climbed, names_are_taken, no_rings, nodes_are_present,
    paths_lead_to_present, present_is_there, shared_is_present, sizes_are_sums, under_is_derived,
    walks_take_all_under,
};
pub use walks::walk_follows;
pub use wholes::{blobs_are_new, opens_whole, stays_whole};
