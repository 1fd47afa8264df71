//! The state as a step reads it: its tables, lent one by one, and what is found in them.
#![tactic(auto)]

mod asked;
mod homes;
mod nodes;
mod rows;
mod transferring;
mod view;

pub use asked::{
    is_forbidden, is_forbidden_path, is_kept, is_no_other, is_transfer, names_caller, node_at,
    node_found,
};
pub use homes::{home_of, name_back};
pub use nodes::{bytes_of, content_of, is_folder, is_root, kind_of, owner_of};
pub use rows::{dropped, ended, item_row, version_row, versions_of};
pub use transferring::{crosses, transfer_of, unfit};
pub use view::View;
