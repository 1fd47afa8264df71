//! What is asked of the site and what it answers: requests, denials, goals, replies, events and entries.
//! The step and the legal history stand in `specs/`.
#![tactic(auto)]

mod answer;
mod history;
mod laws;
mod limits;
mod listing;
mod request;
mod route;
mod sharing;

pub use answer::{
    Allowed, Answer, Breach, By, Damage, Deed, Deeds, Denial, Excess, Goal, Hold, Limit, LockKey,
    Measure, Mode, NodeRows, Parameter, Reply, Report, TargetFault, UploadFault,
};
pub use history::{Entry, Event, Mark, Outcome, Ticket};
pub use laws::{
    ends_free, grants_ticket, marks_answer, others_keep, refusals_keep, rules_in_order,
    seats_differ,
};
pub use limits::{MAX_IDLE, MAX_PENDING, MAX_UPLOADS};
pub use listing::{ItemLine, Items, Listing, ListingLine, VersionLine, Versions};
pub use request::{
    Asked, Caller, Making, Offer, PeopleAsk, Places, Receiver, Request, ShareAsk, Sharee, Spot,
    Transfer, TrashAsk, Until, UploadAsk, VersionAsk, Wanted, Words,
};
pub use route::Route;
pub use sharing::{Recipient, ShareLine, ShareLines};
