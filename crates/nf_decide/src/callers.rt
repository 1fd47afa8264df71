//! Who asks, and the rules of that.

ghost use Rattle.std.specs.Prelude.{◌≡◌, option_copied};
ghost use Rattle.std.specs.Option.{option_map_or};
ghost use Rattle.nf_words.specs.Prelude.{access_of, AreSound, asker_of, asks_by_link, caller_row, is_about_files, is_by_link, link_of, linked_of, not_you_rule, root_of, seeker_of, token_rule, unlinked, user_of};
ghost use Rattle.nf_words.specs.Callers.{may_ask};
ghost use Rattle.nf_decide.specs.Deciding.{Follows, asking_of};

use crate::deciding::Call;
use nf_base::{NodeId, ShareId, ShareRow, UserId, UserRow};
use nf_defs::Seeker;
use nf_reach::Asker;
use nf_view::{is_no_other, names_caller};
use nf_words::{Caller, Denial, Wanted};

impl<'a> Call<'a> {
    /// The row of the user whose token the caller shows.
    pub(crate) fn caller(&self) -> Option<&UserRow>
        ensures { option_copied result ≡ caller_row self.entry.now }
    {
        self.view.people().row(self.user()?)
    }

    fn user(&self) -> Option<UserId>
        ensures { result ≡ user_of self.entry.now }
    {
        match &self.request.caller {
            Caller::Absent | Caller::Link(_) => None,
            Caller::Token(digest) => self.view.people().caller(digest),
        }
    }

    /// The share whose token the caller shows.
    pub(crate) fn link(&self) -> Option<&ShareRow>
        ensures { option_copied result ≡ link_of self.entry.now }
    {
        match &self.request.caller {
            Caller::Absent | Caller::Token(_) => None,
            Caller::Link(token) => self.view.shares().by_link(token.as_bytes()),
        }
    }

    fn is_by_link(&self) -> bool
        ensures { result ≡ is_by_link self.entry.now.request.caller }
    {
        match &self.request.caller {
            Caller::Absent | Caller::Token(_) => false,
            Caller::Link(_) => true,
        }
    }

    /// Whether files are asked about by a link, whether or not there is one of that token.
    fn asks_by_link(&self) -> bool
        ensures { result ≡ asks_by_link self.entry.now }
    {
        self.is_by_link() && is_about_files(&self.request.wanted)
    }

    /// Who asks, with the rows that access goes by.
    pub(crate) fn asker(&self, caller: Option<&UserRow>, link: Option<&ShareRow>) -> Asker<'_>
        requires sound { AreSound self.now.state.tables }
        requires caller { option_copied caller ≡ caller_row self.now }
        requires link { option_copied link ≡ link_of self.now }
        ensures { result ≡ asking_of self.entry.now }
    {
        let seeker = self.seeker(caller, link);
        self.view.asker(seeker, root_of(caller, link), self.now)
    }

    fn seeker(&self, caller: Option<&UserRow>, link: Option<&ShareRow>) -> Seeker
        requires caller { option_copied caller ≡ caller_row self.now }
        requires link { option_copied link ≡ link_of self.now }
        ensures { result ≡ seeker_of self.entry.now }
    {
        if self.is_by_link() {
            Seeker::Link(linked_of(link))
        } else {
            Seeker::User(asker_of(caller))
        }
    }

    // ---- the rules

    /// A user whose row is there asks, or somebody by a link.
    #[tactic(auto, unfolding(nf_words::specs::Callers::token_rule))]
    pub(crate) fn token(&self, caller: Option<&UserRow>) -> Result<(), Denial>
        requires { option_copied caller ≡ caller_row self.now }
        ensures { Follows (token_rule (access_of self.entry.now.state)) self.entry.now result }
    {
        if caller.is_some() || self.asks_by_link() {
            Ok(())
        } else {
            Err(Denial::Token)
        }
    }

    #[tactic(auto, unfolding(nf_words::specs::Callers::not_you_rule))]
    pub(crate) fn not_you(&self, caller: Option<&UserRow>) -> Result<(), Denial>
        requires { option_copied caller ≡ caller_row self.now }
        ensures { Follows (not_you_rule (access_of self.entry.now.state)) self.entry.now result }
    {
        let asked = self.request.wanted.asked();
        let are_callers = names_caller(caller, asked.source) && names_caller(caller, asked.target);
        if is_no_other(caller, asked.user) && are_callers && self.may_ask(caller) {
            Ok(())
        } else {
            Err(Denial::NotYou)
        }
    }

    /// Whether the caller may ask that: users and groups are asked about by members of the group `admin` alone.
    fn may_ask(&self, caller: Option<&UserRow>) -> bool
        requires { option_copied caller ≡ caller_row self.now }
        ensures { result ≡ may_ask self.entry.now }
    {
        match &self.request.wanted {
            Wanted::People(_) => self.view.people().is_admin(asker_of(caller)),
            Wanted::Share(_)
            | Wanted::Trash(_)
            | Wanted::Version(_)
            | Wanted::Upload(_)
            | Wanted::Get(_)
            | Wanted::Put { .. }
            | Wanted::Mkcol(_)
            | Wanted::Delete(_)
            | Wanted::Move { .. }
            | Wanted::Copy { .. } => true,
        }
    }

    /// Why there is nothing by the link that the caller shows: no share has its token.
    pub(crate) fn unlinked(&self, link: Option<&ShareRow>) -> Option<Denial>
        requires { option_copied link ≡ link_of self.now }
        ensures { result ≡ unlinked self.entry.now }
    {
        match &self.request.caller {
            Caller::Link(_) if link.is_none() => Some(Denial::NotFound),
            Caller::Link(_) | Caller::Absent | Caller::Token(_) => None,
        }
    }
}

/// Whether something is asked about files and folders.
fn is_about_files(wanted: &Wanted) -> bool
    ensures { result ≡ is_about_files wanted.now }
{
    match wanted {
        Wanted::Share(_)
        | Wanted::People(_)
        | Wanted::Trash(_)
        | Wanted::Version(_)
        | Wanted::Upload(_) => false,
        Wanted::Get(_)
        | Wanted::Put { .. }
        | Wanted::Mkcol(_)
        | Wanted::Delete(_)
        | Wanted::Move { .. }
        | Wanted::Copy { .. } => true,
    }
}

/// The number of the user who asks.
pub(crate) fn asker_of(caller: Option<&UserRow>) -> UserId
    ensures { result ≡ option_map_or (λ row. row.id) (option_copied caller.entry) 0 }
{
    match caller {
        Some(row) => row.id,
        None => UserId::new(0),
    }
}

/// The number of the share by whose link somebody asks.
fn linked_of(link: Option<&ShareRow>) -> ShareId
    ensures { result ≡ option_map_or (λ row. row.id) (option_copied link.entry) 0 }
{
    match link {
        Some(row) => row.id,
        None => ShareId::new(0),
    }
}

/// What the paths lead from.
fn root_of(caller: Option<&UserRow>, link: Option<&ShareRow>) -> NodeId
    ensures { result ≡ option_map_or (λ row. row.node) (option_copied link.entry) (option_map_or (λ row. row.root) (option_copied caller.entry) 0) }
{
    match (link, caller) {
        (Some(row), _) => row.node,
        (None, Some(row)) => row.root,
        (None, None) => NodeId::new(0),
    }
}
