//! What is asked about shares: what it names, and the rules of sharing.

ghost use Rattle.std.specs.Prelude.{◌≡◌, ◌&&◌, ℕ, false, List, if◌then◌else◌, is_some, None, option_and_then, option_copied, option_map, Some};
ghost use Rattle.std.specs.List.{list_any};
ghost use Rattle.nf_access.specs.Making.{is_again, is_token_taken};
ghost use Rattle.nf_access.specs.Shares.{is_link_kind};
ghost use Rattle.nf_base.specs.declared.rows.ShareKind.TheVariants as kind;
ghost use Rattle.nf_words.specs.Prelude.{access_of, asked_about, asker_of, kind_to, link_token, perms_to, usual_perms, way_of, ways_of};
ghost use Rattle.nf_words.specs.Sharing.{fault_by, fault_of_ask, is_long, is_past, is_seen_by, is_set_past, is_steered_by, is_wider, is_widened, named_rule, new_share, offer_fault, offer_of, offered_by, parent_by, perms_after, receiver_named, set_fault, share_shown, share_steered, sharing_rule, unnamed, unnamed_by};
ghost use Rattle.nf_words.specs.People.{are_named, is_taken};
ghost use Rattle.nf_words.specs.declared.answer.Breach.TheVariants as rule;
ghost use Rattle.nf_words.specs.declared.answer.Denial.TheVariants as denial;
ghost use Rattle.nf_words.specs.declared.request.Receiver.TheVariants as receiver;
ghost use Rattle.nf_decide.specs.Deciding.{Follows, asking_of, offer_by, offer_in};
ghost use Rattle.nf_decide.specs.Linked.{passing_fault};

use crate::deciding::Call;
use crate::listing::all_permissions;
use crate::tokens::link_token;
use nf_access::{is_part, perms_of_link, perms_of_share};
use nf_base::{MAX_CHAIN, Moment, NodeId, Perms, ShareId, ShareKind, ShareRow, UserId};
use nf_deeds::{are_named, is_taken};
use nf_reach::{Asker, Way, Ways};
use nf_shares::{Shares, is_before, is_self_share};
use nf_tree::Tree;
use nf_view::{View, is_root, kind_of, node_found, owner_of};
use nf_words::{Breach, Denial, Offer, PeopleAsk, Receiver, ShareAsk, Sharee, Until, Wanted};

impl<'a> Call<'a> {
    /// `not-found`: the user, the group, the share, the item of the trash or the file that is named.
    #[tactic(auto, unfolding(nf_words::specs::Sharing::named_rule))]
    pub(crate) fn named(&self, asker: &Asker<'_>) -> Result<(), Denial>
        requires { asker.now ≡ asking_of self.now }
        ensures { Follows (named_rule (access_of self.entry.now.state)) self.entry.now result }
    {
        match self.unnamed_by(asker) {
            Some(refusal) => Err(refusal),
            None => Ok(()),
        }
    }

    fn unnamed_by(&self, asker: &Asker<'_>) -> Option<Denial>
        requires { asker.now ≡ asking_of self.now }
        ensures { result ≡ unnamed_by self.entry.now self.entry.now.request.wanted }
    {
        match &self.request.wanted {
            Wanted::Share(ask) => self.unnamed(asker, ask),
            Wanted::People(ask) => self.people_unnamed(ask),
            Wanted::Trash(ask) => self.untrashed(asker, ask),
            Wanted::Version(ask) => self.unversioned(asker, ask),
            Wanted::Upload(_)
            | Wanted::Get(_)
            | Wanted::Put { .. }
            | Wanted::Mkcol(_)
            | Wanted::Delete(_)
            | Wanted::Move { .. }
            | Wanted::Copy { .. } => None,
        }
    }

    /// What isn't there of what is asked about users and groups.
    fn people_unnamed(&self, ask: &PeopleAsk) -> Option<Denial>
        ensures { result ≡ (if are_named self.entry.now.state.tables ask.now then None else Some denial.NotFound) }
    {
        if are_named(&self.view, ask) {
            None
        } else {
            Some(Denial::NotFound)
        }
    }

    /// What isn't there of what is asked about shares.
    fn unnamed(&self, asker: &Asker<'_>, ask: &ShareAsk) -> Option<Denial>
        requires { asker.now ≡ asking_of self.now }
        ensures { result ≡ unnamed self.entry.now ask.now }
    {
        let is_known = match ask {
            ShareAsk::New { to, .. } => receiver_named(&self.view, to).is_some(),
            ShareAsk::List { .. } => true,
            ShareAsk::Show(share) => self.share_shown(asker, *share).is_some(),
            ShareAsk::Set { share, .. } => self.share_steered(asker, *share).is_some(),
            ShareAsk::End(share) => self.share_steered(asker, *share).is_some(),
        };
        if is_known {
            None
        } else {
            Some(Denial::NotFound)
        }
    }

    /// `rule`: what is asked breaks a rule of sharing, or a name or a token is taken.
    #[tactic(auto, unfolding(nf_words::specs::Sharing::sharing_rule))]
    pub(crate) fn sharing(&self, asker: &Asker<'_>, offer: &Option<Offer>) -> Result<(), Denial>
        requires asker { asker.now ≡ asking_of self.now }
        requires offer { offer.now ≡ offer_in self.now self.now.request.wanted }
        ensures { Follows (sharing_rule (access_of self.entry.now.state)) self.entry.now result }
    {
        match self.fault_by(asker, offer) {
            Some(rule) => Err(Denial::Rule(rule)),
            None => Ok(()),
        }
    }

    fn fault_by(&self, asker: &Asker<'_>, offer: &Option<Offer>) -> Option<Breach>
        requires asker { asker.now ≡ asking_of self.now }
        requires offer { offer.now ≡ offer_in self.now self.now.request.wanted }
        ensures { result ≡ fault_by (access_of self.entry.now.state) self.entry.now self.entry.now.request.wanted }
    {
        match &self.request.wanted {
            Wanted::Share(ask) => self.fault_of_ask(asker, offer, ask),
            Wanted::People(ask) => self.people_fault(ask),
            Wanted::Trash(_)
            | Wanted::Version(_)
            | Wanted::Upload(_)
            | Wanted::Get(_)
            | Wanted::Put { .. }
            | Wanted::Mkcol(_)
            | Wanted::Delete(_)
            | Wanted::Move { .. }
            | Wanted::Copy { .. } => None,
        }
    }

    fn people_fault(&self, ask: &PeopleAsk) -> Option<Breach>
        ensures { result ≡ (if is_taken self.entry.now.state.tables ask.now then Some rule.Taken else None) }
    {
        if is_taken(&self.view, ask) {
            Some(Breach::Taken)
        } else {
            None
        }
    }

    fn fault_of_ask(
        &self,
        asker: &Asker<'_>,
        offer: &Option<Offer>,
        ask: &ShareAsk,
    ) -> Option<Breach>
        requires asker { asker.now ≡ asking_of self.now }
        requires offer { offer.now ≡ offer_by self.now ask.now }
        ensures { result ≡ fault_of_ask (access_of self.entry.now.state) self.entry.now ask.now }
    {
        match ask {
            ShareAsk::New { .. } => self.offer_fault(asker, offer.as_ref()?),
            ShareAsk::Set {
                share,
                perms,
                until,
            } => {
                let row = self.share_steered(asker, *share)?;
                self.set_fault(asker, *perms, *until, row)
            }
            ShareAsk::List { .. } | ShareAsk::Show(_) | ShareAsk::End(_) => None,
        }
    }

    /// The first rule that a new share would break.
    fn offer_fault(&self, asker: &Asker<'_>, offer: &Offer) -> Option<Breach>
        requires { asker.now ≡ asking_of self.now }
        ensures { result ≡ offer_fault (access_of self.entry.now.state) self.entry.now offer.now }
    {
        let kind = match offer.to {
            Receiver::User(user) => ShareKind::User(user),
            Receiver::Group(group) => ShareKind::Group(group),
            Receiver::Link => return self.link_fault(asker, offer),
        };
        let row = self.new_share(asker, offer, kind);
        self.row_fault(asker, offer, &row)
    }

    /// The same of a link, which is nobody's own and never the same as another.
    #[tactic(auto, using(crate::proofs::Faults::of_link))]
    fn link_fault(&self, asker: &Asker<'_>, offer: &Offer) -> Option<Breach>
        requires asker { asker.now ≡ asking_of self.now }
        requires link { offer.now.to ≡ receiver.Link }
        ensures { result ≡ offer_fault (access_of self.entry.now.state) self.entry.now offer.now }
    {
        if is_root(self.view.tree(), offer.node) {
            Some(Breach::Root)
        } else if is_past(self.now, offer.until) {
            Some(Breach::Past)
        } else {
            self.passing_fault(asker, offer, &self.parent_by(asker, offer))
        }
    }

    /// What forbids a link to stand on that share, or to be made at all.
    fn passing_fault(
        &self,
        asker: &Asker<'_>,
        offer: &Offer,
        parent: &Option<ShareId>,
    ) -> Option<Breach>
        requires asker { asker.now ≡ asking_of self.now }
        requires parent { parent.now ≡ parent_by (access_of self.now.state) self.now offer.now }
        ensures { result ≡ passing_fault (access_of self.entry.now.state) self.entry.now offer.now }
    {
        if self.is_widened(asker, offer, *parent) {
            Some(Breach::Widened)
        } else if is_long(self.view.shares(), *parent) {
            Some(Breach::Chain)
        } else if self.is_token_taken() {
            Some(Breach::TokenTaken)
        } else {
            None
        }
    }

    /// Whether there is a link already of the token that a new one would have.
    fn is_token_taken(&self) -> bool
        ensures { result ≡ is_token_taken self.entry.now.state.tables.shares (kind.Link (link_token self.entry.now.words)) }
    {
        self.view
            .shares()
            .by_link(&link_token(self.words))
            .is_some()
    }

    /// The same, by the row of the new share, which is no link.
    #[tactic(auto, using(crate::proofs::Faults::no_token_taken))]
    fn row_fault(&self, asker: &Asker<'_>, offer: &Offer, row: &ShareRow) -> Option<Breach>
        requires asker { asker.now ≡ asking_of self.now }
        requires kind { is_link_kind row.now.kind ≡ false }
        requires row { row.now ≡ new_share (access_of self.now.state) self.now offer.now }
        ensures { result ≡ offer_fault (access_of self.entry.now.state) self.entry.now offer.now }
    {
        let shares = self.view.shares();
        if is_root(self.view.tree(), offer.node) {
            Some(Breach::Root)
        } else if is_self_share(row) {
            Some(Breach::SelfShare)
        } else if is_past(self.now, offer.until) {
            Some(Breach::Past)
        } else if is_there_again(shares, row, self.now) {
            Some(Breach::Already)
        } else if self.is_widened(asker, offer, row.parent) {
            Some(Breach::Widened)
        } else if is_long(shares, row.parent) {
            Some(Breach::Chain)
        } else {
            None
        }
    }

    /// Whether what is another's isn't passed on by a share that allows that.
    fn is_widened(&self, asker: &Asker<'_>, offer: &Offer, parent: Option<ShareId>) -> bool
        requires asker { asker.now ≡ asking_of self.now }
        requires parent { parent ≡ parent_by (access_of self.now.state) self.now offer.now }
        ensures { result ≡ is_widened (access_of self.entry.now.state) self.entry.now offer.now }
    {
        !asker.owns(offer.node) && parent.is_none()
    }

    /// Why a share can't have the end and the permissions that are asked for.
    fn set_fault(
        &self,
        asker: &Asker<'_>,
        perms: Option<Perms>,
        until: Until,
        row: &ShareRow,
    ) -> Option<Breach>
        requires { asker.now ≡ asking_of self.now }
        ensures { result ≡ set_fault self.entry.now.state.tables self.entry.now.now perms until row.now }
    {
        if is_set_past(self.now, until) {
            return Some(Breach::Past);
        }
        self.perms_fault(asker, perms, row)
    }

    /// Why it can't have the permissions.
    fn perms_fault(&self, asker: &Asker<'_>, perms: Option<Perms>, row: &ShareRow) -> Option<Breach>
        requires { asker.now ≡ asking_of self.now }
        ensures { result ≡ (if is_some perms && is_wider self.entry.now.state.tables.shares row.now.parent (perms_after self.entry.now.state.tables perms row.now) then Some rule.Widened else None) }
    {
        match perms {
            Some(_) => self.widened(asker, row.parent, perms_after(&self.view, perms, row)),
            None => None,
        }
    }

    fn widened(&self, asker: &Asker<'_>, parent: Option<ShareId>, perms: Perms) -> Option<Breach>
        requires { asker.now ≡ asking_of self.now }
        ensures { result ≡ (if is_wider self.entry.now.state.tables.shares parent perms then Some rule.Widened else None) }
    {
        if self.is_wider(asker, parent, perms) {
            Some(Breach::Widened)
        } else {
            None
        }
    }

    /// Whether a share with those permissions would allow more than the chain that it stands on.
    fn is_wider(&self, asker: &Asker<'_>, parent: Option<ShareId>, perms: Perms) -> bool
        requires { asker.now ≡ asking_of self.now }
        ensures { result ≡ is_wider self.entry.now.state.tables.shares parent perms }
    {
        match parent {
            Some(parent) => !is_part(perms, asker.mask(parent)),
            None => false,
        }
    }
}

/// Whether a chain on such a share would be too long.
fn is_long(shares: &Shares, parent: Option<ShareId>) -> bool
    ensures { result ≡ is_long shares.now.rows parent }
{
    match parent {
        Some(parent) => shares.depth(parent) >= MAX_CHAIN,
        None => false,
    }
}

/// Whether what ends then would have ended by now.
fn is_past(now: Moment, until: Option<Moment>) -> bool
    ensures { result ≡ is_past now until }
{
    !is_before(now, until)
}

/// The same of an end that is asked for.
fn is_set_past(now: Moment, until: Until) -> bool
    ensures { result ≡ is_set_past now until }
{
    match until {
        Until::Keep | Until::Never => false,
        Until::At(moment) => is_past(now, Some(moment)),
    }
}

// ---- what it names

impl<'a> Call<'a> {
    /// The share of that number, where the caller may change and end it and it isn't ended.
    pub(crate) fn share_steered(&self, asker: &Asker<'_>, share: ShareId) -> Option<&ShareRow>
        requires { asker.now ≡ asking_of self.now }
        ensures { option_copied result ≡ share_steered self.entry.now share }
    {
        let row = self.view.shares().row(share)?;
        if !row.ended && self.steers(asker, row) {
            Some(row)
        } else {
            None
        }
    }

    /// The share of that number, where the caller may see it and it isn't ended.
    pub(crate) fn share_shown(&self, asker: &Asker<'_>, share: ShareId) -> Option<&ShareRow>
        requires { asker.now ≡ asking_of self.now }
        ensures { option_copied result ≡ share_shown self.entry.now share }
    {
        let row = self.view.shares().row(share)?;
        if !row.ended && self.sees(asker, row) {
            Some(row)
        } else {
            None
        }
    }

    /// Whether the caller made the share, or owned its node when it was made.
    #[tactic(auto, using(crate::proofs::Askers::user_asks))]
    fn steers(&self, asker: &Asker<'_>, row: &ShareRow) -> bool
        requires { asker.now ≡ asking_of self.now }
        ensures { result ≡ is_steered_by (asker_of self.entry.now) row.now }
    {
        is_steered_by(asker.user(), row)
    }

    /// Whether the caller may see the share.
    #[tactic(auto, using(crate::proofs::Askers::user_asks))]
    fn sees(&self, asker: &Asker<'_>, row: &ShareRow) -> bool
        requires { asker.now ≡ asking_of self.now }
        ensures { result ≡ is_seen_by self.entry.now.state.tables.members (asker_of self.entry.now) row.now }
    {
        self.steers(asker, row) || asker.receives(row)
    }

    /// The share that is asked for, where its path leads to what is there and whom it names is there.
    pub(crate) fn offer(&self, ways: &Ways) -> Option<Offer>
        requires { ways.now ≡ ways_of self.now }
        ensures { result ≡ offer_in self.entry.now self.entry.now.request.wanted }
    {
        match &self.request.wanted {
            Wanted::Share(ask) => self.offer_by(&ways.source, ask),
            Wanted::People(_)
            | Wanted::Trash(_)
            | Wanted::Version(_)
            | Wanted::Upload(_)
            | Wanted::Get(_)
            | Wanted::Put { .. }
            | Wanted::Mkcol(_)
            | Wanted::Delete(_)
            | Wanted::Move { .. }
            | Wanted::Copy { .. } => None,
        }
    }

    fn offer_by(&self, source: &Option<Way>, ask: &ShareAsk) -> Option<Offer>
        requires { source.now ≡ option_map (way_of self.now) (asked_about ask.now).source }
        ensures { result ≡ offer_by self.entry.now ask.now }
    {
        match ask {
            ShareAsk::New {
                to,
                perms,
                until,
                ..
            } => self.offered(source, to, *perms, *until),
            ShareAsk::List { .. } | ShareAsk::Show(_) | ShareAsk::Set { .. } | ShareAsk::End(_) =>
                None,
        }
    }

    fn offered(
        &self,
        way: &Option<Way>,
        to: &Sharee,
        perms: Option<Perms>,
        until: Option<Moment>,
    ) -> Option<Offer>
        ensures { result ≡ option_and_then (λ way. offered_by self.entry.now way perms until (receiver_named self.entry.now.state.tables to.now)) way.now }
    {
        match way {
            Some(way) => self.offered_by(way, perms, until, receiver_named(&self.view, to)),
            None => None,
        }
    }

    fn offered_by(
        &self,
        way: &Way,
        perms: Option<Perms>,
        until: Option<Moment>,
        to: Option<Receiver>,
    ) -> Option<Offer>
        ensures { result ≡ offered_by self.entry.now way.now perms until to }
    {
        let node = node_found(&way.place)?;
        Some(offer_of(self.view.tree(), way.mount, perms, until, node, &to?))
    }

    /// The row of the new share, of that kind.
    #[tactic(auto, using(crate::proofs::Askers::user_asks))]
    pub(crate) fn new_share(&self, asker: &Asker<'_>, offer: &Offer, kind: ShareKind) -> ShareRow
        requires asker { asker.now ≡ asking_of self.now }
        requires kind { kind ≡ kind_to (link_token self.now.words) offer.now.to }
        ensures { result ≡ new_share (access_of self.entry.now.state) self.entry.now offer.now }
    {
        ShareRow {
            id: self.view.meta().next_share,
            kind,
            node: offer.node,
            owner: owner_of(self.view.tree(), offer.node),
            initiator: asker.user(),
            parent: self.parent_by(asker, offer),
            perms: offer.perms,
            until: offer.until,
            ended: false,
            made: self.now,
        }
    }

    /// The share that a new one stands on; what is the caller's own stands on none.
    fn parent_by(&self, asker: &Asker<'_>, offer: &Offer) -> Option<ShareId>
        requires { asker.now ≡ asking_of self.now }
        ensures { result ≡ parent_by (access_of self.entry.now.state) self.entry.now offer.now }
    {
        if asker.owns(offer.node) {
            None
        } else {
            asker.passes_on(offer.perms, offer.mount?)
        }
    }
}

/// A share of a node that is there.
fn offer_of(
    tree: &Tree,
    mount: Option<NodeId>,
    perms: Option<Perms>,
    until: Option<Moment>,
    node: NodeId,
    to: &Receiver,
) -> Offer
    ensures { (token : List ℕ) → result ≡ offer_of tree.now.rows token mount perms until node to.now }
{
    let perms = perms_to(tree, node, perms, to);
    Offer {
        node,
        mount,
        to: *to,
        perms,
        until,
    }
}

/// The permissions of a new share of a node: those that are asked for, or the usual ones, as far as it may have them.
fn perms_to(tree: &Tree, node: NodeId, perms: Option<Perms>, to: &Receiver) -> Perms
    ensures { (token : List ℕ) → result ≡ perms_to tree.now.rows token node perms to.now }
{
    let wanted = perms.unwrap_or(usual_perms(to));
    let node = kind_of(tree, node);
    match to {
        Receiver::User(user) => perms_of_share(node, &ShareKind::User(*user), wanted),
        Receiver::Group(group) => perms_of_share(node, &ShareKind::Group(*group), wanted),
        Receiver::Link => perms_of_link(node, wanted),
    }
}

/// The permissions that are asked for where none are named: all, and of a link to read alone.
fn usual_perms(to: &Receiver) -> Perms
    ensures { result ≡ usual_perms to.now }
{
    match to {
        Receiver::User(_) | Receiver::Group(_) => all_permissions(),
        Receiver::Link => Perms::read(1).unwrap(),
    }
}

/// The user or the group of that name, or whoever will know a link.
fn receiver_named(view: &View<'_>, to: &Sharee) -> Option<Receiver>
    ensures { result ≡ receiver_named view.now.tables to.now }
{
    match to {
        Sharee::User(name) => Some(Receiver::User(view.people().user(name)?)),
        Sharee::Group(name) => Some(Receiver::Group(view.people().group(name)?)),
        Sharee::Link => Some(Receiver::Link),
    }
}

/// The permissions that a share has once some are asked for.
pub(crate) fn perms_after(view: &View<'_>, perms: Option<Perms>, row: &ShareRow) -> Perms
    ensures { result ≡ perms_after view.now.tables perms row.now }
{
    match perms {
        Some(perms) => perms_of_share(kind_of(view.tree(), row.node), &row.kind, perms),
        None => row.perms,
    }
}

/// Whether the user made the share, or owned its node when it was made, and so may change and end it.
pub(crate) fn is_steered_by(user: UserId, row: &ShareRow) -> bool
    ensures { result ≡ is_steered_by user row.now }
{
    row.initiator == user || row.owner == user
}

/// Whether a share gives the same already.
fn is_there_again(shares: &Shares, row: &ShareRow, now: Moment) -> bool
    ensures { result ≡ list_any (is_again row.now now) shares.now.rows }
{
    shares.again(row, now).is_some()
}
