//! The rules that refuse a request, and what a request that none of them refuses may do.

ghost use Rattle.std.specs.Prelude.{◌≡◌, ◌≤◌, IfOk, MatchResult, OnOk, None, Some, false, length, option_and_then, option_copied, option_map};
ghost use Rattle.std.specs.Option.{option_or};
ghost use Rattle.nf_defs.specs.Prelude.{is_folder};
ghost use Rattle.nf_words.specs.Prelude.{access_of, acts_rule, allowed_of, AreSound, asked_by, asker_of, call_decision, exceeded, excess_at, exists_rule, forbidden_rule, is_there, limit_at, limited, link_of, overwrite_rule, place_rule, places_of, root_of, seeker_of, served, shared, taken, target_rule, ways_of};
ghost use Rattle.nf_words.specs.Sharing.{limit_by, offer_limit};
ghost use Rattle.nf_words.specs.declared.answer.Denial.TheVariants.{Limit as TheLimit, Quota};
ghost use Rattle.nf_decide.specs.Deciding.{excess_in, Follows, IsNamed, IsThere, asking_of, early_refusal, late_refusal, locked_at, offer_by, offer_in, passed_at, place_refusal};

use crate::callers::asker_of;
use crate::locking::locked;
use crate::mounting::mount_itself;
use nf_base::{Moment, NodeId, ShareRow, UserId};
use nf_deeds::{
    back_excess, back_limit, carry_excess, carry_limit, copied, copy_excess, copy_limit, deleted,
    excess_at, limit_at, made_folder, moved, offer_limit, people_done, people_limit, pieces_of,
    restore_excess, restored_limit, stored,
};
use nf_defs::{Found, Seeker};
use nf_reach::{Asker, Way, Ways};
use nf_tree::Tree;
use nf_view::{
    View, is_folder, is_forbidden, is_forbidden_path, is_kept, is_transfer, item_row, node_at,
    transfer_of, unfit,
};
use nf_words::{
    Allowed, By, Denial, Excess, Limit, Making, Offer, Places, Request, Route, ShareAsk, Wanted,
    Words,
};
use std::alloc::{AllocError, Global};
use std::marker::Model;

/// A Begin in its state, which the rules judge.
#[derive(Drop)]
pub struct Call<'a> {
    pub view: View<'a>,
    pub seat: u64,
    pub now: Moment,
    pub words: Words,
    pub request: &'a Request,
}

impl<'a> Model for Call<'a> {
    ghost use Rattle.nf_words.specs.Calls.{Call};

    ghost Value = { Call };

    ghost view = { λ call. record {
      state = call.view;
      seat = call.seat;
      now = call.now;
      words = call.words;
      request = call.request.now;
    } };
}

/// What the rules found: who asks, what the paths lead from and to, and the share that is asked for.
#[derive(Clone, Copy)]
struct Seen {
    /// The number of the user who asks.
    caller: UserId,
    seeker: Seeker,
    root: NodeId,
    ways: Ways,
    places: Places,
    offer: Option<Offer>,
}

impl<'a> Call<'a> {
    /// What the step may do, or its refusal by the first rule that holds.
    pub fn decide(&self, alloc: Global) -> Result<Result<Allowed, Denial>, AllocError>
        requires sound { AreSound self.now.state.tables }
        requires late { self.now.state.tables.meta.last ≤ self.now.now }
        ensures { IfOk result (λ decision. decision ≡ call_decision self.entry.now) }
    {
        let seen = match self.judge() {
            Ok(seen) => seen,
            Err(refusal) => return Ok(Err(refusal)),
        };
        match self.late(alloc, &seen)? {
            Some(refusal) => Ok(Err(refusal)),
            None => Ok(Ok(self.allowed(alloc, &seen)?)),
        }
    }

    /// The rules behind those that are judged: the locks, then the limits, then the quotas. These alone take memory.
    fn late(&self, alloc: Global, seen: &Seen) -> Result<Option<Denial>, AllocError>
        requires sound { AreSound self.now.state.tables }
        requires caller { seen.now.caller ≡ asker_of self.now }
        requires places { seen.now.places ≡ places_of self.now }
        requires offer { seen.now.offer ≡ offer_in self.now self.now.request.wanted }
        requires there { IsThere self.now.state.tables seen.now.offer }
        ensures { IfOk result (λ refusal. refusal ≡ late_refusal (access_of self.entry.now.state) self.entry.now) }
    {
        match self.locked(alloc, &seen.places)? {
            Some(refusal) => Ok(Some(refusal)),
            None => self.beyond(alloc, seen),
        }
    }

    /// The limit that the step would pass, or else how it would pass a quota.
    fn beyond(&self, alloc: Global, seen: &Seen) -> Result<Option<Denial>, AllocError>
        requires sound { AreSound self.now.state.tables }
        requires caller { seen.now.caller ≡ asker_of self.now }
        requires places { seen.now.places ≡ places_of self.now }
        requires offer { seen.now.offer ≡ offer_in self.now self.now.request.wanted }
        requires there { IsThere self.now.state.tables seen.now.offer }
        ensures { IfOk result (λ refusal. refusal ≡ option_or (option_map TheLimit (passed_at self.entry.now seen.now.places)) (option_map Quota (excess_in self.entry.now seen.now.places))) }
    {
        match self.passed(alloc, seen)? {
            Some(limit) => Ok(Some(Denial::Limit(limit))),
            None => match self.excess(seen) {
                Some(excess) => Ok(Some(Denial::Quota(excess))),
                None => Ok(None),
            },
        }
    }

    /// The limit that the step would pass, of nodes and pieces, or else of shares, mounts, people and uploads.
    fn passed(&self, alloc: Global, seen: &Seen) -> Result<Option<Limit>, AllocError>
        requires sound { AreSound self.now.state.tables }
        requires caller { seen.now.caller ≡ asker_of self.now }
        requires places { seen.now.places ≡ places_of self.now }
        requires offer { seen.now.offer ≡ offer_in self.now self.now.request.wanted }
        requires there { IsThere self.now.state.tables seen.now.offer }
        ensures { IfOk result (λ limit. limit ≡ passed_at self.entry.now seen.now.places) }
    {
        match self.limit(alloc, &seen.places)? {
            Some(limit) => Ok(Some(limit)),
            None => self.room(alloc, seen.caller, &seen.places, &seen.offer),
        }
    }

    /// How the step would pass the quota of who is charged for it: by what is made there, or else by what the chunks of an upload have.
    fn excess(&self, seen: &Seen) -> Option<Excess>
        requires sound { AreSound self.now.state.tables }
        requires caller { seen.now.caller ≡ asker_of self.now }
        requires places { seen.now.places ≡ places_of self.now }
        ensures { result ≡ excess_in self.entry.now seen.now.places }
    {
        match self.exceeded(&seen.places) {
            Some(excess) => Some(excess),
            None => self.upload_excess(seen.caller, &seen.places),
        }
    }

    /// The limit of shares, mounts, people or uploads that what is asked would pass.
    fn room(
        &self,
        alloc: Global,
        caller: UserId,
        places: &Places,
        offer: &Option<Offer>,
    ) -> Result<Option<Limit>, AllocError>
        requires sound { AreSound self.now.state.tables }
        requires caller { caller ≡ asker_of self.now }
        requires places { places.now ≡ places_of self.now }
        requires offer { offer.now ≡ offer_in self.now self.now.request.wanted }
        requires there { IsThere self.now.state.tables offer.now }
        ensures { IfOk result (λ limit. limit ≡ limit_by self.entry.now self.entry.now.request.wanted) }
    {
        match &self.request.wanted {
            Wanted::Share(_) => self.offer_room(alloc, offer),
            Wanted::People(ask) => people_limit(alloc, &self.view, ask),
            Wanted::Upload(ask) => Ok(self.upload_limit(caller, places, ask)),
            Wanted::Trash(_)
            | Wanted::Version(_)
            | Wanted::Get(_)
            | Wanted::Put { .. }
            | Wanted::Mkcol(_)
            | Wanted::Delete(_)
            | Wanted::Move { .. }
            | Wanted::Copy { .. } => Ok(None),
        }
    }

    /// The limit that a new share would pass, where one is asked for.
    fn offer_room(&self, alloc: Global, offer: &Option<Offer>) -> Result<Option<Limit>, AllocError>
        requires sound { AreSound self.now.state.tables }
        requires there { IsThere self.now.state.tables offer.now }
        ensures { IfOk result (λ limit. limit ≡ option_and_then (offer_limit self.entry.now.state.tables) offer.now) }
    {
        match offer {
            Some(offer) => offer_limit(alloc, &self.view, offer),
            None => Ok(None),
        }
    }

    fn locked(&self, alloc: Global, places: &Places) -> Result<Option<Denial>, AllocError>
        requires { AreSound self.now.state.tables }
        ensures { IfOk result (λ refusal. refusal ≡ locked_at self.entry.now places.now) }
    {
        let asked = self.request.wanted.asked();
        locked(alloc, &self.view, self.seat, &asked, places)
    }

    /// The rules before the locks, in their order. The row of the caller or of the link is looked up once, and each path once.
    fn judge(&self) -> Result<Seen, Denial>
        requires { AreSound self.now.state.tables }
        ensures judged { Follows (early_refusal (access_of self.entry.now.state)) self.entry.now result }
        ensures caller { IfOk result (λ seen. seen.caller ≡ asker_of self.entry.now) }
        ensures seeker { IfOk result (λ seen. seen.seeker ≡ seeker_of self.entry.now) }
        ensures root { IfOk result (λ seen. seen.root ≡ root_of self.entry.now) }
        ensures ways { IfOk result (λ seen. seen.ways ≡ ways_of self.entry.now) }
        ensures places { IfOk result (λ seen. seen.places ≡ places_of self.entry.now) }
        ensures offer { IfOk result (λ seen. seen.offer ≡ offer_in self.entry.now self.entry.now.request.wanted) }
        ensures exists { IfOk result (λ _. exists_rule (access_of self.entry.now.state) self.entry.now ≡ None) }
        ensures named { IfOk result (λ _. IsNamed self.entry.now) }
        ensures there { IfOk result (λ seen. IsThere self.entry.now.state.tables seen.offer) }
    {
        let (caller, link) = (self.caller(), self.link());
        self.token(caller)?;
        self.not_you(caller)?;
        self.forbidden()?;
        let asker = self.asker(caller, link);
        let caller = asker_of(caller);
        let ways = self.ways(&asker);
        self.reached(&asker, caller, link, &ways)?;
        self.named(&asker)?;
        self.allows(&asker, &ways)?;
        self.lacks_version()?;
        let places = self.places(&ways);
        let offer = self.offer(&ways);
        self.places_fit(&asker, caller, &ways, &places, &offer)?;
        Ok(Seen {
            caller,
            seeker: asker.seeker(),
            root: asker.root(),
            ways,
            places,
            offer,
        })
    }

    /// The rules of what the paths lead to, of sharing and of uploads, in their order.
    fn places_fit(
        &self,
        asker: &Asker<'_>,
        caller: UserId,
        ways: &Ways,
        places: &Places,
        offer: &Option<Offer>,
    ) -> Result<(), Denial>
        requires sound { AreSound self.now.state.tables }
        requires asker { asker.now ≡ asking_of self.now }
        requires caller { caller ≡ asker_of self.now }
        requires ways { ways.now ≡ ways_of self.now }
        requires places { places.now ≡ places_of self.now }
        requires offer { offer.now ≡ offer_in self.now self.now.request.wanted }
        ensures rules { Follows (place_refusal (access_of self.entry.now.state)) self.entry.now result }
        ensures exists { OnOk result (exists_rule (access_of self.entry.now.state) self.entry.now ≡ None) }
        ensures target { OnOk result (target_rule (access_of self.entry.now.state) self.entry.now ≡ None) }
    {
        self.exists(caller, places)?;
        self.target(asker.root(), ways)?;
        self.overwrite(places)?;
        self.sharing(asker, offer)?;
        self.upload_fits(caller)
    }

    #[tactic(auto, unfolding(nf_words::specs::Places::forbidden_rule))]
    fn forbidden(&self) -> Result<(), Denial>
        ensures { Follows (forbidden_rule (access_of self.entry.now.state)) self.entry.now result }
    {
        let asked = self.request.wanted.asked();
        let are_places = is_forbidden(asked.source) || is_forbidden(asked.target);
        if are_places || is_forbidden_path(asked.intended) {
            Err(Denial::ForbiddenName)
        } else {
            Ok(())
        }
    }

    #[tactic(auto, unfolding(nf_words::specs::Reached::place_rule))]
    fn reached(
        &self,
        asker: &Asker<'_>,
        caller: UserId,
        link: Option<&ShareRow>,
        ways: &Ways,
    ) -> Result<(), Denial>
        requires asker { asker.now ≡ asking_of self.now }
        requires caller { caller ≡ asker_of self.now }
        requires link { option_copied link ≡ link_of self.now }
        requires ways { ways.now ≡ ways_of self.now }
        ensures { Follows (place_rule (access_of self.entry.now.state)) self.entry.now result }
    {
        let asked = self.request.wanted.asked();
        unless(self.unlinked(link))?;
        unless(asker.source_lost(&asked, ways))?;
        unless(self.unopened(caller))?;
        unless(asker.target_lost(ways))
    }

    #[tactic(auto, using(crate::proofs::Allowing::acts_by))]
    fn allows(&self, asker: &Asker<'_>, ways: &Ways) -> Result<(), Denial>
        requires asker { asker.now ≡ asking_of self.now }
        requires ways { ways.now ≡ ways_of self.now }
        ensures { Follows (acts_rule (access_of self.entry.now.state)) self.entry.now result }
    {
        let asked = self.request.wanted.asked();
        unless(asker.acts(&asked, ways))?;
        unless(self.version_refused(asker))
    }

    #[tactic(auto, unfolding(nf_words::specs::Places::exists_rule))]
    fn exists(&self, caller: UserId, places: &Places) -> Result<(), Denial>
        requires caller { caller ≡ asker_of self.now }
        requires places { places.now ≡ places_of self.now }
        ensures { Follows (exists_rule (access_of self.entry.now.state)) self.entry.now result }
    {
        unless(self.taken(places))?;
        unless(self.opened(caller))
    }

    /// What is where a folder is to be made, or a folder where a file is to be stored.
    fn taken(&self, places: &Places) -> Option<Denial>
        ensures { result ≡ taken self.entry.now.state.tables.nodes places.now (asked_by self.entry.now).makes }
    {
        match self.request.wanted.asked().makes {
            Making::File { .. } if is_folder_at(self.tree(), places.target) => {
                Some(Denial::Exists(Route::Files))
            }
            Making::Folder if node_at(places.target).is_some() => {
                Some(Denial::Exists(Route::Files))
            }
            Making::Assembled if is_folder_at(self.tree(), places.target) => {
                Some(Denial::Exists(Route::Assembly))
            }
            Making::File { .. }
            | Making::Folder
            | Making::Assembled
            | Making::Nothing
            | Making::Moved
            | Making::Copied
            | Making::Shared
            | Making::Told
            | Making::Restored { .. }
            | Making::Sent { .. }
            | Making::Refilled { .. } => None,
        }
    }

    #[tactic(auto, unfolding(nf_words::specs::Places::target_rule))]
    fn target(&self, root: NodeId, ways: &Ways) -> Result<(), Denial>
        requires root { root ≡ root_of self.now }
        requires ways { ways.now ≡ ways_of self.now }
        ensures { Follows (target_rule (access_of self.entry.now.state)) self.entry.now result }
    {
        let asked = self.request.wanted.asked();
        match unfit(self.tree(), root, &asked, ways) {
            Some(fault) => Err(Denial::BadTarget(fault)),
            None => Ok(()),
        }
    }

    #[tactic(auto, unfolding(nf_words::specs::Places::overwrite_rule))]
    fn overwrite(&self, places: &Places) -> Result<(), Denial>
        requires { places.now ≡ places_of self.now }
        ensures { Follows (overwrite_rule (access_of self.entry.now.state)) self.entry.now result }
    {
        let asked = self.request.wanted.asked();
        if is_transfer(&asked.makes) && is_kept(asked.overwrites, places) {
            Err(Denial::Overwrite)
        } else {
            Ok(())
        }
    }

    /// The limit that the step would pass.
    fn limit(&self, alloc: Global, places: &Places) -> Result<Option<Limit>, AllocError>
        ensures { IfOk result (λ limit. limit ≡ limited self.entry.now.state.tables places.now (asked_by self.entry.now).makes) }
    {
        let view = &self.view;
        let asked = self.request.wanted.asked();
        match &asked.makes {
            Making::Nothing
            | Making::Shared
            | Making::Told
            | Making::Sent { .. }
            | Making::Assembled => Ok(None),
            Making::File { length } => Ok(limit_there(view, places.target, pieces_of(*length))),
            Making::Folder => Ok(limit_there(view, places.target, 0)),
            Making::Moved => match transfer_of(view.tree(), places) {
                Some(transfer) => carry_limit(alloc, view, &transfer),
                None => Ok(None),
            },
            Making::Copied => match transfer_of(view.tree(), places) {
                Some(transfer) => copy_limit(alloc, view, &transfer),
                None => Ok(None),
            },
            Making::Restored { item } => restored_limit(alloc, view, item_row(view, *item)),
            Making::Refilled { node, at } => Ok(back_limit(view, *node, *at)),
        }
    }

    /// How the step would pass the quota of who is charged for it.
    fn exceeded(&self, places: &Places) -> Option<Excess>
        requires { AreSound self.now.state.tables }
        ensures { result ≡ exceeded self.entry.now.state.tables places.now (asked_by self.entry.now).makes }
    {
        let view = &self.view;
        let asked = self.request.wanted.asked();
        match &asked.makes {
            Making::Nothing
            | Making::Folder
            | Making::Shared
            | Making::Told
            | Making::Sent { .. }
            | Making::Assembled => None,
            Making::File { length } => excess_there(view, places.target, *length),
            Making::Moved => carry_excess(view, &transfer_of(view.tree(), places)?),
            Making::Copied => copy_excess(view, &transfer_of(view.tree(), places)?),
            Making::Restored { item } => restore_excess(view, item_row(view, *item)?),
            Making::Refilled { node, at } => back_excess(view, *node, *at),
        }
    }

    /// What the act does where its paths lead. It copies what the step keeps.
    fn allowed(&self, alloc: Global, seen: &Seen) -> Result<Allowed, AllocError>
        requires sound { AreSound self.now.state.tables }
        requires seeker { seen.now.seeker ≡ seeker_of self.now }
        requires root { seen.now.root ≡ root_of self.now }
        requires ways { seen.now.ways ≡ ways_of self.now }
        requires places { seen.now.places ≡ places_of self.now }
        requires offer { seen.now.offer ≡ offer_in self.now self.now.request.wanted }
        requires caller { seen.now.caller ≡ asker_of self.now }
        requires exists { exists_rule (access_of self.now.state) self.now ≡ None }
        requires named { IsNamed self.now }
        requires there { IsThere self.now.state.tables seen.now.offer }
        requires few { limited self.now.state.tables (places_of self.now) (asked_by self.now).makes ≡ None }
        requires late { self.now.state.tables.meta.last ≤ self.now.now }
        ensures { IfOk result (λ allowed. allowed ≡ allowed_of (access_of self.entry.now.state) self.entry.now) }
    {
        let view = &self.view;
        let Places { source, target } = seen.places;
        match &self.request.wanted {
            Wanted::Get(_) => self.got(alloc, seen, node_at(source)),
            Wanted::Put { spot, length } => {
                stored(by(seen.seeker, &seen.ways.target), spot, *length, target)
            }
            Wanted::Mkcol(spot) => made_folder(alloc, view, self.now, spot, target),
            Wanted::Delete(_) => match mount_itself(&seen.ways.source) {
                Some(way) => self.mount_left(alloc, &self.asker_seen(seen), &way),
                None => deleted(alloc, view, self.now, node_at(source)),
            },
            Wanted::Move { target: spot, .. } => match mount_itself(&seen.ways.source) {
                Some(way) => self.mount_renamed(alloc, &self.asker_seen(seen), &way, spot),
                None => {
                    let transfer = transfer_of(view.tree(), &seen.places);
                    moved(alloc, view, self.now, spot, transfer)
                }
            },
            Wanted::Copy { target: spot, .. } => {
                let transfer = transfer_of(view.tree(), &seen.places);
                copied(alloc, view, self.now, spot, transfer)
            }
            Wanted::Share(ask) => self.about_shares(alloc, seen, ask),
            Wanted::People(ask) => people_done(alloc, view, self.now, ask),
            Wanted::Trash(ask) => self.trash_done(alloc, &self.asker_seen(seen), ask),
            Wanted::Version(ask) => self.version_done(alloc, ask),
            Wanted::Upload(ask) => self.upload_done(alloc, seen.caller, target, ask),
        }
    }

    /// Who asks, as the rules found it.
    fn asker_seen(&self, seen: &Seen) -> Asker<'_>
        requires sound { AreSound self.now.state.tables }
        requires seeker { seen.now.seeker ≡ seeker_of self.now }
        requires root { seen.now.root ≡ root_of self.now }
        ensures { result ≡ asking_of self.entry.now }
    {
        self.view.asker(seen.seeker, seen.root, self.now)
    }

    /// What is done and told of what is asked about shares.
    fn about_shares(
        &self,
        alloc: Global,
        seen: &Seen,
        ask: &ShareAsk,
    ) -> Result<Allowed, AllocError>
        requires sound { AreSound self.now.state.tables }
        requires seeker { seen.now.seeker ≡ seeker_of self.now }
        requires root { seen.now.root ≡ root_of self.now }
        requires offer { seen.now.offer ≡ offer_by self.now ask.now }
        requires there { IsThere self.now.state.tables seen.now.offer }
        ensures { IfOk result (λ allowed. allowed ≡ shared (access_of self.entry.now.state) self.entry.now seen.now.places ask.now) }
    {
        let asker = self.asker_seen(seen);
        self.shared(alloc, &asker, &seen.offer, &seen.places, ask)
    }

    /// GET of what is there, by the mount on its path.
    fn got(&self, alloc: Global, seen: &Seen, node: Option<NodeId>) -> Result<Allowed, AllocError>
        requires sound { AreSound self.now.state.tables }
        requires seeker { seen.now.seeker ≡ seeker_of self.now }
        requires root { seen.now.root ≡ root_of self.now }
        ensures { IfOk result (λ allowed. allowed ≡ served (access_of self.entry.now.state) self.entry.now (option_and_then (λ way. way.mount) seen.now.ways.source) node) }
    {
        let asker = self.asker_seen(seen);
        self.served(alloc, &asker, mount_of(&seen.ways.source), node)
    }

    pub(crate) fn tree(&self) -> &Tree
        ensures { result.now.rows ≡ self.entry.now.state.tables.nodes }
    {
        self.view.tree()
    }

    /// The ways of the paths.
    fn ways(&self, asker: &Asker<'_>) -> Ways
        requires { asker.now ≡ asking_of self.now }
        ensures { result ≡ ways_of self.entry.now }
    {
        asker.ways(&self.request.wanted.asked())
    }

    /// The places to which the paths lead.
    fn places(&self, ways: &Ways) -> Places
        requires { ways.now ≡ ways_of self.now }
        ensures { result ≡ places_of self.entry.now }
    {
        ways.places(&self.request.wanted.asked())
    }
}

/// Passes unless there is a refusal.
fn unless(refusal: Option<Denial>) -> Result<(), Denial>
    ensures { MatchResult result (λ _. refusal ≡ None) (λ why. refusal ≡ Some why) }
{
    match refusal {
        Some(refusal) => Err(refusal),
        None => Ok(()),
    }
}

/// Who asks, by the mount of a way, if there is one.
fn by(seeker: Seeker, way: &Option<Way>) -> By
    ensures { result ≡ record { seeker = seeker; mount = option_and_then (λ way. way.mount) way.now } }
{
    By {
        seeker,
        mount: mount_of(way),
    }
}

fn mount_of(way: &Option<Way>) -> Option<NodeId>
    ensures { result ≡ option_and_then (λ way. way.mount) way.now }
{
    match way {
        Some(way) => way.mount,
        None => None,
    }
}

/// Whether a folder is there.
fn is_folder_at(tree: &Tree, place: Option<Found>) -> bool
    ensures { result ≡ is_there (is_folder tree.now.rows) place }
{
    match node_at(place) {
        Some(node) => is_folder(tree, node),
        None => false,
    }
}

fn limit_there(view: &View<'_>, place: Option<Found>, pieces: u64) -> Option<Limit>
    ensures { result ≡ option_and_then (limit_at view.now.tables pieces) place }
{
    limit_at(view, &place?, pieces)
}

pub(crate) fn excess_there(view: &View<'_>, place: Option<Found>, length: u64) -> Option<Excess>
    requires { AreSound view.now.tables }
    ensures { result ≡ option_and_then (excess_at view.now.tables length) place }
{
    excess_at(view, &place?, length)
}
