//! Uploads in chunks: the rules of what is asked about them, and what it does.

ghost use Rattle.std.specs.Prelude.{◌≡◌, ◌≢◌, ◌≤◌, ℕ, [], IfOk, None, false, option_copied};
ghost use Rattle.std.specs.Option.{option_map_or};
ghost use Rattle.nf_defs.specs.Prelude.{is_folder};
ghost use Rattle.nf_defs.specs.declared.Found.TheVariants.{At, Free};
ghost use Rattle.nf_words.specs.Prelude.{access_of, AreSound, asker_of, assembled, assembled_at, assembled_excess, chunk_fault, chunk_number, chunk_sent, content_size, dir_asked, exists_rule, fault_with, join_fault, joined_report, last_name, new_limit, nothing_done, opened_by, places_of, unopened, upload_begun, upload_done, upload_limit, upload_row, upload_rule, whole_of};
ghost use Rattle.nf_words.specs.declared.answer.Deed.TheVariants as deeds;
ghost use Rattle.nf_words.specs.declared.request.Wanted.TheVariants as wanted;
ghost use Rattle.nf_decide.specs.Deciding.{Follows};

use crate::deciding::{Call, excess_there};
use nf_base::{Change, Changes, Content, Name, Path, Row, UploadRow, UserId};
use nf_deeds::{
    abandon, chunk_limit, done, last_name, limit_with, new_file, nothing_done, passes, refilled,
};
use nf_defs::Found;
use nf_uploads::chunk_number;
use nf_view::node_found;
use nf_words::{
    Allowed, Deed, Denial, Excess, Limit, Places, Report, Route, Spot, UploadAsk, UploadFault,
    Wanted,
};
use std::alloc::{AllocError, Global};

/// The upload that is asked about, where it has to be there.
fn dir_asked(ask: &UploadAsk) -> Option<&Name>
    ensures { option_copied result ≡ dir_asked ask.now }
{
    match ask {
        UploadAsk::New { .. } => None,
        UploadAsk::Chunk { dir, .. } | UploadAsk::Drop { dir, .. } | UploadAsk::Join { dir, .. } =>
            { Some(dir) }
    }
}

// ---- the rules

impl<'a> Call<'a> {
    /// `not-found`: the caller has no such upload.
    pub(crate) fn unopened(&self, caller: UserId) -> Option<Denial>
        requires { caller ≡ asker_of self.now }
        ensures { result ≡ unopened self.entry.now self.entry.now.request.wanted }
    {
        let Wanted::Upload(ask) = &self.request.wanted else {
            return None;
        };
        match self.upload(caller, dir_asked(ask)?) {
            Some(_) => None,
            None => Some(Denial::NotFound),
        }
    }

    fn upload(&self, caller: UserId, dir: &Name) -> Option<&UploadRow>
        ensures { option_copied result ≡ upload_row self.entry.now.state.tables.uploads caller dir.now }
    {
        self.view.uploads().find(caller, dir)
    }

    /// The bytes that the chunks of an upload have.
    #[tactic(auto, using(crate::proofs::Assembling::whole_pending))]
    fn sum(&self, user: UserId, dir: &Name) -> u64
        requires { AreSound self.now.state.tables }
        ensures { result ≡ content_size (whole_of self.entry.now.state.tables.chunks user dir.now) }
    {
        self.view.uploads().sum(user, dir) as u64
    }

    /// What they have, one after the other.
    #[tactic(auto, using(nf_words::proofs::Wholes::whole_few))]
    fn whole(&self, alloc: Global, user: UserId, dir: &Name) -> Result<Content, AllocError>
        requires { AreSound self.now.state.tables }
        ensures { IfOk result (λ content. content ≡ whole_of self.entry.now.state.tables.chunks user dir.now) }
    {
        self.view.uploads().whole(alloc, user, dir)
    }

    /// `exists`: the caller has an upload of the name that a new one is to have.
    pub(crate) fn opened(&self, caller: UserId) -> Option<Denial>
        requires { caller ≡ asker_of self.now }
        ensures { result ≡ opened_by self.entry.now self.entry.now.request.wanted }
    {
        match &self.request.wanted {
            Wanted::Upload(UploadAsk::New { dir, .. }) if self.upload(caller, dir).is_some() => {
                Some(Denial::Exists(Route::Upload))
            }
            _ => None,
        }
    }

    /// `upload`: what is sent or asked for doesn't fit the upload.
    #[tactic(auto, unfolding(nf_words::specs::Uploading::upload_rule))]
    pub(crate) fn upload_fits(&self, caller: UserId) -> Result<(), Denial>
        requires sound { AreSound self.now.state.tables }
        requires caller { caller ≡ asker_of self.now }
        ensures { Follows (upload_rule (access_of self.entry.now.state)) self.entry.now result }
    {
        match self.upload_fault(caller) {
            Some(fault) => Err(Denial::Upload(fault)),
            None => Ok(()),
        }
    }

    fn upload_fault(&self, caller: UserId) -> Option<UploadFault>
        requires sound { AreSound self.now.state.tables }
        requires caller { caller ≡ asker_of self.now }
        ensures { result ≡ fault_with self.entry.now self.entry.now.request.wanted }
    {
        let Wanted::Upload(ask) = &self.request.wanted else {
            return None;
        };
        match ask {
            UploadAsk::New { .. } | UploadAsk::Drop { .. } => None,
            UploadAsk::Chunk { dir, name, to, .. } => {
                chunk_fault(self.upload(caller, dir)?, name, to.as_ref())
            }
            UploadAsk::Join { dir, spot, total } => {
                self.join_fault(self.upload(caller, dir)?, &spot.path, *total)
            }
        }
    }

    /// What doesn't fit an upload that is joined.
    fn join_fault(&self, row: &UploadRow, path: &Path, total: Option<u64>) -> Option<UploadFault>
        requires sound { AreSound self.now.state.tables }
        ensures { result ≡ join_fault self.entry.now.state.tables row.now path.now total }
    {
        if row.to != *path {
            return Some(UploadFault::Destination);
        }
        let declared = total?;
        let sum = self.sum(row.user, &row.dir);
        if declared == sum {
            None
        } else {
            Some(UploadFault::Total { declared, sum })
        }
    }

    /// The limit that what is asked about uploads would pass.
    pub(crate) fn upload_limit(
        &self,
        caller: UserId,
        places: &Places,
        ask: &UploadAsk,
    ) -> Option<Limit>
        requires sound { AreSound self.now.state.tables }
        requires caller { caller ≡ asker_of self.now }
        requires places { places.now ≡ places_of self.now }
        ensures { result ≡ upload_limit self.entry.now ask.now }
    {
        let view = &self.view;
        match ask {
            UploadAsk::New { .. } => self.new_limit(caller),
            UploadAsk::Chunk {
                dir,
                name,
                length,
                ..
            } => chunk_limit(view, caller, dir, *length, chunk_number(name)?),
            UploadAsk::Drop { .. } => None,
            UploadAsk::Join { dir, .. } => {
                limit_with(
                    view,
                    &places.target?,
                    view.uploads().pieces_in(caller, dir),
                    0,
                )
            }
        }
    }

    /// The limit that one upload more would pass.
    fn new_limit(&self, caller: UserId) -> Option<Limit>
        ensures { result ≡ new_limit self.entry.now.state.tables caller }
    {
        let count = self.view.uploads().count_of(caller) as u128 + 1;
        if passes(count, Limit::Uploads) {
            Some(Limit::Uploads)
        } else {
            None
        }
    }

    /// How what the chunks of an upload have would pass the quota of who is charged for it.
    pub(crate) fn upload_excess(&self, caller: UserId, places: &Places) -> Option<Excess>
        requires sound { AreSound self.now.state.tables }
        requires caller { caller ≡ asker_of self.now }
        requires places { places.now ≡ places_of self.now }
        ensures { result ≡ assembled_excess self.entry.now self.entry.now.request.wanted }
    {
        let Wanted::Upload(ask) = &self.request.wanted else {
            return None;
        };
        match ask {
            UploadAsk::New { .. } | UploadAsk::Chunk { .. } | UploadAsk::Drop { .. } => None,
            UploadAsk::Join { dir, .. } => {
                excess_there(&self.view, places.target, self.sum(caller, dir))
            }
        }
    }
}

/// What doesn't fit an upload of which a chunk is sent.
fn chunk_fault(row: &UploadRow, name: &Name, to: Option<&Path>) -> Option<UploadFault>
    ensures { result ≡ chunk_fault row.now name.now (option_copied to.entry) }
{
    if chunk_number(name).is_none() {
        return Some(UploadFault::Number);
    }
    if row.to == *to? {
        None
    } else {
        Some(UploadFault::Destination)
    }
}

// ---- what is done

impl<'a> Call<'a> {
    /// What is done of what is asked about uploads.
    #[tactic(auto, using(crate::proofs::Assembling::name_given, crate::proofs::Assembling::not_over_folder))]
    pub(crate) fn upload_done(
        &self,
        alloc: Global,
        caller: UserId,
        target: Option<Found>,
        ask: &UploadAsk,
    ) -> Result<Allowed, AllocError>
        requires sound { AreSound self.now.state.tables }
        requires late { self.now.state.tables.meta.last ≤ self.now.now }
        requires caller { caller ≡ asker_of self.now }
        requires target { target ≡ (places_of self.now).target }
        requires asked { self.now.request.wanted ≡ wanted.Upload ask.now }
        requires exists { exists_rule (access_of self.now.state) self.now ≡ None }
        ensures { IfOk result (λ allowed. allowed ≡ upload_done self.entry.now (places_of self.entry.now) ask.now) }
    {
        match ask {
            UploadAsk::New { dir, to, .. } => self.begun(alloc, caller, dir, to),
            UploadAsk::Chunk {
                dir,
                name,
                length,
                ..
            } => sent(alloc, caller, dir, name, *length),
            UploadAsk::Drop { dir, .. } => Ok(done(
                vec![in alloc; abandon(caller, dir)?]?,
                Report::Done,
            )),
            UploadAsk::Join { dir, spot, .. } => match target {
                Some(place) => self.assembled(alloc, caller, dir, spot, &place),
                None => Ok(Allowed::Close),
            },
        }
    }

    /// An upload begins.
    fn begun(
        &self,
        alloc: Global,
        caller: UserId,
        dir: &Name,
        to: &Path,
    ) -> Result<Allowed, AllocError>
        ensures { IfOk result (λ allowed. allowed ≡ upload_begun self.entry.now.state.tables self.entry.now.now caller dir.now to.now) }
    {
        let mut changes = Changes::new(alloc);
        changes.push(Change::Put(Row::Upload(UploadRow {
            user: caller,
            dir: dir.copy()?,
            to: to.clone()?,
            touched: self.now,
        })))?;
        Ok(Allowed::Change {
            changes,
            blob: None,
            report: Report::Made,
        })
    }

    /// What the chunks of an upload have is the content of a file, and the upload goes.
    fn assembled(
        &self,
        alloc: Global,
        caller: UserId,
        dir: &Name,
        spot: &Spot,
        place: &Found,
    ) -> Result<Allowed, AllocError>
        requires sound { AreSound self.now.state.tables }
        requires late { self.now.state.tables.meta.last ≤ self.now.now }
        requires file { (node : ℕ) → place.now ≡ At node → is_folder self.now.state.tables.nodes node ≡ false }
        requires named { (folder : ℕ) → place.now ≡ Free folder → spot.now.path ≢ [] }
        ensures { IfOk result (λ allowed. allowed ≡ assembled self.entry.now.state.tables self.entry.now.now (last_name spot.now) caller dir.now place.now) }
    {
        let changes = self.assembled_at(alloc, caller, dir, spot, place)?;
        let mut deeds = vec![in alloc; Deed::Store(changes)]?;
        deeds.push(abandon(caller, dir)?)?;
        Ok(done(deeds, joined_report(place)))
    }

    /// It is stored over the file that is there, or in a file under the name that is free.
    fn assembled_at(
        &self,
        alloc: Global,
        caller: UserId,
        dir: &Name,
        spot: &Spot,
        place: &Found,
    ) -> Result<Changes, AllocError>
        requires sound { AreSound self.now.state.tables }
        requires late { self.now.state.tables.meta.last ≤ self.now.now }
        requires file { (node : ℕ) → place.now ≡ At node → is_folder self.now.state.tables.nodes node ≡ false }
        requires named { (folder : ℕ) → place.now ≡ Free folder → spot.now.path ≢ [] }
        ensures { IfOk result (λ changes. changes ≡ assembled_at self.entry.now.state.tables self.entry.now.now (last_name spot.now) (whole_of self.entry.now.state.tables.chunks caller dir.now) place.now) }
    {
        let (view, moment) = (&self.view, self.now);
        match place {
            Found::At(node) => {
                let content = self.whole(alloc, caller, dir)?;
                refilled(alloc, view, moment, *node, content)
            }
            Found::Free { folder } => {
                let content = self.whole(alloc, caller, dir)?;
                new_file(alloc, view, moment, *folder, last_name(spot)?, content)
            }
            Found::Missing { .. } => Ok(Changes::new(alloc)),
        }
    }
}

/// A chunk is sent, by who has the upload.
fn sent(
    alloc: Global,
    caller: UserId,
    dir: &Name,
    name: &Name,
    length: u64,
) -> Result<Allowed, AllocError>
    ensures { IfOk result (λ allowed. allowed ≡ option_map_or (chunk_sent caller dir.now length) (chunk_number name.now) nothing_done) }
{
    match chunk_number(name) {
        Some(number) => Ok(Allowed::Chunk {
            user: caller,
            dir: dir.copy()?,
            number,
            length,
        }),
        None => Ok(nothing_done(alloc)),
    }
}

fn joined_report(place: &Found) -> Report
    ensures { result ≡ joined_report place.now }
{
    match node_found(place) {
        Some(_) => Report::Done,
        None => Report::Made,
    }
}
