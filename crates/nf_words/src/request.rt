//! Requests.

ghost use Rattle.std.specs.Prelude.{◌≡◌};
ghost use Rattle.nf_words.specs.Asked.{asked_about, asked_of, asked_of_trash, asked_of_upload, asked_of_version, asks_nothing};
ghost use Rattle.nf_words.specs.declared.request.Wanted.TheVariants as wanted;

use nf_base::{Digest, GroupId, Moment, Name, NodeId, Path, Perms, ShareId, UserId};
use nf_defs::Found;
use std::marker::Model;

/// Who asks.
#[derive(Drop)]
pub enum Caller {
    /// Nobody who shows a token.
    Absent,
    /// Whoever holds the token with this SHA-256 digest.
    Token(Digest),
    /// Whoever knows a link by this token.
    Link(Name),
}

/// A place in a user's files. There is no user on the public route, where a link leads to the place, nor in what is asked about shares,
/// where the files are the caller's.
#[derive(Drop)]
pub struct Spot {
    pub user: Option<Name>,
    pub path: Path,
}

/// What is asked for.
#[derive(Drop)]
pub enum Wanted {
    /// What is there.
    Get(Spot),
    /// That a body of that many bytes is stored there.
    Put {
        spot: Spot,
        length: u64,
    },
    /// A new folder there.
    Mkcol(Spot),
    /// That what is there, and all under it, is removed.
    Delete(Spot),
    /// That what is at the source, with all under it, is at the target. `overwrite` lets it take the place of what is there.
    Move {
        source: Spot,
        target: Spot,
        overwrite: bool,
    },
    /// That a copy of it is.
    Copy {
        source: Spot,
        target: Spot,
        overwrite: bool,
    },
    /// Something about shares.
    Share(ShareAsk),
    /// Something about users and groups.
    People(PeopleAsk),
    /// Something about the trash of a user.
    Trash(TrashAsk),
    /// Something about the versions of a file.
    Version(VersionAsk),
    /// Something about an upload in chunks.
    Upload(UploadAsk),
}

/// What is asked about an upload, which is known by its name among those of the user who asks.
#[derive(Drop)]
pub enum UploadAsk {
    /// A new upload of what is to be the file there. What is there is looked at when it is joined.
    New {
        user: Name,
        dir: Name,
        to: Path,
    },
    /// That a body of that many bytes is the chunk of it whose number the name tells. `to` is the path that it is for, where that is told.
    Chunk {
        user: Name,
        dir: Name,
        name: Name,
        to: Option<Path>,
        length: u64,
    },
    /// That it goes, with its chunks.
    Drop {
        user: Name,
        dir: Name,
    },
    /// That what its chunks have, by rising number, is the content of the file there. `total` is the bytes that they have, where that is
    /// told.
    Join {
        dir: Name,
        spot: Spot,
        total: Option<u64>,
    },
}

/// What is asked about the versions of a file, which is known by its number. The user is the one who asks.
#[derive(Drop)]
pub enum VersionAsk {
    /// Which versions a file has.
    List {
        user: Name,
        node: NodeId,
    },
    /// The content of one, by its moment.
    Get {
        user: Name,
        node: NodeId,
        at: Moment,
    },
    /// That one is the file's content again.
    Restore {
        user: Name,
        node: NodeId,
        at: Moment,
    },
}

/// What is asked about the trash of a user.
#[derive(Drop)]
pub enum TrashAsk {
    /// What is in it.
    List(Name),
    /// That an item, by the number of its node, goes for good with all under it.
    Drop { user: Name, item: NodeId },
    /// That all its items do.
    Empty(Name),
    /// That an item comes back: into the folder that it came from where that is present, and else into the root, under a free name.
    Restore { user: Name, item: NodeId },
}

/// What is asked about shares.
#[derive(Drop)]
pub enum ShareAsk {
    /// A new share of what is there. Where no permissions are named, all are asked for, and for a link read alone; where no end is named,
    /// it has none.
    New {
        spot: Spot,
        to: Sharee,
        perms: Option<Perms>,
        until: Option<Moment>,
    },
    /// The shares that the caller made; with a place, those of what is there that the caller made or owns. `with_me` asks for those that
    /// the caller receives instead.
    List {
        spot: Option<Spot>,
        with_me: bool,
    },
    /// What there is to tell of a share.
    Show(ShareId),
    /// That a share has other permissions or another end; without any permissions, they stay.
    Set {
        share: ShareId,
        perms: Option<Perms>,
        until: Until,
    },
    /// That a share ends.
    End(ShareId),
}

/// Whom a new share is for.
#[derive(Drop)]
pub enum Sharee {
    /// The user of that name.
    User(Name),
    /// All members of the group of that name, whoever they are at the time.
    Group(Name),
    /// Whoever knows the token that it is given.
    Link,
}

/// What becomes of the end of a share.
#[derive(Clone, Copy, PartialEq, Eq)]
pub enum Until {
    /// It stays.
    Keep,
    /// The share ends by itself no more.
    Never,
    /// It ends at that moment.
    At(Moment),
}

/// What is asked about users and groups.
#[derive(Drop)]
pub enum PeopleAsk {
    /// A new user with an empty root. The token is known by its SHA-256 digest, and the quota is in bytes.
    NewUser {
        name: Name,
        token: Digest,
        quota: u64,
    },
    /// A new group without members.
    NewGroup(Name),
    /// That a user is a member of a group.
    AddMember {
        user: Name,
        group: Name,
    },
    /// That a user is none.
    DropMember {
        user: Name,
        group: Name,
    },
    /// That a user has that quota, in bytes.
    SetQuota {
        user: Name,
        quota: u64,
    },
    /// A further token of a user.
    AddToken {
        user: Name,
        token: Digest,
    },
}

/// What a request puts at its target.
#[derive(Clone, Copy, PartialEq, Eq)]
pub enum Making {
    Nothing,
    /// A file of so many bytes, or that content of the file that is there.
    File { length: u64 },
    /// A folder.
    Folder,
    /// What is at the source.
    Moved,
    /// A copy of it.
    Copied,
    /// Nothing: what is at the source is shared.
    Shared,
    /// Nothing: shares of what is at the source are told.
    Told,
    /// The node of an item of the trash, which comes back.
    Restored { item: NodeId },
    /// Nothing: a version of that file is sent.
    Sent { node: NodeId },
    /// That version of a file, as its content again.
    Refilled { node: NodeId, at: Moment },
    /// A file of what the chunks of an upload have, or that as the content of the file that is there.
    Assembled,
}

/// What a request asks for, as the rules see it.
#[derive(Drop)]
pub struct Asked<'a> {
    /// The user whose trash it is about, or who asks about versions or an upload.
    pub user: Option<&'a Name>,
    /// The place of what it acts upon.
    pub source: Option<&'a Spot>,
    /// The place of what it makes, or stores over.
    pub target: Option<&'a Spot>,
    /// The path that an upload is for, or a chunk.
    pub intended: Option<&'a Path>,
    pub makes: Making,
    /// Whether what is at the source doesn't stay there.
    pub removes: bool,
    /// Whether what is at the target may be replaced.
    pub overwrites: bool,
}

impl<'a> Model for Asked<'a> {
    ghost use Rattle.std.specs.Prelude.{option_copied};
    ghost use Rattle.nf_words.specs.Asked.{Asked};

    ghost Value = { Asked };

    ghost view = { λ asked. record {
      user = option_copied asked.user;
      source = option_copied asked.source;
      target = option_copied asked.target;
      intended = option_copied asked.intended;
      makes = asked.makes;
      removes = asked.removes;
      overwrites = asked.overwrites;
    } };
}

impl<'a> Asked<'a> {
    /// What names no place.
    fn nothing() -> Self
        ensures { result ≡ asks_nothing }
    {
        Asked {
            user: None,
            source: None,
            target: None,
            intended: None,
            makes: Making::Nothing,
            removes: false,
            overwrites: false,
        }
    }
}

impl Wanted {
    /// What it asks for: the clause of each act.
    pub fn asked(&self) -> Asked<'_>
        ensures { result ≡ asked_of self.now }
    {
        match self {
            Wanted::Get(spot) => Asked {
                source: Some(spot),
                ..Asked::nothing()
            },
            Wanted::Put { spot, length } => Asked {
                target: Some(spot),
                makes: Making::File { length: *length },
                overwrites: true,
                ..Asked::nothing()
            },
            Wanted::Mkcol(spot) => Asked {
                target: Some(spot),
                makes: Making::Folder,
                ..Asked::nothing()
            },
            Wanted::Delete(spot) => Asked {
                source: Some(spot),
                removes: true,
                ..Asked::nothing()
            },
            Wanted::Move {
                source,
                target,
                overwrite,
            } => moves(source, target, *overwrite),
            Wanted::Copy {
                source,
                target,
                overwrite,
            } => copies(source, target, *overwrite),
            Wanted::Share(ask) => about(ask),
            Wanted::People(_) => Asked::nothing(),
            Wanted::Trash(ask) => of_trash(ask),
            Wanted::Version(ask) => of_version(ask),
            Wanted::Upload(ask) => of_upload(ask),
        }
    }
}

fn of_trash(ask: &TrashAsk) -> Asked<'_>
    ensures { result ≡ asked_of_trash ask.now }
{
    match ask {
        TrashAsk::List(user) | TrashAsk::Drop { user, .. } | TrashAsk::Empty(user) => Asked {
            user: Some(user),
            ..Asked::nothing()
        },
        TrashAsk::Restore { user, item } => Asked {
            user: Some(user),
            makes: Making::Restored { item: *item },
            ..Asked::nothing()
        },
    }
}

fn of_version(ask: &VersionAsk) -> Asked<'_>
    ensures { result ≡ asked_of_version ask.now }
{
    match ask {
        VersionAsk::List { user, .. } => Asked {
            user: Some(user),
            ..Asked::nothing()
        },
        VersionAsk::Get { user, node, .. } => Asked {
            user: Some(user),
            makes: Making::Sent { node: *node },
            ..Asked::nothing()
        },
        VersionAsk::Restore { user, node, at } => Asked {
            user: Some(user),
            makes: Making::Refilled {
                node: *node,
                at: *at,
            },
            ..Asked::nothing()
        },
    }
}

fn of_upload(ask: &UploadAsk) -> Asked<'_>
    ensures { result ≡ asked_of_upload ask.now }
{
    match ask {
        UploadAsk::New { user, to, .. } => Asked {
            user: Some(user),
            intended: Some(to),
            ..Asked::nothing()
        },
        UploadAsk::Chunk { user, to, .. } => Asked {
            user: Some(user),
            intended: to.as_ref(),
            ..Asked::nothing()
        },
        UploadAsk::Drop { user, .. } => Asked {
            user: Some(user),
            ..Asked::nothing()
        },
        UploadAsk::Join { spot, .. } => Asked {
            target: Some(spot),
            makes: Making::Assembled,
            overwrites: true,
            ..Asked::nothing()
        },
    }
}

fn about(ask: &ShareAsk) -> Asked<'_>
    ensures { result ≡ asked_about ask.now }
{
    match ask {
        ShareAsk::New { spot, .. } => Asked {
            source: Some(spot),
            makes: Making::Shared,
            ..Asked::nothing()
        },
        ShareAsk::List { spot, .. } => Asked {
            source: spot.as_ref(),
            makes: Making::Told,
            ..Asked::nothing()
        },
        ShareAsk::Show(_) | ShareAsk::Set { .. } | ShareAsk::End(_) => Asked::nothing(),
    }
}

fn moves<'a>(source: &'a Spot, target: &'a Spot, overwrites: bool) -> Asked<'a>
    ensures { result ≡ asked_of (wanted.Move source.now target.now overwrites) }
{
    Asked {
        removes: true,
        makes: Making::Moved,
        ..copies(source, target, overwrites)
    }
}

fn copies<'a>(source: &'a Spot, target: &'a Spot, overwrites: bool) -> Asked<'a>
    ensures { result ≡ asked_of (wanted.Copy source.now target.now overwrites) }
{
    Asked {
        source: Some(source),
        target: Some(target),
        makes: Making::Copied,
        overwrites,
        ..Asked::nothing()
    }
}

#[derive(Drop)]
pub struct Request {
    pub caller: Caller,
    pub wanted: Wanted,
}

/// Two words of chance, which are drawn at every Begin; a new link's token is made of them.
#[derive(Clone, Copy)]
pub struct Words {
    pub first: u64,
    pub second: u64,
}

/// Where a request's paths lead: that of what it acts upon, and that of what it makes or stores.
#[derive(Clone, Copy)]
pub struct Places {
    pub source: Option<Found>,
    pub target: Option<Found>,
}

/// What is moved or copied, and where to.
#[derive(Clone, Copy)]
pub struct Transfer {
    pub node: NodeId,
    /// The folder that it is put into.
    pub folder: NodeId,
    /// The node that is there and has to go.
    pub replaced: Option<NodeId>,
}

/// Whom a share is for, by number.
#[derive(Clone, Copy, PartialEq, Eq)]
pub enum Receiver {
    User(UserId),
    Group(GroupId),
    /// Whoever will know its token.
    Link,
}

/// A share that is asked for.
#[derive(Clone, Copy)]
pub struct Offer {
    pub node: NodeId,
    /// The node of the mount that its path goes by, if it goes by one.
    pub mount: Option<NodeId>,
    pub to: Receiver,
    pub perms: Perms,
    pub until: Option<Moment>,
}
