//! Answers.

ghost use Rattle.std.specs.Prelude.{◌≡◌, IfOk};
ghost use Rattle.nf_words.specs.Limits.{count_of};

use crate::{Items, Listing, MAX_PENDING, MAX_UPLOADS, Route, ShareLine, ShareLines, Versions};
use nf_access::Cause;
use nf_base::{
    BlobId, Changes, Content, Digest, ItemRow, MAX_DEPTH, MAX_GROUPS, MAX_MEMBERS, MAX_MOUNTS,
    MAX_NODES, MAX_SHARES, MAX_STORED_PIECES, MAX_TOKENS, MAX_USERS, MAX_VERSIONS, Moment, Name,
    NameFault, NodeId, NodeRow, ShareId, UserId, UserRow,
};
use nf_defs::Seeker;
use std::alloc::AllocError;
use std::marker::Model;

/// Why a request is refused. Each has a status of RFC 9110 or RFC 4918 and a reason of its own.
#[derive(Drop)]
pub enum Denial {
    /// 400: the bytes are no message, or end inside one.
    BadMessage,
    /// 400: a name in the target or the destination is none.
    BadName(NameFault),
    /// 400: a field that the request goes by can't be read, or isn't there.
    BadParameter(Parameter),
    /// 400: what is sent or asked for doesn't fit the upload.
    Upload(UploadFault),
    /// 401: the caller shows no token that is known, or asks by a link for something else than files.
    Token,
    /// 403: the user in the path isn't the caller; or users and groups are asked about by who isn't a member of the group `admin`.
    NotYou,
    /// 403: a name in the path is `.htaccess`.
    ForbiddenName,
    /// 403: by the mount on the path the caller may not do that, since the chain of the share on it is broken: at that share, the
    /// first such one from its owner's end, and for that cause.
    BrokenLink { share: ShareId, cause: Cause },
    /// 403: the caller receives no share on the node of the path's mount.
    NoShare,
    /// 403: that can't be done to what the path leads to.
    BadTarget(TargetFault),
    /// 403: what is asked breaks a rule of sharing, or of new names and tokens.
    Rule(Breach),
    /// 404: there is no such file, folder, user, group, share or link, or no such route.
    NotFound,
    /// 405: the route doesn't have the method.
    Method(Route),
    /// 405: what is to be made on the route is there, or a file is to be stored where a folder is.
    Exists(Route),
    /// 409: versions are asked about of a folder, which has none.
    Kind,
    /// 409: the folder of what is to be made isn't there.
    NoParent,
    /// 412: something is at the target that isn't to be replaced.
    Overwrite,
    /// 412: an OCS request doesn't say that it is one.
    OcsHeader,
    /// 413: the body is over `MAX_BODY` bytes.
    TooLarge,
    /// 415: the request takes no body, or none like that.
    Body,
    /// 423: another session holds what would be read, changed or named so; that is the key that it holds.
    Locked(LockKey),
    /// 431: the head is over `MAX_HEAD` bytes or `MAX_FIELDS` fields.
    Head,
    /// 500: the store failed.
    Store,
    /// 500: the store hasn't the bytes that a row names.
    Damaged(Damage),
    /// 500: the run has no room for two more entries.
    RunFull,
    /// 501: the message has a transfer coding.
    Coding,
    /// 503: there is no memory.
    Memory,
    /// 507: the step would pass a limit of the site.
    Limit(Limit),
    /// 507: the step would take what a user's files take up beyond the user's quota.
    Quota(Excess),
}

/// A field that a request goes by.
#[derive(Clone, Copy, PartialEq, Eq)]
pub enum Parameter {
    Destination,
    Overwrite,
    Depth,
    /// The number of bytes that an upload has in all.
    Total,
    /// The number in the path.
    Id,
    /// The moment in the path.
    At,
    Path,
    ShareType,
    ShareWith,
    Permissions,
    ExpireDate,
    Password,
    /// The name of a user.
    UserId,
    Token,
    Quota,
    /// The name of a group.
    GroupId,
    /// What of a user is to be another.
    Key,
    Value,
}

/// What doesn't fit an upload.
#[derive(Clone, Copy, PartialEq, Eq)]
pub enum UploadFault {
    /// The name of a chunk tells no number from 1 to `MAX_PIECES`.
    Number,
    /// The path isn't the one that the upload is for.
    Destination,
    /// The chunks don't have that many bytes.
    Total { declared: u64, sum: u64 },
}

/// Why a target can't be acted upon.
#[derive(Clone, Copy, PartialEq, Eq)]
pub enum TargetFault {
    /// It is a root.
    Root,
    /// What is moved or copied is there already.
    Same,
    /// It is inside what is moved or copied, or that is inside it.
    Inside,
    /// It is a mount; or a mount is moved elsewhere than to a free name of the same root.
    Mount,
}

/// A rule of sharing, or of new names and tokens.
#[derive(Clone, Copy, PartialEq, Eq)]
pub enum Breach {
    /// A root isn't shared.
    Root,
    /// Nothing is shared with who makes the share, nor with the owner.
    SelfShare,
    /// The end of a share is after the moment at which it is asked for.
    Past,
    /// The same is shared with the same user or group by the same one already.
    Already,
    /// No share allows more than those that it stands on.
    Widened,
    /// No chain has more than `MAX_CHAIN` shares.
    Chain,
    /// The token that a new link would have is another link's.
    TokenTaken,
    /// A user or a group of that name, or that token, is there already.
    Taken,
}

/// A blob that isn't what a row says of it.
#[derive(Clone, Copy, PartialEq, Eq)]
pub struct Damage {
    pub blob: BlobId,
    /// What the row says.
    pub wanted: Measure,
    /// What the store has, if it has any such blob.
    pub found: Option<Measure>,
}

/// How many bytes there are, and their digest.
#[derive(Clone, Copy, PartialEq, Eq)]
pub struct Measure {
    pub length: u64,
    pub digest: Digest,
}

/// A charge that would pass its quota.
#[derive(Clone, Copy, PartialEq, Eq)]
pub struct Excess {
    /// What the files of who would be charged take up now, in bytes.
    pub charge: u64,
    /// What they may take up, in bytes.
    pub quota: u64,
    /// What is to be put, in bytes.
    pub size: u64,
}

/// A limit of the site.
#[derive(Clone, Copy, PartialEq, Eq)]
pub enum Limit {
    /// `MAX_USERS` users, and 2^32 - 1 numbers of users ever given.
    Users,
    /// `MAX_GROUPS` groups, and 2^32 - 1 numbers of groups ever given.
    Groups,
    /// `MAX_TOKENS` tokens.
    Tokens,
    /// `MAX_MEMBERS` members of all groups together.
    Members,
    /// `MAX_NODES` nodes, and 2^64 - 1 numbers of nodes ever given.
    Nodes,
    /// `MAX_DEPTH` folders above a node.
    Depth,
    /// `MAX_SHARES` shares, and 2^64 - 1 numbers of shares ever given.
    Shares,
    /// `MAX_MOUNTS` mounts.
    Mounts,
    /// `MAX_VERSIONS` versions.
    Versions,
    /// `MAX_STORED_PIECES` pieces of all nodes, versions and chunks, and 2^64 - 1 numbers of blobs ever given.
    Pieces,
    /// `MAX_UPLOADS` uploads of a user.
    Uploads,
    /// `MAX_PENDING` bytes in the chunks of a user.
    Pending,
}

impl Limit {
    /// How many there may be.
    pub fn count(self) -> u32
        ensures { result ≡ count_of self }
    {
        match self {
            Limit::Users => MAX_USERS as u32,
            Limit::Groups => MAX_GROUPS as u32,
            Limit::Tokens => MAX_TOKENS as u32,
            Limit::Members => MAX_MEMBERS as u32,
            Limit::Nodes => MAX_NODES as u32,
            Limit::Depth => MAX_DEPTH,
            Limit::Shares => MAX_SHARES as u32,
            Limit::Mounts => MAX_MOUNTS as u32,
            Limit::Versions => MAX_VERSIONS as u32,
            Limit::Pieces => MAX_STORED_PIECES,
            Limit::Uploads => MAX_UPLOADS as u32,
            Limit::Pending => MAX_PENDING as u32,
        }
    }
}

/// Who asks to store, and the node of the mount that the path goes by, if it goes by one.
#[derive(Clone, Copy, PartialEq, Eq)]
pub struct By {
    pub seeker: Seeker,
    pub mount: Option<NodeId>,
}

/// What a granted PUT is to change.
#[derive(Drop)]
pub enum LockKey {
    /// A file that is there.
    Node(NodeId),
    /// A free name in a folder.
    Slot { folder: NodeId, name: Name },
}

impl LockKey {
    /// An equal key.
    pub fn copy(&self) -> Result<LockKey, AllocError>
        ensures { IfOk result (λ copy. copy ≡ self.now) }
    {
        match self {
            LockKey::Node(node) => Ok(LockKey::Node(*node)),
            LockKey::Slot { folder, name } => Ok(LockKey::Slot {
                folder: *folder,
                name: name.copy()?,
            }),
        }
    }
}

/// Whether a key is held beside others who read, or alone.
#[derive(Clone, Copy, PartialEq, Eq)]
pub enum Mode {
    Shared,
    Exclusive,
}

/// What a granted request holds from its Begin to its End.
#[derive(Drop)]
pub struct Hold {
    pub key: LockKey,
    pub mode: Mode,
}

/// What a granted request may do between its Begin and its End.
#[derive(Drop)]
pub enum Goal {
    /// Send this content.
    Serve(Content),
    /// Store a body of that many bytes for who asked.
    Store {
        by: By,
        key: LockKey,
        length: u64,
    },
    /// Store a body of that many bytes as the chunk of that number of an upload of the user's.
    Chunk {
        user: UserId,
        dir: Name,
        number: u16,
        length: u64,
    },
}

/// What a request that isn't refused is answered.
#[derive(Drop)]
pub enum Reply {
    /// What was asked for was made.
    Made,
    /// It was done.
    Done,
    /// The End of a request that stores nothing.
    Closed,
    /// The Begin of a request in two steps.
    Granted(Goal),
    /// What is in a folder.
    Listing(Listing),
    /// What is in the trash of a user.
    Items(Items),
    /// Which versions a file has.
    Versions(Versions),
    /// What there is to tell of a share.
    Share(ShareLine),
    Shares(ShareLines),
    /// What was asked of a share, or of users and groups, was done, and there is nothing to tell.
    Plain,
}

pub type Answer = Result<Reply, Denial>;

/// Rows of nodes.
#[derive(Drop)]
pub struct NodeRows {
    rows: Vec<NodeRow>,
}

impl Model for NodeRows {
    ghost use Rattle.std.specs.Prelude.{List};
    ghost use Rattle.nf_base.specs.declared.rows.NodeRow.{NodeRow};

    ghost Value = { List NodeRow };

    ghost view = { λ nodes. nodes.rows.items };
}

impl NodeRows {
    pub fn new(rows: Vec<NodeRow>) -> Self
        ensures { result ≡ rows.items }
    {
        NodeRows { rows }
    }

    pub fn rows(&self) -> &[NodeRow]
        ensures { result.now ≡ self.now }
    {
        &self.rows
    }

    pub fn into_rows(self) -> Vec<NodeRow>
        ensures { result.items ≡ self }
    {
        self.rows
    }
}

/// What is told of a change that was made, or of shares where nothing changes.
#[derive(Drop)]
pub enum Report {
    /// What was asked for was made.
    Made,
    /// It was done.
    Done,
    /// A share as it is now.
    Share(ShareLine),
    Shares(ShareLines),
    /// What is in the trash of a user.
    Items(Items),
    /// Which versions a file has.
    Versions(Versions),
    /// Nothing more.
    Plain,
}

/// One of the things that a step does to nodes, to who owns them, and to uploads.
#[derive(Drop)]
pub enum Deed {
    /// A node is put in the trash with all under it, as that item of its owner's, and their shares end.
    Discard(ItemRow),
    /// A node goes for good with all under it, and with its item where it has one, and their shares end.
    Purge(NodeId),
    /// The node of an item comes back, into that folder under that name.
    Restore {
        node: NodeId,
        folder: NodeId,
        name: Name,
    },
    /// A node is in that folder, under that name.
    Relink {
        node: NodeId,
        folder: NodeId,
        name: Name,
    },
    /// These nodes are made, each after the folder that it is in, with the next numbers.
    Join(NodeRows),
    /// A user has another quota.
    Requote(UserRow),
    /// The version of that moment of a file is there no more.
    Forget {
        node: NodeId,
        at: Moment,
    },
    /// These rows are put and dropped, each of them once.
    Store(Changes),
    /// An upload is there no more, nor are its chunks.
    Abandon {
        user: UserId,
        dir: Name,
    },
}

/// What a step does, one after the other.
#[derive(Drop)]
pub struct Deeds {
    deeds: Vec<Deed>,
}

impl Model for Deeds {
    ghost use Rattle.std.specs.Prelude.{List};
    ghost use Rattle.nf_words.specs.declared.answer.Deed.{Deed};

    ghost Value = { List Deed };

    ghost view = { λ all. all.deeds.items };
}

impl Deeds {
    pub fn new(deeds: Vec<Deed>) -> Self
        ensures { result ≡ deeds.items }
    {
        Deeds { deeds }
    }

    pub fn as_slice(&self) -> &[Deed]
        ensures { result.now ≡ self.now }
    {
        &self.deeds
    }

    pub fn into_vec(self) -> Vec<Deed>
        ensures { result.items ≡ self }
    {
        self.deeds
    }
}

/// What a step that isn't refused does. A blob is one that the act stores, not one that it names again.
#[derive(Drop)]
pub enum Allowed {
    /// GET of a file: the seat is given a ticket to send its content.
    Get {
        node: NodeId,
        content: Content,
    },
    /// GET of a folder.
    List(Listing),
    /// PUT, at its Begin: the seat is given a ticket to store a body of that many bytes.
    Put {
        by: By,
        key: LockKey,
        length: u64,
    },
    /// PUT of a chunk, at its Begin: the seat is given a ticket to store a body of that many bytes.
    Chunk {
        user: UserId,
        dir: Name,
        number: u16,
        length: u64,
    },
    /// These rows are put and dropped, each of them once: MKCOL, PUT at its End, a new upload, and what becomes of a mount or is asked about shares or
    /// people. Where shares or the trash are only told, there is none.
    Change {
        changes: Changes,
        blob: Option<BlobId>,
        report: Report,
    },
    /// DELETE, MOVE, COPY, what is asked about the trash, the end of an upload, and another quota: what is done, one after the other.
    Deeds {
        deeds: Deeds,
        report: Report,
    },
    /// The End of a request that stores nothing.
    Close,
}
