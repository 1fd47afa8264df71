//! Routes.

/// Where the path of a target leads, by its fixed words and the number of its other segments.
#[derive(Clone, Copy, PartialEq, Eq)]
pub enum Route {
    /// A user's files: `/remote.php/dav/files/USER/PATH`.
    Files,
    /// What a link shares: `/public.php/dav/files/TOKEN/PATH`.
    Public,
    /// An upload in chunks: `/remote.php/dav/uploads/USER/DIR`.
    Upload,
    /// A chunk of one: `/remote.php/dav/uploads/USER/DIR/CHUNK`.
    Chunk,
    /// All chunks of one, as a file: the chunk `.file`.
    Assembly,
    /// A user's trash: `/remote.php/dav/trashbin/USER/trash`.
    Trash,
    /// An item in it: `/remote.php/dav/trashbin/USER/trash/NODE`.
    TrashItem,
    /// The versions of a file: `/remote.php/dav/versions/USER/versions/NODE`.
    Versions,
    /// One of them: `/remote.php/dav/versions/USER/versions/NODE/MOMENT`.
    Version,
    /// The shares: `/ocs/v2.php/apps/files_sharing/api/v1/shares`.
    Shares,
    /// One of them: `/ocs/v2.php/apps/files_sharing/api/v1/shares/SHARE`.
    Share,
    /// The users: `/ocs/v2.php/cloud/users`.
    Users,
    /// One of them: `/ocs/v2.php/cloud/users/USER`.
    User,
    /// The groups of a user: `/ocs/v2.php/cloud/users/USER/groups`.
    Memberships,
    /// The groups: `/ocs/v2.php/cloud/groups`.
    Groups,
}
