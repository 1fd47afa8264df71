//! How many rows there are of the kinds that grow.

ghost use Rattle.std.specs.Prelude.{◌≡◌};
ghost use Rattle.nf_state.specs.Counts.{only_nodes, people_of};

use nf_people::PeopleCounts;

/// How many users, tokens, groups, members, nodes, shares, mounts, versions, items of the trash, uploads and chunks.
#[derive(Clone, Copy, PartialEq, Eq)]
pub struct RowCounts {
    pub users: usize,
    pub tokens: usize,
    pub groups: usize,
    pub members: usize,
    pub nodes: usize,
    pub shares: usize,
    pub mounts: usize,
    pub versions: usize,
    pub items: usize,
    pub uploads: usize,
    pub chunks: usize,
}

impl RowCounts {
    /// So many nodes, and nothing else.
    pub fn only_nodes(nodes: usize) -> Self
        ensures { result ≡ only_nodes nodes }
    {
        RowCounts {
            users: 0,
            tokens: 0,
            groups: 0,
            members: 0,
            nodes,
            shares: 0,
            mounts: 0,
            versions: 0,
            items: 0,
            uploads: 0,
            chunks: 0,
        }
    }

    /// Those of people alone.
    pub(crate) fn people(&self) -> PeopleCounts
        ensures { result ≡ people_of self.now }
    {
        PeopleCounts {
            users: self.users,
            tokens: self.tokens,
            groups: self.groups,
            members: self.members,
        }
    }
}
