//! What a request needs, and whether who asks may do it.

ghost use Rattle.std.specs.Prelude.{◌≡◌, ◌++◌, [], Some, option_and_then, option_copied};
ghost use Rattle.std.specs.Option.{option_map_or, option_or};
ghost use Rattle.nf_base.specs.declared.perms.Act.TheVariants.{Delete};
ghost use Rattle.nf_defs.specs.Tree.{parent_of};
ghost use Rattle.nf_reach.specs.Asking.{refusal_for};
ghost use Rattle.nf_words.specs.Needed.{folder_for, is_within, needs, needs_at, needs_between, needs_in, source_act, source_needs, target_needs};
ghost use Rattle.nf_words.specs.Places.{node_found};

use crate::asker::Asker;
use crate::ways::{Way, Ways};
use nf_base::{Act, NodeId, Place};
use nf_defs::Found;
use nf_tree::Tree;
use nf_words::{Asked, Denial, Making};

/// The node at a place, if one is there.
fn node_found(place: &Found) -> Option<NodeId>
    ensures { result ≡ node_found place.now }
{
    match place {
        Found::At(node) => Some(*node),
        Found::Free { .. } | Found::Missing { .. } => None,
    }
}

/// The folder that a node is in; a root, or what is gone, stands for its own.
fn folder_or_own(tree: &Tree, node: NodeId) -> NodeId
    ensures { Some result ≡ option_or (parent_of tree.now.rows node) (Some node) }
{
    match tree.node(node) {
        Some(row) => match row.place {
            Place::Inside(parent) => parent,
            Place::Root | Place::Trash => node,
        },
        None => node,
    }
}

/// What is acted upon is read where it stays, and else deleted, or updated if it stays in its folder.
fn source_act(removes: bool, within: bool) -> Act
    ensures { result ≡ source_act removes within }
{
    if !removes {
        Act::Read
    } else if within {
        Act::Update
    } else {
        Act::Delete
    }
}

impl<'a> Asker<'a> {
    /// The folder of what is at a place or is put there.
    fn folder_for(&self, way: &Way) -> Option<NodeId>
        ensures { result ≡ folder_for self.now.base.nodes self.now.root way.now }
    {
        if way.itself {
            return Some(self.root());
        }
        match &way.place {
            Found::At(node) if *node == self.root() => Some(*node),
            Found::At(node) => Some(folder_or_own(self.tree(), *node)),
            Found::Free { folder } => Some(*folder),
            Found::Missing { .. } => None,
        }
    }

    /// Whether the target's folder is that of the source.
    fn is_within(&self, source: Option<&Way>, target: Option<&Way>) -> bool
        ensures { result ≡ is_within self.now.base.nodes self.now.root (option_copied source.entry) (option_copied target.entry) }
    {
        match (self.folder_of(source), self.folder_of(target)) {
            (Some(from), Some(to)) => from == to,
            _ => false,
        }
    }

    fn folder_of(&self, way: Option<&Way>) -> Option<NodeId>
        ensures { result ≡ option_and_then (folder_for self.now.base.nodes self.now.root) (option_copied way.entry) }
    {
        self.folder_for(way?)
    }

    /// Why the act may not be done at that node, if there is one.
    fn refused_at(&self, act: Act, node: Option<NodeId>, mount: Option<NodeId>) -> Option<Denial>
        ensures { result ≡ refusal_for self.now (needs act node mount) }
    {
        self.refused(act, node?, mount)
    }

    /// Why the act may not be done at what a way leads to.
    fn refused_found(&self, act: Act, way: &Way) -> Option<Denial>
        ensures { result ≡ refusal_for self.now (needs_at act way.now) }
    {
        self.refused_at(act, node_found(&way.place), way.mount)
    }

    /// Why nothing may be made at the end of a way.
    fn refused_in(&self, way: &Way) -> Option<Denial>
        ensures { result ≡ refusal_for self.now (needs_in self.now.base.nodes self.now.root way.now) }
    {
        let mount = if way.itself { None } else { way.mount };
        self.refused_at(Act::Create, self.folder_for(way), mount)
    }

    /// Why nothing may be put at the end of a way in place of what is there.
    #[tactic(auto, using(crate::proofs::Refusals::first_of_both))]
    fn refused_over(&self, way: &Way) -> Option<Denial>
        ensures { result ≡ refusal_for self.now (needs_in self.now.base.nodes self.now.root way.now ++ needs_at Delete way.now) }
    {
        match self.refused_in(way) {
            Some(refusal) => Some(refusal),
            None => self.refused_found(Act::Delete, way),
        }
    }

    fn target_refused(&self, makes: &Making, within: bool, way: &Way) -> Option<Denial>
        ensures { result ≡ refusal_for self.now (target_needs makes.now self.now.base.nodes self.now.root within way.now) }
    {
        match makes {
            Making::Nothing => None,
            Making::File { .. } | Making::Assembled => match node_found(&way.place) {
                Some(_) => self.refused_found(Act::Update, way),
                None => self.refused_in(way),
            },
            Making::Folder => self.refused_in(way),
            Making::Moved if within => self.refused_found(Act::Delete, way),
            Making::Moved | Making::Copied => self.refused_over(way),
            Making::Shared
            | Making::Told
            | Making::Restored { .. }
            | Making::Sent { .. }
            | Making::Refilled { .. } => None,
        }
    }

    /// Why what a request needs may not be done, by where its paths lead: the first act that is refused.
    pub fn acts(&self, asked: &Asked<'_>, ways: &Ways) -> Option<Denial>
        ensures { result ≡ refusal_for self.now (needs_between self.now.base.nodes self.now.root asked.now ways.now.source ways.now.target) }
    {
        if ways.is_mount_asked(asked) {
            return None;
        }
        self.acts_between(asked, ways.source.as_ref(), ways.target.as_ref())
    }

    /// The same, where no mount is to be left or renamed.
    #[tactic(auto, using(crate::proofs::Refusals::first_of_both))]
    fn acts_between(
        &self,
        asked: &Asked<'_>,
        source: Option<&Way>,
        target: Option<&Way>,
    ) -> Option<Denial>
        ensures { let within = is_within self.now.base.nodes self.now.root (option_copied source.entry) (option_copied target.entry) in result ≡ refusal_for self.now (option_map_or (source_needs asked.now.makes asked.now.removes within) (option_copied source.entry) [] ++ option_map_or (target_needs asked.now.makes self.now.base.nodes self.now.root within) (option_copied target.entry) []) }
    {
        let within = self.is_within(source, target);
        match self.source_refused(asked, within, source) {
            Some(refusal) => Some(refusal),
            None => self.target_refused(&asked.makes, within, target?),
        }
    }

    fn source_refused(
        &self,
        asked: &Asked<'_>,
        within: bool,
        source: Option<&Way>,
    ) -> Option<Denial>
        ensures { result ≡ refusal_for self.now (option_map_or (source_needs asked.now.makes asked.now.removes within) (option_copied source.entry) []) }
    {
        let way = source?;
        match asked.makes {
            Making::Shared => self.refused_found(Act::Share, way),
            Making::Told => None,
            _ => self.refused_found(source_act(asked.removes, within), way),
        }
    }
}
