//! Where paths lead.

ghost use Rattle.std.specs.Prelude.{◌≡◌, option_copied, option_map};
ghost use Rattle.nf_reach.specs.Asking.{way_for, ways_in};
ghost use Rattle.nf_words.specs.Calls.{is_mount_asked, is_one, place_at, places_by};

use crate::asker::Asker;
use nf_base::{Name, NodeId};
use nf_defs::Found;
use nf_words::{Asked, Places, Spot};
use std::marker::Model;

/// Where a path leads, the node of the mount that it goes by, if it goes by one, and whether it is the path of the mount itself.
#[derive(Clone, Copy)]
pub struct Way {
    pub mount: Option<NodeId>,
    pub itself: bool,
    pub place: Found,
}

impl Model for Way {
    ghost use Rattle.nf_words.specs.Calls.{Way};

    ghost Value = { Way };

    ghost view = { λ way. record { mount = way.mount; itself = way.itself; place = way.place } };

    ghost inverse = { λ way. record { mount = way.mount; itself = way.itself; place = way.place } };
}

/// The ways of a request's paths.
#[derive(Clone, Copy)]
pub struct Ways {
    pub source: Option<Way>,
    pub target: Option<Way>,
}

impl Model for Ways {
    ghost use Rattle.nf_words.specs.Calls.{Ways};

    ghost Value = { Ways };

    ghost view = { λ ways. record { source = ways.source; target = ways.target } };

    ghost inverse = { λ ways. record { source = ways.source; target = ways.target } };
}

impl Ways {
    /// Whether a mount is to be left or to have another name.
    pub fn is_mount_asked(&self, asked: &Asked<'_>) -> bool
        ensures { result ≡ is_mount_asked asked.now self.now.source }
    {
        match &self.source {
            Some(way) => asked.removes && way.itself,
            None => false,
        }
    }

    /// The places at which something is acted upon.
    pub fn places(&self, asked: &Asked<'_>) -> Places
        ensures { result ≡ places_by asked.now self.now }
    {
        if self.is_mount_asked(asked) {
            return Places {
                source: None,
                target: None,
            };
        }
        Places {
            source: place_at(&self.source),
            target: place_at(&self.target),
        }
    }
}

/// The place to which a way leads.
pub fn place_at(way: &Option<Way>) -> Option<Found>
    ensures { result ≡ place_at way.now }
{
    match way {
        Some(way) => Some(way.place),
        None => None,
    }
}

/// Whether there is one name.
pub(crate) fn is_one(names: &[Name]) -> bool
    ensures { result ≡ is_one names.now }
{
    names.len() == 1
}

impl<'a> Asker<'a> {
    /// The ways of what is asked for.
    pub fn ways(&self, asked: &Asked<'_>) -> Ways
        ensures { result ≡ ways_in self.now asked.now }
    {
        Ways {
            source: self.way_at(asked.source),
            target: self.way_at(asked.target),
        }
    }

    /// The way of a place's path.
    fn way_at(&self, spot: Option<&Spot>) -> Option<Way>
        ensures { result ≡ option_map (λ spot. way_for self.now spot.path) (option_copied spot.entry) }
    {
        Some(self.way(spot?.path.names()))
    }
}
