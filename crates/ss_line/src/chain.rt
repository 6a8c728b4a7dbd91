// The nodes that hold a line, linked in its order, and the list of the free ones.
ghost use Rattle.std.specs.Prelude.{◌≡◌, ◌<◌, ◌≤◌, ◌⊎◌, IfSome, IsSome, length, vec_len, vec_capacity};
ghost use Rattle.ss_line.specs.Chain.{HasNoPlace, HasNode, LinksBehind, LinksBefore, Links, TakesPlace, GivesBack, WritesEntry};

use crate::{At, Entry, MOST_PLACES};
use std::alloc::Global;

// What is kept at a place: the entry that stands there, and the places before and behind it. At a free place `behind` is
// the free place that is given after it, and the rest means nothing.
#[derive(Clone, Copy)]
pub struct Node {
    pub entry: Entry,
    pub before: Option<At>,
    pub behind: Option<At>,
}

// The nodes of all places that were ever given, by their numbers.
#[derive(Drop)]
pub struct Chain {
    pub nodes: Vec<Node>,
    // The place of the first entry, and that of the last; none in an empty line.
    pub first: Option<At>,
    pub last: Option<At>,
    // The free place that is given next; where there is none, a new one is.
    pub free: Option<At>,
}

impl Chain {
    // With no place.
    pub fn new(alloc: Global) -> Chain
        ensures { HasNoPlace result }
    {
        Chain {
            nodes: Vec::new(alloc),
            first: None,
            last: None,
            free: None,
        }
    }

    // The place behind this one is that; where this is none, the line begins with that.
    fn link_behind(&mut self, at: Option<At>, behind: Option<At>)
        requires { IfSome at (HasNode self.old) }
        ensures { LinksBehind self.old at behind self.new }
    {
        match at {
            Some(at) => self.nodes[at.0 as usize].behind = behind,
            None => self.first = behind,
        }
    }

    // The place before this one is that; where this is none, the line ends with that.
    fn link_before(&mut self, at: Option<At>, before: Option<At>)
        requires { IfSome at (HasNode self.old) }
        ensures { LinksBefore self.old at before self.new }
    {
        match at {
            Some(at) => self.nodes[at.0 as usize].before = before,
            None => self.last = before,
        }
    }

    // Makes two places neighbours; none is an end of the line.
    pub fn join(&mut self, before: Option<At>, behind: Option<At>)
        requires before { IfSome before (HasNode self.old) }
        requires behind { IfSome behind (HasNode self.old) }
        ensures { Links self.old before behind self.new }
    {
        self.link_behind(before, behind);
        self.link_before(behind, before);
    }

    // Puts an entry at the free place that is given next, or at a new one, and gives the place.
    pub fn take_place(&mut self, entry: Entry) -> At
        requires free { IfSome self.old.free (HasNode self.old) }
        requires room { IsSome self.old.free ⊎ (vec_len self.old.nodes < vec_capacity self.old.nodes) }
        requires few { vec_len self.old.nodes ≤ MOST_PLACES }
        ensures { TakesPlace self.old entry result self.new }
    {
        match self.free {
            Some(at) => {
                let node = &mut self.nodes[at.0 as usize];
                node.entry = entry;
                self.free = node.behind;
                at
            }
            None => {
                let at = At(self.nodes.len() as u32);
                self.nodes
                    .push(Node {
                        entry,
                        before: None,
                        behind: None,
                    })
                    .unwrap();
                at
            }
        }
    }

    // Makes a place the free one that is given next.
    pub fn give_back(&mut self, at: At)
        requires { HasNode self.old at }
        ensures { GivesBack self.old at self.new }
    {
        self.nodes[at.0 as usize].behind = self.free;
        self.free = Some(at);
    }

    // Puts an entry in place of the one that is kept at a place.
    pub fn write(&mut self, at: At, entry: Entry)
        requires { HasNode self.old at }
        ensures { WritesEntry self.old at entry self.new }
    {
        self.nodes[at.0 as usize].entry = entry;
    }
}
