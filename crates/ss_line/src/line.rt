// The line.
use crate::chain::Chain;
use crate::{At, Entry};
use ss_base::Steps;
use std::alloc::{AllocError, Global};
use std::marker::Model;
use std::sync::ledger::Ledger;

/// The greatest number of places of a line.
pub const MOST_PLACES: u32 = 1 << 24;

/// A line of entries, and a number of places to spare for more. It is a linked list in one vector, in which the free places
/// form a list too. Each call but `reserve` takes the same few steps, whatever stands. Each call with a counter is one look
/// at the line, and ticks once.
#[derive(Drop)]
pub struct Line {
    // The places, linked.
    chain: Chain,
    // How many entries stand in the line.
    len: u32,
    // How many more fit.
    spare: u32,
}

impl Model for Line {
    ghost use Rattle.ss_line.specs.Line.{LineState};
    ghost use Rattle.ss_line.specs.Held.{line_of, IsHeld};

    ghost Value = { LineState };

    ghost view = { λ s. line_of s.chain s.len s.spare };

    ghost invariant = { λ s. IsHeld (line_of s.chain s.len s.spare) s.chain s.len };
}

impl Line {
    ghost use Rattle.std.specs.Prelude.{◌≡◌, ◌+◌, ◌≤◌, ◌<◌, max, [], ◌∷◌, ◌++◌, length, slice_set, remove};
    ghost use Rattle.std.specs.Prelude.{All, Some, IfSome, IsOk, OnOk};
    ghost use Rattle.ss_line.specs.declared.entry.At.{At};
    ghost use Rattle.ss_line.specs.Line.{IsLine, StandsIn, index_of, entry_at, place_at, place_before};

    /// An empty line with nothing to spare.
    pub fn new(alloc: Global) -> Line
        ensures { result ≡ record { entries = []; spare = 0 } }
    {
        Line {
            chain: Chain::new(alloc),
            len: 0,
            spare: 0,
        }
    }

    /// How many entries stand in the line.
    pub fn len(&self) -> u32
        ensures value { result ≡ length self.now.entries }
        ensures line { IsLine self.now }
    {
        self.len
    }

    /// How many places there are, with those to spare. The number of each place in the line is below it, also of the one
    /// that the next `push` gives.
    pub fn places(&self) -> u32
        ensures value { result ≡ length self.now.entries + self.now.spare }
        ensures most { result ≤ MOST_PLACES }
        ensures below { All (λ entry. entry.0.0 < result) self.now.entries }
        ensures line { IsLine self.now }
    {
        self.len + self.spare
    }

    /// Makes `extra` places to spare, if there are fewer, and no more than these. Where there are as many it finds no error. An
    /// error leaves the entries, and the spare never falls.
    pub fn reserve(&mut self, extra: u32) -> Result<(), AllocError>
        requires { length self.old.entries + extra ≤ MOST_PLACES }
        ensures ok { OnOk result (extra ≤ self.new.spare) }
        ensures enough { extra ≤ self.old.spare → IsOk result }
        ensures grows { self.old.spare ≤ self.new.spare }
        ensures least { self.new.spare ≤ max self.old.spare extra }
        ensures entries { self.new.entries ≡ self.old.entries }
    {
        let spare = self.spare.max(extra);
        let nodes = &mut self.chain.nodes;
        nodes.reserve((self.len + spare) as usize - nodes.len())?;
        self.spare = spare;
        Ok(())
    }

    /// Puts an entry at the end of the line, and gives its place, at which no other entry stands.
    pub fn push<L: Ledger>(&mut self, entry: Entry, steps: &mut Steps<L>) -> At
        requires { 1 ≤ self.old.spare }
        ensures fresh { ¬ StandsIn self.old.entries result }
        ensures below { result.0 < length self.old.entries + self.old.spare }
        ensures stands { StandsIn self.new.entries result }
        ensures pushed { self.new.entries ≡ self.old.entries ++ (result, entry) ∷ [] }
        ensures spare { self.new.spare + 1 ≡ self.old.spare }
        ensures look { steps.new ≡ steps.old + 1 }
    {
        steps.tick();
        let at = self.chain.take_place(entry);
        let last = self.chain.last;
        self.chain.join(last, Some(at));
        self.chain.join(Some(at), None);
        self.len += 1;
        self.spare -= 1;
        at
    }

    /// The place of the first entry.
    pub fn first(&self) -> Option<At>
        ensures value { result ≡ place_at self.now.entries 0 }
        ensures stands { IfSome result (StandsIn self.now.entries) }
    {
        self.chain.first
    }

    /// The place of the last entry.
    pub fn last(&self) -> Option<At>
        ensures value { result ≡ place_before self.now.entries (length self.now.entries) }
        ensures stands { IfSome result (StandsIn self.now.entries) }
    {
        self.chain.last
    }

    /// The entry at a place.
    pub fn get<L: Ledger>(&self, at: At, steps: &mut Steps<L>) -> Entry
        requires { StandsIn self.now.entries at }
        ensures entry { entry_at self.now.entries at ≡ Some result }
        ensures look { steps.new ≡ steps.old + 1 }
    {
        steps.tick();
        self.chain.nodes[at.0 as usize].entry
    }

    /// Puts an entry in place of the one that stands there.
    pub fn set<L: Ledger>(&mut self, at: At, entry: Entry, steps: &mut Steps<L>)
        requires { StandsIn self.old.entries at }
        ensures entries { self.new.entries ≡ slice_set self.old.entries (index_of self.old.entries at) (at, entry) }
        ensures spare { self.new.spare ≡ self.old.spare }
        ensures look { steps.new ≡ steps.old + 1 }
    {
        steps.tick();
        self.chain.write(at, entry);
    }

    /// Takes the entry out of the line, and gives it. Its place is free again, and one more is to spare.
    pub fn cut_out<L: Ledger>(&mut self, at: At, steps: &mut Steps<L>) -> Entry
        requires { StandsIn self.old.entries at }
        ensures entry { entry_at self.old.entries at ≡ Some result }
        ensures entries { self.new.entries ≡ remove self.old.entries (index_of self.old.entries at) }
        ensures spare { self.new.spare ≡ self.old.spare + 1 }
        ensures look { steps.new ≡ steps.old + 1 }
    {
        steps.tick();
        let cut = self.chain.nodes[at.0 as usize];
        self.chain.join(cut.before, cut.behind);
        self.chain.give_back(at);
        self.len -= 1;
        self.spare += 1;
        cut.entry
    }

    /// The places before and after a place.
    pub fn neighbours<L: Ledger>(&self, at: At, steps: &mut Steps<L>) -> (Option<At>, Option<At>)
        requires { StandsIn self.now.entries at }
        ensures before { result.0 ≡ place_before self.now.entries (index_of self.now.entries at) }
        ensures behind { result.1 ≡ place_at self.now.entries (index_of self.now.entries at + 1) }
        ensures stand { IfSome result.0 (StandsIn self.now.entries) × IfSome result.1 (StandsIn self.now.entries) }
        ensures look { steps.new ≡ steps.old + 1 }
    {
        steps.tick();
        let node = self.chain.nodes[at.0 as usize];
        (node.before, node.behind)
    }
}
