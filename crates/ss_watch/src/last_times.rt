// The last time of each stream, as the replies to the lines so far tell it.
use ss_catalog::{Event, MOST_STREAMS, Name};
use ss_command::Command;
use std::alloc::Global;
use std::collections::HashMap;

/// The last time of each stream that took an event with a time in this run, and wasn't dropped after it.
#[derive(Drop)]
pub struct LastTimes {
    times: HashMap<Name, u64>,
}

// The stream and the time of an event that has one.
fn timed(command: &Command) -> Option<(Name, u64)> {
    match command {
        Command::Do(Event::Value { name, t, .. }) => Some((*name, *t)),
        Command::Do(Event::Open { name, t }) => Some((*name, *t)),
        Command::Do(Event::Close { name, t }) => Some((*name, *t)),
        _ => None,
    }
}

impl LastTimes {
    pub fn new(alloc: Global) -> LastTimes {
        LastTimes {
            times: HashMap::new(alloc),
        }
    }

    /// Takes a command that was accepted. Where memory runs out, the time of its stream stays unknown.
    pub fn accept(&mut self, command: &Command) {
        if let Command::Do(Event::Drop { name }) = command {
            let _ = self.times.remove(name);
        } else if let Some((name, t)) = timed(command) {
            if self.times.len() < MOST_STREAMS as usize || self.times.contains_key(&name) {
                let _ = self.times.insert(name, t);
            }
        }
    }

    /// The last time of the stream that a command is for, where it has a time and the last one is known.
    pub fn last_for(&self, command: &Command) -> Option<u64> {
        match timed(command) {
            Some((name, _)) => self.times.get(&name).copied(),
            None => None,
        }
    }
}
