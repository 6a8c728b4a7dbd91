// What a store shows after each number of events of a story, where nothing crashes.
use crate::bytes::part;
use crate::noted::Noted;
use crate::runs::{run_on, whole};
use crate::story::{Story, new_disk};
use ss_checksum::checksum;
use ss_outside::MemDisk;
use std::alloc::{AllocError, Global};

/// What is shown, and what lies in the slots.
#[derive(Drop)]
pub struct Shown {
    pub text: Vec<u8>,
    pub slots: u32,
}

// Where the slots begin.
const SLOTS: usize = 36864;

/// Whether a store stands there: the file is long enough, and the gate of its birth is open.
pub fn stands(content: &[u8]) -> bool {
    content.len() >= SLOTS && content.starts_with(b"\xa5")
}

// The checksum of what lies in slots, without the zeros at the end.
fn slots_of(content: &[u8]) -> u32 {
    let slots = part(content, SLOTS, content.len());
    let mut end = 0usize;
    for (k, byte) in slots.iter().enumerate() {
        if *byte != 0 {
            end = k.saturating_add(1);
        }
    }
    checksum(&[], part(slots, 0, end))
}

/// How many slots hold something.
pub fn count_slots(content: &[u8]) -> usize {
    let slots = part(content, SLOTS, content.len());
    let mut count = 0usize;
    for k in 0..slots.len().div_ceil(128) {
        let from = k.saturating_mul(128);
        if part(slots, from, from.saturating_add(128))
            .iter()
            .any(|byte| *byte != 0)
        {
            count = count.saturating_add(1);
        }
    }
    count
}

/// What a store shows by a run of its own, where it opens.
pub fn shown_on(
    alloc: Global,
    disk: &mut Noted<MemDisk>,
    asks: &[u8],
) -> Result<Option<Shown>, AllocError> {
    let ended = run_on(alloc, "", disk, whole(asks, 4096))?;
    if ended.status != 0 {
        return Ok(None);
    }
    // What that opening cleared lies in the journal until the next one.
    let settled = run_on(alloc, "", disk, whole(&[], 4096))?;
    if settled.status != 0 {
        return Ok(None);
    }
    let slots = slots_of(disk.device().content());
    Ok(Some(Shown {
        text: ended.written,
        slots,
    }))
}

// What is shown after a run over the first lines, where the run itself showed the same at its end.
fn shown_after(alloc: Global, story: &Story, events: usize) -> Result<Option<Shown>, AllocError> {
    let mut lines = story.front(events).to_vec(alloc)?;
    lines.extend_from_slice(&story.asks)?;
    let mut disk = new_disk(alloc, story.checked)?;
    let ended = run_on(alloc, "", &mut disk, whole(&lines, 4096))?;
    let Some(shown) = shown_on(alloc, &mut disk, &story.asks)? else {
        return Ok(None);
    };
    if ended.written.as_slice().ends_with(&shown.text) {
        Ok(Some(shown))
    } else {
        Ok(None)
    }
}

/// What is shown after each number of events, from none on. There is less of it where a run fails.
pub fn prefixes_of(alloc: Global, story: &Story) -> Result<Vec<Shown>, AllocError> {
    let mut all = Vec::new(alloc);
    for events in 0..=story.events() {
        if let Some(shown) = shown_after(alloc, story, events)? {
            all.push(shown)?;
        }
    }
    Ok(all)
}

/// The first number of events from a least to a most one after which this is shown.
pub fn place_of(all: &[Shown], least: usize, most: usize, found: &Shown) -> Option<usize> {
    for (events, shown) in all.iter().enumerate() {
        let is_like = shown.text.as_slice() == found.text.as_slice() && shown.slots == found.slots;
        if least <= events && events <= most && is_like {
            return Some(events);
        }
    }
    None
}
