// A run of a story in which something fails, and what a crash then leaves.
use crate::images::{Left, disk_of, image_of};
use crate::noted::Noted;
use crate::prefixes::{Shown, place_of, prefixes_of, shown_on};
use crate::runs::{Ended, Feed, run_on, whole};
use crate::story::{Story, new_disk};
use ss_outside::MemDisk;
use std::alloc::{AllocError, Global};

/// What is right of a story: what a run says that nothing fails, how many calls of the disk it makes, and what is shown after each
/// number of events.
#[derive(Drop)]
pub struct Right {
    pub report: Vec<u8>,
    pub calls: u64,
    pub shown: Vec<Shown>,
}

/// What fails: calls of the disk alone, all from one on, reads and puts.
#[derive(Clone, Copy)]
pub struct Fault<'a> {
    pub alone: &'a [u64],
    pub from: Option<u64>,
    pub reads: &'a [u64],
    pub puts: &'a [u64],
}

/// Nothing fails.
pub const NO_FAULT: Fault<'static> = Fault {
    alone: &[],
    from: None,
    reads: &[],
    puts: &[],
};

/// What was wrong, where something was.
pub type Finding = Option<&'static str>;

/// Runs a story over a new disk on which this fails.
pub fn run_story(
    alloc: Global,
    story: &Story,
    fault: Fault<'_>,
) -> Result<(Noted<MemDisk>, Ended), AllocError> {
    let mut disk = new_disk(alloc, story.checked)?;
    disk.device_mut().fail_at(fault.alone.to_vec(alloc)?);
    if let Some(call) = fault.from {
        disk.device_mut().stop_from(call);
    }
    let ended = run_fed(alloc, story, fault, &mut disk)?;
    Ok((disk, ended))
}

fn run_fed(
    alloc: Global,
    story: &Story,
    fault: Fault<'_>,
    disk: &mut Noted<MemDisk>,
) -> Result<Ended, AllocError> {
    let fed = Feed {
        input: &story.input,
        piece: story.piece,
        reads: fault.reads,
        puts: fault.puts,
    };
    run_on(alloc, &story.mode, disk, fed)
}

/// What is right of a story, where each of its events is accepted.
pub fn right_of(alloc: Global, story: &Story) -> Result<Option<Right>, AllocError> {
    let (disk, ended) = run_story(alloc, story, NO_FAULT)?;
    let shown = prefixes_of(alloc, story)?;
    let is_whole = ended.status == 0
        && story.acknowledged(&ended.written) == story.events()
        && shown.len() == story.events().saturating_add(1);
    if !is_whole {
        return Ok(None);
    }
    Ok(Some(Right {
        report: ended.written,
        calls: disk.calls(),
        shown,
    }))
}

/// Whether a run ended as it should: with all of its report, or with a front of it and with a fault.
pub fn ends_rightly(right: &Right, ended: &Ended) -> Finding {
    if !right.report.as_slice().starts_with(&ended.written) {
        return Some("the report");
    }
    let is_whole = right.report.len() == ended.written.len();
    match ended.status {
        0 => if is_whole { None } else { Some("the status 0") },
        4..=6 => None,
        _ => Some("the status"),
    }
}

/// How many events an image holds, of a least to a most number of them. `None` where it holds none of these.
pub fn events_of(
    alloc: Global,
    story: &Story,
    right: &Right,
    disk: &mut Noted<MemDisk>,
    least: usize,
    most: usize,
) -> Result<Option<usize>, AllocError> {
    match shown_on(alloc, disk, &story.asks)? {
        Some(shown) => Ok(place_of(&right.shown, least, most, &shown)),
        None => Ok(None),
    }
}

// Whether the rest of a story, run over a disk that holds so many events, leaves what the whole story leaves.
fn goes_on(
    alloc: Global,
    story: &Story,
    right: &Right,
    disk: &mut Noted<MemDisk>,
    events: usize,
) -> Result<bool, AllocError> {
    let ended = run_on(
        alloc,
        &story.mode,
        disk,
        whole(story.rest(events), story.piece),
    )?;
    let last = story.events();
    Ok(ended.status == 0 && events_of(alloc, story, right, disk, last, last)?.is_some())
}

/// What is wrong of an image that may hold a least to a most number of events: of its opening, and of a run that goes on.
pub fn wrong_of_image(
    alloc: Global,
    story: &Story,
    right: &Right,
    image: &[u8],
    least: usize,
    most: usize,
) -> Result<Finding, AllocError> {
    let mut disk = disk_of(alloc, image)?;
    match events_of(alloc, story, right, &mut disk, least, most)? {
        None => Ok(Some("an image")),
        Some(events) => if goes_on(alloc, story, right, &mut disk, events)? {
            Ok(None)
        } else {
            Ok(Some("a run after an image"))
        },
    }
}

/// What is wrong of an image whose opening is stopped at a call, and crashes in its turn.
pub fn wrong_of_opening(
    alloc: Global,
    story: &Story,
    right: &Right,
    image: &[u8],
    call: u64,
    left: Left<'_>,
) -> Result<Finding, AllocError> {
    let mut whole = disk_of(alloc, image)?;
    let Some(events) = events_of(alloc, story, right, &mut whole, 0, story.events())? else {
        return Ok(Some("an image"));
    };
    let mut stopped = disk_of(alloc, image)?;
    stopped.device_mut().stop_from(call);
    let _ = shown_on(alloc, &mut stopped, &story.asks)?;
    let image = image_of(alloc, &stopped, left)?;
    let mut again = disk_of(alloc, &image)?;
    match events_of(alloc, story, right, &mut again, events, events)? {
        Some(_) => Ok(None),
        None => Ok(Some("an opening that stops")),
    }
}
