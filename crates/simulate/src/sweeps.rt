// A story in which each call fails in its turn.
use crate::bytes::{count_lines, part};
use crate::images::{CRASHES, Left, disk_of, image_of};
use crate::noted::Noted;
use crate::prefixes::{Shown, shown_on};
use crate::runs::{Ended, run_on, whole};
use crate::story::Story;
use crate::trials::{
    Fault, Finding, NO_FAULT, Right, ends_rightly, events_of, right_of, run_story, wrong_of_image,
    wrong_of_opening,
};
use ss_outside::{Choice, MemDisk};
use std::alloc::{AllocError, Global};

// What is wrong of each crash that is looked at everywhere.
fn wrong_of_crashes(
    alloc: Global,
    story: &Story,
    right: &Right,
    disk: &Noted<MemDisk>,
    least: usize,
) -> Result<Finding, AllocError> {
    for choice in CRASHES {
        let image = image_of(alloc, disk, Left::Of(choice))?;
        let wrong = wrong_of_image(alloc, story, right, &image, least, story.most(least))?;
        if wrong.is_some() {
            return Ok(wrong);
        }
    }
    Ok(None)
}

// The same of a run with a fault.
fn wrong_of_fault(
    alloc: Global,
    story: &Story,
    right: &Right,
    fault: Fault<'_>,
) -> Result<Finding, AllocError> {
    let (disk, ended) = run_story(alloc, story, fault)?;
    if let Some(why) = ends_rightly(right, &ended) {
        return Ok(Some(why));
    }
    wrong_of_crashes(
        alloc,
        story,
        right,
        &disk,
        story.acknowledged(&ended.written),
    )
}

// The fault of a call, which fails alone or with all later ones.
fn fault_at(call: &[u64; 1], all: bool) -> Fault<'_> {
    if all {
        Fault {
            alone: &[],
            from: Some(call[0]),
            reads: &[],
            puts: &[],
        }
    } else {
        Fault {
            alone: call,
            from: None,
            reads: &[],
            puts: &[],
        }
    }
}

/// Each call of the disk fails, alone or with all later ones. What is said of it.
pub fn sweep_calls(alloc: Global, story: &Story, all: bool) -> Result<String, AllocError> {
    let Some(right) = right_of(alloc, story)? else {
        return String::from_str(alloc, "= refused\n");
    };
    for call in 0..right.calls {
        if let Some(why) = wrong_of_fault(alloc, story, &right, fault_at(&[call], all))? {
            return format!(in alloc; "= call {call}: {why}\n");
        }
    }
    String::from_str(alloc, "= held\n")
}

// How many events the crashes that are looked at everywhere hold, at least and at most.
fn events_left(
    alloc: Global,
    story: &Story,
    right: &Right,
    disk: &Noted<MemDisk>,
) -> Result<Option<(usize, usize)>, AllocError> {
    let mut least = story.events();
    let mut most = 0usize;
    for choice in CRASHES {
        let image = image_of(alloc, disk, Left::Of(choice))?;
        let mut left = disk_of(alloc, &image)?;
        match events_of(alloc, story, right, &mut left, 0, story.events())? {
            Some(events) => {
                least = least.min(events);
                most = most.max(events);
            }
            None => return Ok(None),
        }
    }
    Ok(Some((least, most)))
}

// A line on a run of which a read or a put failed, and whether there was one to fail: the status, how many lines were written, and
// how many events stand after a crash.
fn said_of_feed(
    alloc: Global,
    story: &Story,
    right: &Right,
    fault: Fault<'_>,
    call: u64,
) -> Result<(String, bool), AllocError> {
    let (disk, ended) = run_story(alloc, story, fault)?;
    if let Some(why) = ends_rightly(right, &ended) {
        return Ok((format!(in alloc; "= {call}: {why}\n")?, false));
    }
    let status = ended.status;
    let lines = count_lines(&ended.written);
    let said = match events_left(alloc, story, right, &disk)? {
        Some((least, most)) if least == most => format!(in alloc;
            "= {call}: status {status} lines {lines} events {least}\n"
        )?,
        Some((least, most)) => format!(in alloc;
            "= {call}: status {status} lines {lines} events {least} to {most}\n"
        )?,
        None => format!(in alloc; "= {call}: status {status} lines {lines} an image\n")?,
    };
    Ok((said, status != 0))
}

// More reads or puts than a run makes.
const MOST: u64 = 10_000;

/// Each read of the input fails in its turn, or each put of the output. A line for each, until one isn't made.
pub fn sweep_feeds(alloc: Global, story: &Story, reads: bool) -> Result<String, AllocError> {
    let Some(right) = right_of(alloc, story)? else {
        return String::from_str(alloc, "= refused\n");
    };
    let mut text = String::new(alloc);
    for call in 0..MOST {
        let (said, goes_on) = if reads {
            said_of_feed(
                alloc,
                story,
                &right,
                Fault {
                    alone: &[],
                    from: None,
                    reads: &[call],
                    puts: &[],
                },
                call,
            )?
        } else {
            said_of_feed(
                alloc,
                story,
                &right,
                Fault {
                    alone: &[],
                    from: None,
                    reads: &[],
                    puts: &[call],
                },
                call,
            )?
        };
        text.push_str(said.as_str())?;
        if !goes_on {
            break;
        }
    }
    Ok(text)
}

// What is wrong of an image where its opening stops at each call, and crashes in its turn.
fn wrong_of_openings(
    alloc: Global,
    story: &Story,
    right: &Right,
    image: &[u8],
) -> Result<Finding, AllocError> {
    let mut whole = disk_of(alloc, image)?;
    let _ = shown_on(alloc, &mut whole, &story.asks)?;
    for call in 0..whole.calls() {
        for choice in CRASHES {
            let wrong = wrong_of_opening(alloc, story, right, image, call, Left::Of(choice))?;
            if wrong.is_some() {
                return Ok(wrong);
            }
        }
    }
    Ok(None)
}

// The same of each crash of a disk, where it isn't like that which loses all.
fn wrong_of_each(
    alloc: Global,
    story: &Story,
    right: &Right,
    disk: &Noted<MemDisk>,
) -> Result<Finding, AllocError> {
    let lost = image_of(alloc, disk, Left::Of(Choice::Lost))?;
    for choice in CRASHES {
        let image = image_of(alloc, disk, Left::Of(choice))?;
        if choice == Choice::Lost || image.as_slice() != lost.as_slice() {
            let wrong = wrong_of_openings(alloc, story, right, &image)?;
            if wrong.is_some() {
                return Ok(wrong);
            }
        }
    }
    Ok(None)
}

/// Each call of the disk fails with all later ones, from that behind so many syncs on, and then each call of each opening after a
/// crash. What is said of it.
pub fn sweep_openings(alloc: Global, story: &Story, syncs: u64) -> Result<String, AllocError> {
    let Some(right) = right_of(alloc, story)? else {
        return String::from_str(alloc, "= refused\n");
    };
    for call in call_behind(alloc, story, syncs)?..right.calls {
        let (disk, _) = run_story(alloc, story, fault_at(&[call], true))?;
        if let Some(why) = wrong_of_each(alloc, story, &right, &disk)? {
            return format!(in alloc; "= call {call}: {why}\n");
        }
    }
    String::from_str(alloc, "= held\n")
}

// The number of the call behind so many syncs of a run that nothing fails.
fn call_behind(alloc: Global, story: &Story, syncs: u64) -> Result<u64, AllocError> {
    let (disk, _) = run_story(alloc, story, NO_FAULT)?;
    match syncs
        .checked_sub(1)
        .and_then(|k| disk.syncs().get(k as usize))
    {
        Some(call) => Ok(call.saturating_add(1)),
        None => Ok(0),
    }
}

// What is wrong of a disk whose opening stops at a call.
fn wrong_of_stop(
    alloc: Global,
    content: &[u8],
    asks: &[u8],
    right: &Shown,
    call: u64,
) -> Result<bool, AllocError> {
    let mut stopped = disk_of(alloc, content)?;
    stopped.device_mut().stop_from(call);
    let _ = shown_on(alloc, &mut stopped, asks)?;
    for choice in CRASHES {
        let image = image_of(alloc, &stopped, Left::Of(choice))?;
        match shown_on(alloc, &mut disk_of(alloc, &image)?, asks)? {
            Some(shown) if shown.text.as_slice() == right.text.as_slice() => {}
            _ => return Ok(true),
        }
    }
    Ok(false)
}

/// Each call of an opening of a disk fails with all later ones, and it crashes. What is said of it.
pub fn sweep_disk(alloc: Global, content: &[u8], asks: &[u8]) -> Result<String, AllocError> {
    let mut whole = disk_of(alloc, content)?;
    let Some(right) = shown_on(alloc, &mut whole, asks)? else {
        return String::from_str(alloc, "= refused\n");
    };
    for call in 0..whole.calls() {
        if wrong_of_stop(alloc, content, asks, &right, call)? {
            return format!(in alloc; "= call {call}: an image\n");
        }
    }
    String::from_str(alloc, "= held\n")
}

// What a check says of a disk that is cut to a length.
fn said_when_cut(alloc: Global, content: &[u8], length: usize) -> Result<Ended, AllocError> {
    run_on(
        alloc,
        "check",
        &mut disk_of(alloc, part(content, 0, length))?,
        whole(&[], 4096),
    )
}

// A line on the lengths of which a check says the same.
fn push_said(text: &mut String, from: usize, to: usize, said: &Ended) -> Result<(), AllocError> {
    let status = said.status;
    write!(text, "= {from} to {to}: status {status}, ")?;
    for byte in &said.written {
        text.push(*byte as char)?;
    }
    Ok(())
}

// Whether a length is tried: the first ones, those of the first slots, and some between.
fn is_tried(length: usize) -> bool {
    length < 1100 || length > 36800 || length % 97 == 0
}

/// What a check says of a disk that is cut to many lengths up to its own: a line for those that follow each other of which it says
/// the same.
pub fn sweep_cuts(alloc: Global, content: &[u8]) -> Result<String, AllocError> {
    let mut text = String::new(alloc);
    let mut from = 0usize;
    let mut said = said_when_cut(alloc, content, 0)?;
    for length in 1..=content.len() {
        if !is_tried(length) {
            continue;
        }
        let next = said_when_cut(alloc, content, length)?;
        if next.status != said.status || next.written.as_slice() != said.written.as_slice() {
            push_said(&mut text, from, length.saturating_sub(1), &said)?;
            from = length;
            said = next;
        }
    }
    push_said(&mut text, from, content.len(), &said)?;
    Ok(text)
}
