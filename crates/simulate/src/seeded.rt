// Stories that look random, with faults and crashes.
use crate::images::{Left, disk_of, image_of};
use crate::noted::Noted;
use crate::prefixes::{shown_on, stands};
use crate::random::Random;
use crate::runs::{run_on, whole};
use crate::stories::story_by;
use crate::story::Story;
use crate::trials::{
    Fault, Finding, NO_FAULT, Right, ends_rightly, right_of, run_story, wrong_of_image,
    wrong_of_opening,
};
use ss_outside::{Choice, Disk, MemDisk};
use std::alloc::{AllocError, Global};

// How many runs of a story have a fault, and how many crashes are looked at after each.
const RUNS: u64 = 24;

const CRASHES: u64 = 4;

fn choice_by(random: &mut Random) -> Choice {
    match random.below(4) {
        0 => Choice::Lost,
        1 => Choice::Kept,
        _ => Choice::Fill((random.next() % 256) as u8),
    }
}

fn left_by(random: &mut Random) -> Left<'static> {
    match random.below(2) {
        0 => Left::Of(choice_by(random)),
        _ => Left::Torn(random.next()),
    }
}

// A call of an opening of a file: any one, or one close before a sync, where what was written last may still be lost.
fn call_by(alloc: Global, image: &[u8], random: &mut Random) -> Result<u64, AllocError> {
    let mut disk = disk_of(alloc, image)?;
    let _ = run_on(alloc, "", &mut disk, whole(&[], 4096))?;
    if random.below(2) == 0 {
        return Ok(random.below(disk.calls()));
    }
    let k = random.below(disk.syncs().len() as u64) as usize;
    let sync = disk.syncs().get(k).copied().unwrap_or(0);
    Ok(sync.saturating_sub(random.below(3)))
}

// What is wrong after a run, of one crash, or of an opening that crashes too.
fn wrong_of_crash(
    alloc: Global,
    story: &Story,
    right: &Right,
    disk: &Noted<MemDisk>,
    least: usize,
    random: &mut Random,
) -> Result<Finding, AllocError> {
    let image = image_of(alloc, disk, left_by(random))?;
    let most = story.most(least);
    if let Some(why) = wrong_of_image(alloc, story, right, &image, least, most)? {
        return Ok(Some(why));
    }
    if random.below(2) == 0 {
        return Ok(None);
    }
    let call = call_by(alloc, &image, random)?;
    wrong_of_opening(alloc, story, right, &image, call, left_by(random))
}

// Makes durable what an earlier run left, as a file is before it is read. Where a store stands already that is left to the journal,
// whose settling has to see to it by itself. False says that it failed.
fn is_ready(disk: &mut Noted<MemDisk>) -> bool {
    stands(disk.device().content()) || disk.sync().is_ok()
}

// The program is started again over the same disk, without a crash, and stops at a call.
fn start_again(
    alloc: Global,
    story: &Story,
    disk: &mut Noted<MemDisk>,
    random: &mut Random,
) -> Result<(), AllocError> {
    let call = call_by(alloc, disk.device().content(), random)?;
    let made = disk.calls();
    disk.device_mut().stop_from(made.saturating_add(call));
    if is_ready(disk) {
        let _ = shown_on(alloc, disk, &story.asks)?;
    }
    Ok(())
}

// What is wrong of a run with a fault.
fn wrong_of_run(
    alloc: Global,
    story: &Story,
    right: &Right,
    fault: Fault<'_>,
    random: &mut Random,
) -> Result<Finding, AllocError> {
    let (mut disk, ended) = run_story(alloc, story, fault)?;
    if let Some(why) = ends_rightly(right, &ended) {
        return Ok(Some(why));
    }
    if random.below(4) == 0 {
        start_again(alloc, story, &mut disk, random)?;
    }
    let least = story.acknowledged(&ended.written);
    for _ in 0..CRASHES {
        if let Some(why) = wrong_of_crash(alloc, story, right, &disk, least, random)? {
            return Ok(Some(why));
        }
    }
    Ok(None)
}

// One of eight faults: a call of the disk that fails alone, a put, a read, none, or a call with all later ones.
fn fault_by<'a>(kind: u64, calls: &'a [u64; 1], others: &'a [u64; 1]) -> Fault<'a> {
    match kind {
        0 => Fault {
            alone: calls,
            from: None,
            reads: &[],
            puts: &[],
        },
        1 => Fault {
            alone: &[],
            from: None,
            reads: &[],
            puts: others,
        },
        2 => Fault {
            alone: &[],
            from: None,
            reads: others,
            puts: &[],
        },
        3 => NO_FAULT,
        _ => Fault {
            alone: &[],
            from: Some(calls[0]),
            reads: &[],
            puts: &[],
        },
    }
}

// The same of a run whose fault a seed chooses.
fn wrong_of_some(
    alloc: Global,
    story: &Story,
    right: &Right,
    random: &mut Random,
) -> Result<Finding, AllocError> {
    let calls = [random.below(right.calls)];
    let others = [random.below(60)];
    let fault = fault_by(random.below(8), &calls, &others);
    wrong_of_run(alloc, story, right, fault, random)
}

/// What is wrong of the story of a seed.
pub fn wrong_of_seed(alloc: Global, seed: u64) -> Result<Finding, AllocError> {
    let mut random = Random::new(seed);
    let story = story_by(alloc, &mut random)?;
    let Some(right) = right_of(alloc, &story)? else {
        return Ok(Some("a run without a fault"));
    };
    for _ in 0..RUNS {
        if let Some(why) = wrong_of_some(alloc, &story, &right, &mut random)? {
            return Ok(Some(why));
        }
    }
    Ok(None)
}
