// What errors say.
use ss_catalog::{CatalogError, Refusal};
use ss_recover::RecoverError;
use ss_store::{ApplyError, AskError, OpenError};
use std::alloc::{AllocError, Global};
use std::fmt::Display;
use std::test::Fail;

const OPENING: [(OpenError, &str); 7] = [
    (OpenError::Disk, "the disk failed"),
    (OpenError::NotAStore, "not a store"),
    (OpenError::BadEntry { n: 63 }, "damaged entry 63"),
    (OpenError::BadSlot { n: 7 }, "damaged slot 7"),
    (OpenError::BadStream { id: 6 }, "damaged stream 6"),
    (OpenError::OutOfMemory, "out of memory"),
    (OpenError::Changed { slot: 2 }, "slot 2 has changed"),
];

const APPLYING: [(ApplyError, &str); 5] = [
    (
        ApplyError::Refused(Refusal::StreamFull),
        "refused: STREAM_FULL",
    ),
    (ApplyError::Disk, "the disk failed"),
    (ApplyError::Stopped, "the store has stopped"),
    (ApplyError::OutOfMemory, "out of memory"),
    (ApplyError::Changed { slot: 0 }, "slot 0 has changed"),
];

const ASKING: [(AskError, &str); 4] = [
    (AskError::Refused(Refusal::Range), "refused: RANGE"),
    (AskError::Disk, "the disk failed"),
    (AskError::Stopped, "the store has stopped"),
    (AskError::Changed { slot: 10 }, "slot 10 has changed"),
];

const REBUILDING: [(RecoverError, &str); 4] = [
    (RecoverError::BadSlot { n: 1 }, "damaged slot 1"),
    (RecoverError::BadStream { id: 0 }, "damaged stream 0"),
    (RecoverError::Disk, "the disk failed"),
    (RecoverError::OutOfMemory, "out of memory"),
];

const NAMING: [(CatalogError, &str); 3] = [
    (CatalogError::Exists, "the name is there"),
    (CatalogError::Limit, "too many names"),
    (CatalogError::OutOfMemory, "out of memory"),
];

// The first text that the error beside it doesn't say.
fn unsaid<E: Display>(
    alloc: Global,
    rows: &[(E, &'static str)],
) -> Result<Option<&'static str>, AllocError> {
    for (error, text) in rows {
        if format!(in alloc; "{error}")?.as_str() != *text {
            return Ok(Some(*text));
        }
    }
    Ok(None)
}

fn first_unsaid(alloc: Global) -> Result<Option<&'static str>, AllocError> {
    Ok(
        unsaid(alloc, &OPENING)?
            .or(unsaid(alloc, &APPLYING)?)
            .or(unsaid(alloc, &ASKING)?)
            .or(unsaid(alloc, &REBUILDING)?)
            .or(unsaid(alloc, &NAMING)?),
    )
}

#[test]
fn errors_say_what_failed(rt: HostRuntime) -> Result<(), Fail> {
    match first_unsaid(rt.alloc())? {
        None => Ok(()),
        Some(text) => Err(Fail::new(text)),
    }
}
