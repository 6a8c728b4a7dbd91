// Why the bytes of a piece are no frame, and what stands between a frame and its stream, in words.
use crate::reasons::{name_of_event, params};
use ss_base::LAST_TIME;
use ss_catalog::{Family, LONGEST_NAME, Name, Params};
use ss_frames::{CLOSE, CONTENT, CREATE, FRAME_SIZE, Frame, NAME, NUMBER, OPEN, STEP};
use std::alloc::{AllocError, Global};

// The byte at a place.
fn byte_at(piece: &[u8], place: usize) -> u8 {
    piece.get(place).copied().unwrap_or(0)
}

// The number that so many bytes from a place on spell.
fn number_at(piece: &[u8], place: usize, size: usize) -> u64 {
    let mut number: u64 = 0;
    for byte in piece.get(place..).unwrap_or(&[]).iter().take(size) {
        number = number.wrapping_mul(256).wrapping_add(u64::from(*byte));
    }
    number
}

// A parameter of a target, counted from 0.
fn parameter_at(piece: &[u8], place: usize) -> u32 {
    let number = number_at(piece, CONTENT.saturating_add(place.saturating_mul(4)), 4);
    u32::try_from(number).unwrap_or(0)
}

// Whether bytes are those of a text. No frame is one, since its first byte is below 5.
fn is_text(piece: &[u8]) -> bool {
    piece.iter().all(|byte| byte.is_ascii_graphic() || byte.is_ascii_whitespace())
}

// Whether bytes are the digits of frames, as they stand behind the replies to events.
fn has_digits_of_frames(piece: &[u8]) -> bool {
    piece.starts_with(b"frame ")
        || piece.iter().all(|byte| byte.is_ascii_hexdigit() || byte.is_ascii_whitespace())
}

// Whether bytes are zeros.
fn are_zeros(bytes: &[u8]) -> bool {
    bytes.iter().all(|byte| *byte == 0)
}

// Why a text is no frame.
fn text_reason(alloc: Global, piece: &[u8]) -> Result<String, AllocError> {
    let text = if has_digits_of_frames(piece) {
        "these are the digits of frames, and not their bytes: xxd -r -p makes bytes of digits"
    } else {
        "these bytes aren't frames but text: the mode frames makes frames of commands"
    };
    String::from_str(alloc, text)
}

// Why the first bytes fit no frame: the kind of the event, the family of a target, and the length of the name.
fn head_reason(alloc: Global, piece: &[u8]) -> Option<Result<String, AllocError>> {
    let (kind, family, length) = (byte_at(piece, 0), byte_at(piece, 1), byte_at(piece, 2));
    if kind < CREATE || kind > CLOSE {
        Some(format!(in alloc;
            "it begins with the byte {kind}, and frames begin with 1 to 4: these bytes aren't frames, or some are lost"
        ))
    } else if kind == CREATE && family != 1 && family != 2 {
        Some(format!(in alloc;
            "a target of the family {family} isn't known: 1 is exp, and 2 is power"
        ))
    } else if kind != CREATE && family != 0 {
        Some(format!(in alloc;
            "it has the family {family}, and only the frame of a create has one"
        ))
    } else if length == 0 || usize::from(length) > LONGEST_NAME {
        Some(format!(in alloc; "its name has {length} letters, and a name has 1 to {LONGEST_NAME}"))
    } else {
        None
    }
}

// Why the bytes of the name fit no frame, or those that lie between fields.
fn name_reason(alloc: Global, piece: &[u8]) -> Option<Result<String, AllocError>> {
    let end = NAME.saturating_add(usize::from(byte_at(piece, 2)));
    let name = piece.get(NAME..end).unwrap_or(&[]);
    // Only a create has a step.
    let head = if byte_at(piece, 0) == CREATE {
        STEP
    } else {
        NUMBER
    };
    if Name::of(name).is_none() {
        Some(String::from_str(
            alloc,
            "its name has more in it than letters, digits, _, - and .",
        ))
    } else if !are_zeros(piece.get(3..head).unwrap_or(&[]))
        || !are_zeros(piece.get(end..CONTENT).unwrap_or(&[]))
    {
        Some(String::from_str(
            alloc,
            "bytes that belong to no field of it are zeros in a frame, and here they aren't",
        ))
    } else {
        None
    }
}

// Why the number fits no frame.
fn number_reason(alloc: Global, piece: &[u8]) -> Option<Result<String, AllocError>> {
    let number = number_at(piece, NUMBER, 8);
    let is_create = byte_at(piece, 0) == CREATE;
    if number == 0 {
        Some(String::from_str(
            alloc,
            "its number is 0, and the events of a stream count from 1",
        ))
    } else if is_create && number != 1 {
        Some(format!(in alloc;
            "it is a create with the number {number}, and each create has the number 1"
        ))
    } else if !is_create && number == 1 {
        Some(String::from_str(alloc, "its number is 1, and that is the number of a create"))
    } else {
        None
    }
}

// Why the target of a create fits no frame. Any step does.
fn target_reason(alloc: Global, piece: &[u8]) -> Result<String, AllocError> {
    let (first, second) = (parameter_at(piece, 0), parameter_at(piece, 1));
    let (third, fourth) = (parameter_at(piece, 2), parameter_at(piece, 3));
    let family = if byte_at(piece, 1) == 2 {
        Family::Power {
            p: first,
            q: second,
            r: third,
            s: fourth,
        }
    } else if fourth != 0 {
        return String::from_str(
            alloc,
            "the target exp has three parameters, and its last four bytes aren't zeros",
        );
    } else {
        Family::Exp {
            b: first,
            r: second,
            s: third,
        }
    };
    params(
        alloc,
        &Params {
            family,
            within: None,
        },
    )
}

// Why the time or the value fits no frame.
fn time_reason(alloc: Global, piece: &[u8]) -> Result<String, AllocError> {
    let kind = byte_at(piece, 0);
    let time = number_at(piece, CONTENT, 8);
    if time > LAST_TIME {
        format!(in alloc; "its time is {time}, and times are 0 to {LAST_TIME}")
    } else if kind == OPEN || kind == CLOSE {
        String::from_str(
            alloc,
            "its last eight bytes aren't zeros, and a landmark has no value",
        )
    } else {
        String::from_str(alloc, "these 64 bytes spell no frame")
    }
}

// Why as many bytes as a frame has spell none.
fn spelling_reason(alloc: Global, piece: &[u8]) -> Result<String, AllocError> {
    let first = head_reason(alloc, piece)
        .or(name_reason(alloc, piece))
        .or(number_reason(alloc, piece));
    match first {
        Some(reason) => reason,
        None if byte_at(piece, 0) == CREATE => target_reason(alloc, piece),
        None => time_reason(alloc, piece),
    }
}

/// Why a piece of the input is no frame, in words.
pub fn frame_reason(alloc: Global, piece: &[u8]) -> Result<String, AllocError> {
    if is_text(piece) {
        text_reason(alloc, piece)
    } else if piece.len() < FRAME_SIZE {
        let found = piece.len();
        format!(in alloc; "the input ends after {found} of the {FRAME_SIZE} bytes of a frame")
    } else {
        spelling_reason(alloc, piece)
    }
}

/// What is to be done about a frame that comes before others of its stream, which has so many events.
pub fn gap_reason(alloc: Global, frame: &Frame, events: u64) -> Result<String, AllocError> {
    let name = name_of_event(&frame.event).as_str();
    let (number, next) = (frame.number, events.saturating_add(1));
    format!(in alloc;
        "event {next} of {name} is missing, and this is event {number}: send its frames again from event {next} on"
    )
}
