// The worked row: a stream and seven readings, each with its answer.
use crate::running::Asked::{Create, Value};
use crate::running::{DOUBLING, Row};

pub const READINGS: [Row; 8] = [
    (b'a', Create(DOUBLING), Ok((0, 0))),
    (b'a', Value(10, 5), Ok((1, 1))),
    (b'a', Value(20, -3), Ok((2, 2))),
    (b'a', Value(30, 8), Ok((3, 2))),
    (b'a', Value(40, 1), Ok((4, 3))),
    (b'a', Value(50, 9), Ok((5, 3))),
    (b'a', Value(60, 2), Ok((6, 4))),
    (b'a', Value(70, 7), Ok((7, 3))),
];
