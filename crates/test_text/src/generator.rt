// What generators give, beside commands and numbers of commands that another program computed.
use crate::lines::write_command;
use crate::tables::{Subject, Text, numbers_of, small, test, write, write_number};
use ss_generator::{Generator, MOST_COUNT};
use std::test::Fail;

// A generator of so many rounds, from 1 to the most.
fn generator(start: u64, count: u64) -> Generator {
    let count = small(count);
    if count == 0 || count > MOST_COUNT {
        return Generator::new(start, 1);
    }
    Generator::new(start, count)
}

fn write_next(generator: &mut Generator, out: &mut Text) {
    match generator.next() {
        None => write(b"none", out),
        Some(command) => write_command(&command, out),
    }
}

// The command of a generator after so many others.
fn write_after(generator: &mut Generator, before: u64, out: &mut Text) {
    for _ in 0..before {
        if generator.next().is_none() {
            return;
        }
    }
    write_next(generator, out);
}

// A row has the seed, the number of rounds, and how many commands come first: the next one.
pub fn command_after(input: &[u8], out: &mut Text) {
    let numbers = numbers_of(input);
    let mut generator = generator(numbers[0], numbers[1]);
    write_after(&mut generator, numbers[2], out);
}

#[test]
fn commands_come_in_order() -> Result<(), Fail> {
    test(
        Subject::CommandAfter,
        "0 1 0=create g power 1 1 4 1\n\
        0 1 1=append g 2 874\n\
        0 1 2=query g count 0 2\n\
        0 1 3=query g sum 0 2\n\
        0 1 4=query g count 0 1\n\
        0 1 5=query g sum 0 1\n\
        0 1 6=query g min 0 1\n\
        0 1 7=query g max 0 1\n\
        1 1 0=create g power 1 1 4 1\n\
        1 1 1=append g 7 -416\n\
        1 1 2=query g count 0 7\n\
        1 1 3=query g sum 0 7\n\
        1 1 4=query g count 2 4\n\
        1 1 5=query g sum 2 4\n\
        1 1 6=query g min 2 4\n\
        1 1 7=query g max 2 4\n\
        1 500 1=append g 7 -416\n\
        1 500 499=append g 4255 632\n\
        1 500 500=landmark g open 4271\n\
        1 500 501=append g 4271 -962\n\
        1 500 502=query g count 0 4271\n\
        1 500 507=query g max 1423 2847\n\
        0 510 500=landmark g open 4162\n\
        0 510 501=append g 4162 562\n\
        0 510 502=append g 4167 706\n\
        0 510 510=append g 4234 -59\n\
        0 510 511=landmark g close 4234\n\
        0 510 512=append g 4243 442\n\
        0 510 513=query g count 0 4243\n\
        0 510 514=query g sum 0 4243\n\
        0 510 515=query g count 1414 2828\n\
        0 510 516=query g sum 1414 2828\n\
        0 510 517=query g min 1414 2828\n\
        0 510 518=query g max 1414 2828\n\
        18446744073709551615 1510 1=append g 12 606\n\
        18446744073709551615 1510 2=append g 24 550\n\
        18446744073709551615 1510 1501=append g 12845 843\n\
        18446744073709551615 1510 1502=landmark g open 12851\n\
        18446744073709551615 1510 1503=append g 12851 804\n\
        18446744073709551615 1510 1504=append g 12866 -920\n\
        18446744073709551615 1510 1513=landmark g close 12934\n\
        18446744073709551615 1510 1514=append g 12937 -828\n\
        18446744073709551615 1510 1515=query g count 0 12937\n\
        18446744073709551615 1510 1520=query g max 4312 8624\n"
            .as_bytes(),
    )
}

// How many commands come before none.
fn count_left(generator: &mut Generator) -> u64 {
    for given in 0..1000000 {
        if generator.next().is_none() {
            return given;
        }
    }
    1000000
}

// A row has the seed and the number of rounds: how many commands come, and three times what comes after the last.
pub fn command_count(input: &[u8], out: &mut Text) {
    let numbers = numbers_of(input);
    let mut generator = generator(numbers[0], numbers[1]);
    write_number(count_left(&mut generator), out);
    for _ in 0..3 {
        write(b" ", out);
        write_next(&mut generator, out);
    }
}

#[test]
fn so_many_commands_come_and_none_after() -> Result<(), Fail> {
    test(
        Subject::CommandCount,
        "0 1=8 none none none\n\
        7 1=8 none none none\n\
        1 499=506 none none none\n\
        1 500=508 none none none\n\
        1 508=516 none none none\n\
        1 509=518 none none none\n\
        1 510=519 none none none\n\
        18446744073709551615 1510=1521 none none none\n\
        1 100000=100207 none none none\n"
            .as_bytes(),
    )
}
