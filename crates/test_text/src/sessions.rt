// What lines of sessions mean.
ghost use Rattle.std.specs.Prelude.{IfOk, IfSome};
ghost use Rattle.ss_sessions.specs.Said.{IsOrderInTime};

use crate::lines::write_command;
use crate::tables::{Subject, Text, test, write, write_number};
use ss_catalog::Refusal;
use ss_command::LONGEST_LINE;
use ss_sessions::{Order, Spoken, read_spoken};
use std::test::Fail;

// Writes a command as it is printed, and a cursor form with its number in few digits.
fn write_order(order: &Order, out: &mut Text)
    requires { IsOrderInTime order.now }
{
    match order {
        Order::Command(command) => write_command(command, out),
        Order::Open(name) => {
            write(b"open ", out);
            write(name.as_bytes(), out);
        }
        Order::Next(count) => {
            write(b"next ", out);
            write_number(u64::from(*count), out);
        }
        Order::Close => write(b"close", out),
    }
}

// Writes an order, the name of a refusal, or "none".
fn write_said(said: &Result<Option<Order>, Refusal>, out: &mut Text)
    requires { IfOk said.now (λ order. IfSome order IsOrderInTime) }
{
    match said {
        Ok(Some(order)) => write_order(order, out),
        Ok(None) => write(b"none", out),
        Err(refusal) => write(refusal.text().as_bytes(), out),
    }
}

// What a line of sessions means: "none", "unaddressed", or the session with what is said to it.
pub fn spoken(line: &[u8], out: &mut Text) {
    if line.len() > LONGEST_LINE {
        return;
    }
    match read_spoken(line) {
        Spoken::Nothing => write(b"none", out),
        Spoken::Unaddressed => write(b"unaddressed", out),
        Spoken::To { session, said } => {
            write(b"@", out);
            write_number(u64::from(session), out);
            write(b" ", out);
            write_said(&said, out);
        }
    }
}

// Lines that mean nothing, whose first word isn't '@' and one digit up to 7, and lines with nothing after it. '\x20' is a space at
// the front.
#[test]
fn lines_are_addressed() -> Result<(), Fail> {
    test(
        Subject::Spoken,
        "=none\n\
        \x20\t =none\n\
        #=none\n\
        #@1 list=none\n\
        \x20# @1 list=unaddressed\n\
        list=unaddressed\n\
        cursor open a=unaddressed\n\
        @=unaddressed\n\
        @ 1 list=unaddressed\n\
        @8 list=unaddressed\n\
        @/ list=unaddressed\n\
        @a list=unaddressed\n\
        @07 list=unaddressed\n\
        @1list=unaddressed\n\
        @1# list=unaddressed\n\
        1@ list=unaddressed\n\
        @0=@0 none\n\
        \x20@7 \t =@7 none\n\
        @3  # cursor close=@3 none\n\
        @3 #=@3 none\n"
            .as_bytes(),
    )
}

// Plain lines and cursor forms of a session, and what they are refused for, in the order of the refusals.
#[test]
fn sessions_say_orders() -> Result<(), Fail> {
    test(
        Subject::Spoken,
        "@0 list=@0 list\n\
        \x20@7\tlist =@7 list\n\
        @1 append a 080 01=@1 append a 80 1\n\
        @1 @2 list=@1 SYNTAX\n\
        @1 append a 80=@1 SYNTAX\n\
        @1 append a! 80 x=@1 NUMBER\n\
        @1 windows a!=@1 NAME\n\
        @1 cursor=@1 SYNTAX\n\
        @1 Cursor close=@1 SYNTAX\n\
        @1 cursors close=@1 SYNTAX\n\
        @1 cursor Close=@1 SYNTAX\n\
        @1 cursor shut=@1 SYNTAX\n\
        @1 cursor close a=@1 SYNTAX\n\
        @1 cursor open=@1 SYNTAX\n\
        @1 cursor open a! b=@1 SYNTAX\n\
        @1 cursor next=@1 SYNTAX\n\
        @1 cursor next x 2=@1 SYNTAX\n\
        @1 cursor open a!=@1 NAME\n\
        @1 cursor open abcdefghijklmnopqrstuvwxyz0123456=@1 NAME\n\
        @1 cursor next 0=@1 NUMBER\n\
        @1 cursor next 1001=@1 NUMBER\n\
        @1 cursor next +1=@1 NUMBER\n\
        @1 cursor next -1=@1 NUMBER\n\
        @1 cursor next 18446744073709551617=@1 NUMBER\n\
        @1 cursor open a=@1 open a\n\
        @6\tcursor  open\tabcdefghijklmnopqrstuvwxyz012345 =@6 open abcdefghijklmnopqrstuvwxyz012345\n\
        @1 cursor open cursor=@1 open cursor\n\
        @1 cursor next 1=@1 next 1\n\
        @1 cursor next 0001000=@1 next 1000\n\
        @0 cursor close =@0 close\n"
            .as_bytes(),
    )
}
