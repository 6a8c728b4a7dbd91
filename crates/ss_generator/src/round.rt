// A round, and what comes after each of its commands.
ghost use Rattle.std.specs.Prelude.{◌+◌, ◌*◌, ◌^◌, ◌<◌, ◌≤◌};

use crate::commands::{append, close, create, open, query};
use crate::numbers::{delay, number_after, value_of};
use crate::phase::{Phase, Question};
use crate::{CLOSING_ROUND, LANDMARK_ROUNDS, OPENING_ROUND};
use ss_command::Command;

/// A round: its place, how many rounds come after it, its number and its time. At place 0 stands what comes before the first
/// one, with the seed as its number and the time 0.
#[derive(Clone, Copy)]
pub struct Round {
    pub place: u32,
    pub left: u32,
    pub number: u64,
    pub time: u64,
    ghost few: { place + left < 2 ^ 32 },
    ghost early: { time ≤ 16 * place },
}

impl Round {
    ghost use Rattle.std.specs.Prelude.{◌≡◌, ◌%◌, ◌==◌, ◌<◌, [], ◌∷◌, ◌++◌, drop, IfSome, MatchOption};
    ghost use Rattle.ss_command.specs.Printed.{IsCommandInTime, IsSayable};
    ghost use Rattle.ss_generator.specs.Commands.{closing, of_round};
    ghost use Rattle.ss_generator.specs.Left.{after_round, from_question, from_value, left};
    ghost use Rattle.ss_generator.specs.Numbers.{delay, number_after, generated_value};

    // Whether a landmark is opened before the value.
    fn opens(&self) -> bool
        ensures { result ≡ (self.now.place % LANDMARK_ROUNDS == OPENING_ROUND) }
    {
        self.place % LANDMARK_ROUNDS == OPENING_ROUND
    }

    // Whether a landmark is closed after the value.
    fn closes(&self) -> bool
        ensures { result ≡ (self.now.place % LANDMARK_ROUNDS == CLOSING_ROUND) }
    {
        self.place % LANDMARK_ROUNDS == CLOSING_ROUND
    }

    // The round after this one.
    fn next(&self) -> Round
        requires { 0 < self.now.left }
        ensures place { result.place ≡ self.now.place + 1 }
        ensures left { result.left + 1 ≡ self.now.left }
        ensures number { result.number ≡ number_after self.now.number }
        ensures time { result.time ≡ self.now.time + delay (number_after self.now.number) }
    {
        let number = number_after(self.number);
        Round {
            place: self.place + 1,
            left: self.left - 1,
            number,
            time: self.time + delay(number),
        }
    }

    // The phase with which a round begins.
    fn begin(&self) -> Phase
        ensures { left self.now result ≡ of_round self.now.place self.now.time (generated_value self.now.number) ++ after_round self.now }
    {
        if self.opens() {
            Phase::Open
        } else {
            Phase::Append
        }
    }

    // Goes on to the next round, or to the queries where there is none.
    fn go_on(&mut self) -> Phase
        ensures { left self.new result ≡ after_round self.old }
    {
        if self.left == 0 {
            return Phase::Ask(Question::CountOfAll);
        }
        *self = self.next();
        self.begin()
    }

    // Goes on after the value of the round.
    fn end(&mut self) -> Phase
        ensures { left self.new result ≡ closing self.old.place self.old.time ++ after_round self.old }
    {
        if self.closes() {
            Phase::Close
        } else {
            self.go_on()
        }
    }

    /// The command that comes at a phase.
    pub fn command(&self, phase: Phase) -> Option<Command>
        ensures value { MatchOption result (left self.now phase ≡ []) (λ command. left self.now phase ≡ command ∷ drop 1 (left self.now phase)) }
        ensures time { IfSome result IsCommandInTime }
        ensures sayable { IfSome result IsSayable }
    {
        match phase {
            Phase::Create => Some(create()),
            Phase::Open => Some(open(self.time)),
            Phase::Append => Some(append(self.time, value_of(self.number))),
            Phase::Close => Some(close(self.time)),
            Phase::Ask(question) => Some(query(question, self.time)),
            Phase::Done => None,
        }
    }

    /// Goes on after the command of a phase.
    pub fn step(&mut self, phase: Phase) -> Phase
        ensures { left self.new result ≡ drop 1 (left self.old phase) }
    {
        match phase {
            Phase::Create | Phase::Close => self.go_on(),
            Phase::Open => Phase::Append,
            Phase::Append => self.end(),
            Phase::Ask(question) => question.after(),
            Phase::Done => Phase::Done,
        }
    }
}
