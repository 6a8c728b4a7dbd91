// Gives the commands one after another.
use crate::phase::Phase;
use crate::round::Round;
use ss_command::Command;
use std::marker::Model;

/// Gives the commands of a generated command file one after another. It is seen as the list of those that are left. Which
/// they are stands in specs/Commands.antt.
#[derive(Drop)]
pub struct Generator {
    // The round of the command that comes next, with those after it.
    round: Round,
    phase: Phase,
}

impl Model for Generator {
    ghost use Rattle.std.specs.Prelude.{List};
    ghost use Rattle.ss_command.specs.declared.command.Command.{Command};
    ghost use Rattle.ss_generator.specs.Left.{left};

    ghost Value = { List Command };

    ghost view = { λ g. left g.round g.phase };
}

impl Generator {
    ghost use Rattle.std.specs.Prelude.{◌≡◌, ◌≤◌, [], ◌∷◌, length, IfSome, MatchOption};
    ghost use Rattle.ss_command.specs.Printed.{IsCommandInTime, IsSayable};
    ghost use Rattle.ss_generator.specs.Commands.{commands, most_commands};

    /// All commands of `count` rounds, with `start` as the seed. At most three come in a round, and seven besides.
    pub fn new(start: u64, count: u32) -> Generator
        ensures commands { result ≡ commands start count }
        ensures bound { length result ≤ most_commands count }
    {
        Generator {
            round: Round {
                place: 0,
                left: count,
                number: start,
                time: 0,
            },
            phase: Phase::Create,
        }
    }

    /// The next command, or `None` after the last one.
    pub fn next(&mut self) -> Option<Command>
        ensures next { MatchOption result ((self.old ≡ []) × (self.new ≡ [])) (λ command. self.old ≡ command ∷ self.new) }
        ensures in_time { IfSome result IsCommandInTime }
        ensures sayable { IfSome result IsSayable }
    {
        let command = self.round.command(self.phase)?;
        self.phase = self.round.step(self.phase);
        Some(command)
    }
}
