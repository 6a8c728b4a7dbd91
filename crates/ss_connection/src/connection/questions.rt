// Questions as values.
ghost use Rattle.std.specs.Prelude.{◌≡◌, length};
ghost use Rattle.ss_connection.specs.Calls.{AsksHeld, Called, IsSilent};
ghost use Rattle.ss_connection.specs.Holds.{IsUsable};
ghost use Rattle.ss_program.specs.Answer.{question_command};
ghost use Rattle.ss_program.specs.Line.{command_brings};
ghost use Rattle.ss_program.specs.Status.{IsDiskStop};

use super::{Connection, stop_of};
use ss_outside::Disk;
use ss_program::{Question, Status, ask};
use ss_report::Reply;

impl Connection {
    /// Asks a query, or how far a stream has come, of all that was done and staged, and answers the reply. Nothing is written.
    pub fn ask<D: Disk>(&mut self, question: &Question, disk: &mut D) -> Result<Reply, Status>
        requires { IsUsable (D.seen disk.old) self.old }
        ensures called { Called IsDiskStop self.old self.new ((self.new ≡ self.old) × (disk.new ≡ disk.old)) result (D.seen disk.old) (D.seen disk.new)
            (AsksHeld (λ history. command_brings history (question_command question.now)) self.old.store.records self.new.store.records result) }
        ensures silent { IsSilent self.old self.new }
    {
        if let Some(status) = self.ended {
            return Err(status);
        }
        self.rows = None;
        let asked = ask(&mut self.store, question, disk);
        self.ended = stop_of(&asked);
        asked
    }

    /// How many streams stand, with what is staged.
    pub fn streams(&self) -> u32
        ensures { result ≡ length self.now.store.streams }
    {
        self.store.streams()
    }
}
