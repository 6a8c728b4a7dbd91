// One run over an input: bytes come in, and each line that ends is answered.
ghost use Rattle.std.specs.Prelude.{◌≡◌, ◌⊎◌, [], IfOk, IfErr, OnOk, OnErr};
ghost use Rattle.ss_outside.specs.Step.{Step};
ghost use Rattle.ss_outside.specs.Verdict.{Counted};
ghost use Rattle.ss_program.specs.Amid.{IsAtRest};
ghost use Rattle.ss_program.specs.Answer.{IsOpen};
ghost use Rattle.ss_program.specs.Progress.{EndsInputRun, NoneWait, TakesPiece, sealing_by};
ghost use Rattle.ss_program.specs.Steps.{kept_so_far};
ghost use Rattle.ss_program.specs.Status.{disk_verdict, ended, sink_verdict, IsStop};
ghost use Rattle.ss_sessions.specs.Cursors.{no_cursors};

use crate::replies::{Replies, Seals};
use crate::status::Status;
use crate::step_reader::StepReader;
use crate::taking::{finish_lines, take_piece};
use crate::talk::Talk;
use ss_arguments::{Form, Sealing};
use ss_outside::{Disk, Sink};
use ss_sessions::OpenCursors;
use ss_store::Store;
use std::alloc::{AllocError, Global};
use std::marker::Model;

/// A conversation that goes on, and the reader that cuts the input into its lines.
#[derive(Drop)]
pub struct InputRun {
    talk: Talk,
    reader: StepReader,
}

impl Model for InputRun {
    ghost use Rattle.ss_program.specs.Amid.{input_run_state};
    ghost use Rattle.ss_program.specs.Progress.{InputRunState};

    ghost Value = { InputRunState };

    ghost view = { λ s. input_run_state s.talk s.reader };
}

impl InputRun {
    /// A session at the front of its input. It takes memory where events share seals.
    pub fn start(
        alloc: Global,
        store: Store,
        form: Form,
        sealing: Sealing,
    ) -> Result<InputRun, AllocError>
        ensures store { IfOk result (λ session. session.store ≡ store) }
        ensures line { IfOk result (λ session. session.line ≡ kept_so_far form []) }
        ensures form { IfOk result (λ session. (session.form ≡ form) × (session.cursors ≡ no_cursors)) }
        ensures sealing { IfOk result (λ session. (sealing_by session.waiting ≡ sealing) × NoneWait session.waiting) }
        ensures each { sealing ≡ Sealing.Each → OnErr result ⊥ }
    {
        let waiting = match sealing {
            Sealing::Each => Seals::Each,
            Sealing::Shared => Seals::Shared(Replies::new(alloc)?),
        };
        let talk = Talk {
            sessions: OpenCursors::new(alloc),
            store,
            waiting,
        };
        Ok(InputRun {
            talk,
            reader: StepReader::new(form),
        })
    }

    /// Takes a piece of the input, and answers each line that ends in it. At an error the run stopped at one of these
    /// lines, and the session is of no more use.
    pub fn take<D: Disk, K: Sink>(
        &mut self,
        piece: &[u8],
        disk: &mut D,
        sink: &mut K,
    ) -> Result<(), Status>
        requires { IsOpen (D.seen disk.old) self.old.store }
        ensures takes { Step (disk_verdict (ended result)) (D.seen disk.old) (D.seen disk.new)
            (TakesPiece (λ _. piece.now) piece.now self.old self.new (K.held sink.old) (K.held sink.new) result) }
        // Over every disk: before more is read, all is on the disk and no reply waits.
        ensures rests { OnOk result (IsAtRest (D.seen disk.new) self.new) }
        ensures status { IfErr result (IsStop (D.seen disk.old).tells) }
        ensures counted { Counted (sink_verdict (ended result)) (K.faults sink.old) (K.faults sink.new) }
    {
        take_piece(&mut self.talk, &mut self.reader, piece, disk, sink)
    }

    /// Ends the input, and answers a last line that no line end ended.
    pub fn finish<D: Disk, K: Sink>(&mut self, disk: &mut D, sink: &mut K) -> Status
        requires { IsOpen (D.seen disk.old) self.old.store }
        ensures ends { Step (disk_verdict result) (D.seen disk.old) (D.seen disk.new)
            (EndsInputRun self.old (K.held sink.old) (K.held sink.new) result) }
        ensures status { (result ≡ Status.Done) ⊎ IsStop (D.seen disk.old).tells result }
        ensures counted { Counted (sink_verdict result) (K.faults sink.old) (K.faults sink.new) }
    {
        finish_lines(&mut self.talk, &mut self.reader, disk, sink)
    }
}
