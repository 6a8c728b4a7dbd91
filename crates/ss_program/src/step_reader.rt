// Cuts an input into its steps: lines, or pieces of 64 bytes, by its form.
ghost use Rattle.std.specs.Prelude.{◌≡◌, Some, None, if◌then◌else◌};

use ss_arguments::Form;
use ss_command::{Ended, LineReader};
use ss_frames::PieceReader;
use std::marker::Model;

// What cuts an input.
#[derive(Drop)]
enum Cut {
    Lines(LineReader),
    Pieces(PieceReader),
}

/// Cuts an input of a form into its steps, in whatever pieces it comes. It keeps one step at a time.
#[derive(Drop)]
pub struct StepReader {
    form: Form,
    cut: Cut,
}

impl Model for StepReader {
    ghost use Rattle.std.specs.Prelude.{◌≡◌};
    ghost use Rattle.ss_program.specs.Reading.{StepState, cuts_by, step_state};
    ghost use Rattle.ss_program.specs.Steps.{is_in_pieces};

    ghost Value = { StepState };

    ghost view = { λ r. step_state r.form r.cut };

    ghost invariant = { λ r. cuts_by r.cut ≡ is_in_pieces r.form };
}

impl StepReader {
    ghost use Rattle.std.specs.Prelude.{◌≡◌, ◌++◌, ◌<◌, ◌≤◌, ◌↔◌, ℕ, List, [], length, take, true, is_some, Some, IsSome, IfSome};
    ghost use Rattle.ss_command.specs.declared.TheConstants.{LONGEST_LINE};
    ghost use Rattle.ss_program.specs.Reading.{HasReadSteps, TellsStep, step_under_way};
    ghost use Rattle.ss_program.specs.Steps.{steps, steps_so_far};

    /// A reader at the front of an input.
    pub fn new(form: Form) -> StepReader
        ensures form { result.form ≡ form }
        ensures taken { HasReadSteps [] result }
    {
        let cut = match form {
            Form::Lines { .. } | Form::Sessions { .. } | Form::Frames => {
                Cut::Lines(LineReader::new())
            }
            Form::Follow => Cut::Pieces(PieceReader::new()),
        };
        StepReader { form, cut }
    }

    /// The form of the input.
    pub fn form(&self) -> Form
        ensures { result ≡ self.now.form }
    {
        self.form
    }

    /// Takes bytes of the piece up to the end of the step that is under way, and answers how many, and how the step ended, if it did.
    pub fn feed(&mut self, piece: &[u8]) -> (usize, Option<Ended>)
        requires some { 0 < length piece.now }
        ensures form { self.new.form ≡ self.old.form }
        ensures count { (0 < result.0) × (result.0 ≤ length piece.now) }
        ensures state { self.new.ended ≡ is_some result.1 }
        ensures whole { IfSome result.1 (λ ended. ended ≡ Ended.Whole ↔ IsSome self.new.step) }
        ensures short { IfSome result.1 (λ _. IfSome self.new.step (λ bytes. length bytes ≤ LONGEST_LINE)) }
        // Whatever the pieces were, the steps are those of the input.
        ensures taken { (input : List ℕ) → HasReadSteps input self.old → HasReadSteps (input ++ take result.0 piece.now) self.new }
        ensures steps { (input : List ℕ) → HasReadSteps input self.old →
            TellsStep (steps_so_far self.old.form input) (steps_so_far self.old.form (input ++ take result.0 piece.now)) result.1 self.new }
    {
        match &mut self.cut {
            Cut::Lines(lines) => lines.feed(piece),
            Cut::Pieces(pieces) => {
                let (count, ended) = pieces.feed(piece);
                (count, ended_piece(ended))
            }
        }
    }

    /// Ends the last step of the input, where bytes of one were fed.
    pub fn finish(&mut self) -> Option<Ended>
        ensures form { self.new.form ≡ self.old.form }
        ensures state { self.new.ended ≡ is_some result }
        ensures whole { IfSome result (λ ended. ended ≡ Ended.Whole ↔ IsSome self.new.step) }
        ensures short { IfSome result (λ _. IfSome self.new.step (λ bytes. length bytes ≤ LONGEST_LINE)) }
        ensures steps { (input : List ℕ) → HasReadSteps input self.old →
            TellsStep (steps_so_far self.old.form input) (steps self.old.form input) result self.new }
    {
        match &mut self.cut {
            Cut::Lines(lines) => lines.finish(),
            Cut::Pieces(pieces) => {
                let ended = pieces.finish();
                ended_piece(ended)
            }
        }
    }

    /// The step that has ended: a line without its line end and a carriage return before it, or the bytes of a piece.
    pub fn step(&self) -> &[u8]
        requires ended { self.now.ended ≡ true }
        requires whole { IsSome self.now.step }
        ensures { self.now.step ≡ Some result.now }
    {
        match &self.cut {
            Cut::Lines(lines) => lines.line(),
            Cut::Pieces(pieces) => pieces.bytes(),
        }
    }
}

// How a piece ended, where it did: it is kept whole.
fn ended_piece(ended: bool) -> Option<Ended>
    ensures { result ≡ (if ended then Some Ended.Whole else None) }
{
    if ended { Some(Ended::Whole) } else { None }
}
