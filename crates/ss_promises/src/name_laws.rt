// Laws of names whose stream was dropped, and of those that are created, each the contract of a function that does nothing.
ghost use Rattle.std.specs.Prelude.{◌≡◌, ◌++◌, [], ◌∷◌, ℕ, Bool, false, List, All, Option, Some, Ok};
ghost use Rattle.ss_arguments.specs.declared.mode.Form.TheVariants.{Sessions};
ghost use Rattle.ss_catalog.specs.declared.event.Event.TheVariants.{Create, Drop};
ghost use Rattle.ss_catalog.specs.declared.params.Params.{Params};
ghost use Rattle.ss_catalog.specs.declared.refusal.Refusal.TheVariants.{Unknown};
ghost use Rattle.ss_command.specs.Grammar.{meaning};
ghost use Rattle.ss_command.specs.declared.command.Command.{Command};
ghost use Rattle.ss_command.specs.declared.command.Command.TheVariants.{Do};
ghost use Rattle.ss_model.specs.History.{Happened, creates, landmarks_of, values_of};
ghost use Rattle.ss_report.specs.declared.reply.Reply.TheVariants.{Refused};
ghost use Rattle.ss_sessions.specs.declared.order.Order.TheVariants as orders;
ghost use Rattle.ss_summary.specs.Points.{Origin};
ghost use Rattle.ss_promises.specs.Asked.{IsAsked, IsOrder};
ghost use Rattle.ss_program.specs.Line.{History, refused};
ghost use Rattle.ss_promises.specs.Needed.{needed};
ghost use Rattle.ss_program.specs.Report.{NoneCreates, accepted, after_line, after_lines, plain_after, replies};
ghost use Rattle.ss_program.specs.Talk.{Talk, begun, turn_brought, turn_of};

/// A name that was dropped is unknown until it is created: each command that needs a stream of the name is refused UNKNOWN, before any
/// other reason that a store may have, and adds no event. A line that says no command is refused for what is wrong in it, as ever.
pub fn dropped_names_are_unknown()
    // Plain lines: after one that drops the stream, until one asks for its create.
    ensures plain { (history : History) (ls before between after : List (List ℕ)) (dropping line name : List ℕ) (command : Command) →
        ls ≡ (before ++ dropping ∷ between) ++ line ∷ after → meaning dropping ≡ Ok (Some (Do (Drop name))) →
        NoneCreates name between → meaning line ≡ Ok (Some command) → needed command ≡ Some name →
        let at = plain_after history (before ++ dropping ∷ between) in
        (replies history ls ≡ replies history (before ++ dropping ∷ between) ++ Refused Unknown ∷ replies at after)
        × (plain_after at (line ∷ []) ≡ at) }
    // Lines of either form: after one that dropped the stream, until an event is accepted that creates it.
    ensures asked { (talk : Talk) (before between : List (List ℕ)) (dropping line name : List ℕ) (speaker : Option ℕ) (command : Command) →
        let dropped = after_lines talk (before ++ dropping ∷ []) in
        let at = after_lines dropped between in
        (turn_of (after_lines talk before) dropping).event ≡ Some (Drop name) →
        All (λ (e : Happened). creates name e.0 ≡ false) (accepted dropped between) →
        IsAsked talk.form speaker command line → needed command ≡ Some name →
        (turn_of at line ≡ turn_brought speaker at (refused Unknown)) × ((after_line at line).history ≡ at.history) }
    // A cursor over it is refused so too, also to a session that has one open.
    ensures cursors { (framed : Bool) (history : History) (before between : List (List ℕ)) (dropping opening name : List ℕ) (session : ℕ) →
        let dropped = after_lines (begun (Sessions framed) history) (before ++ dropping ∷ []) in
        let at = after_lines dropped between in
        (turn_of (after_lines (begun (Sessions framed) history) before) dropping).event ≡ Some (Drop name) →
        All (λ (e : Happened). creates name e.0 ≡ false) (accepted dropped between) →
        IsOrder session (orders.Open name) opening →
        (turn_of at opening ≡ turn_brought (Some session) at (refused Unknown)) × ((after_line at opening).history ≡ at.history) }
{}

/// A stream that is created begins anew: its values and its landmarks are those of the events since, whatever was before.
pub fn created_streams_begin_anew()
    ensures values { (before rest : History) (name : List ℕ) (params : Params) (origin : Origin) →
        values_of (before ++ (Create name params, origin) ∷ rest) name ≡ values_of rest name }
    ensures landmarks { (before rest : History) (name : List ℕ) (params : Params) (origin : Origin) →
        landmarks_of (before ++ (Create name params, origin) ∷ rest) name ≡ landmarks_of rest name }
{}
