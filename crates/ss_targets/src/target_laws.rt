// Laws over the definitions, each the contract of a function that does nothing.
ghost use Rattle.std.specs.Prelude.{IsTrue};
ghost use Rattle.ss_catalog.specs.declared.params.Params.{Params};
ghost use Rattle.ss_targets.specs.Windowing.{ArePositive, NeverFall};
ghost use Rattle.ss_targets.specs.Lengths.{has_target, lengths_of};

/// No window of a target is empty, and none is shorter than the one before it, which is the next newer one.
pub fn lengths_of_a_target_never_fall()
    ensures positive { (params : Params) → IsTrue (has_target params) → ArePositive (lengths_of params) }
    ensures rising { (params : Params) → IsTrue (has_target params) → NeverFall (lengths_of params) }
{}
