// What holds of the outcomes of all commands.
ghost use Rattle.mdoc_program.specs.Agreeing.{Agreeing};
ghost use Rattle.mdoc_program.specs.Exactly.{CabinetExactly, DoneOnlyOpened, DonePrintsAll};
ghost use Rattle.mdoc_program.specs.Exactly.{FormExactly, LimitExactly, MissingExactly};

/// The law that stores which agree up to the places of the released items print the same lines.
#[tactic(auto, using(crate::proofs::AgreeingLemmas::agreeing))]
pub fn agreeing_stores()
    ensures { Agreeing }
{}

/// The law that a file is missing exactly where it is the first that isn't opened and there is none.
#[tactic(auto, using(crate::proofs::ExactlyLemmas::missing_exactly))]
pub fn missing_exactly()
    ensures { MissingExactly }
{}

/// The laws that a file is told to be outside its form, or to exceed a limit, exactly where it is the first that isn't
/// opened and this is its first fault.
#[tactic(auto, using(crate::proofs::ExactlyLemmas::form_exactly))]
pub fn refused_exactly()
    ensures form { FormExactly }
    ensures limit { LimitExactly }
{}

/// The law that the cabinet is told to have failed at a read exactly where it did, once all files before were opened.
#[tactic(auto, using(crate::proofs::ExactlyLemmas::cabinet_exactly))]
pub fn failed_read_exactly()
    ensures { CabinetExactly }
{}

/// The laws that the work is done only where all files were opened, and that each line is then printed.
#[tactic(auto, using(crate::proofs::ExactlyLemmas::done_only_opened, crate::proofs::ExactlyLemmas::done_prints_all))]
pub fn done_exactly()
    ensures opened { DoneOnlyOpened }
    ensures printed { DonePrintsAll }
{}
