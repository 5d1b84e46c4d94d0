// The command `issue`: makes a package of a spec.
ghost use Rattle.std.specs.Prelude.{◌≡◌, true};
ghost use Rattle.key_device.specs.Gave.{Gave};
ghost use Rattle.mdoc_outside.specs.GaveWords.{GaveWords};
ghost use Rattle.mdoc_frame.specs.Asking.{sources};
ghost use Rattle.mdoc_issue.specs.Issue.{out_of, fault_status, issue_asks, issue_files, issue_outcome, issue_row};
ghost use Rattle.mdoc_frame.specs.Outcome.{named_files};
ghost use Rattle.mdoc_frame.specs.Pairs.{is_in_form};
ghost use Rattle.mdoc_frame.specs.Steps.{Does};
ghost use Rattle.mdoc_frame.specs.World.{world};

use crate::issue_lines::issue_lines;
use issue_spec::Spec;
use issuing::{IssueFault, issue as issue_package};
use key_device::{KeyDevice, Recorder};
use mdoc_frame::{Status, print_lines, read_file, value_of};
use mdoc_outside::{Cabinet, CabinetFault, Dealt, Dice, Sink, Word};
use std::alloc::Global;

// The names of the spec and of the package.
#[derive(Clone, Copy)]
struct IssueNames<'a> {
    spec: &'a str,
    out: &'a str,
}

// The names that the words give.
#[tactic(auto, using(crate::proofs::RowLemmas::issue_names))]
fn names_of<'a>(words: &'a [Word]) -> IssueNames<'a>
    requires { is_in_form issue_row words.now ≡ true }
    ensures files { named_files issue_row words.now ≡ issue_files result.spec.now }
    ensures out { out_of words.now ≡ result.out.now }
{
    let Some(spec) = value_of("--spec", words) else {
        unreachable!();
    };
    let Some(out) = value_of("--out", words) else {
        unreachable!();
    };
    IssueNames { spec, out }
}

// The status where nothing was issued.
fn status_of(fault: IssueFault) -> Status
    ensures { result ≡ fault_status fault }
{
    match fault {
        IssueFault::Device => Status::Device,
        IssueFault::Dice => Status::Dice,
        IssueFault::Limit(limit, number) => Status::Limit(limit, number),
        IssueFault::Memory => Status::Memory,
    }
}

// Opens the spec, issues, writes the package, and prints the lines.
fn issue_named<C: Cabinet, D: KeyDevice, E: KeyDevice, R: Dice, O: Sink>(
    alloc: Global,
    names: IssueNames<'_>,
    cabinet: &mut C,
    holder: &mut Recorder<D>,
    issuer: &mut Recorder<E>,
    dice: &mut Dealt<R>,
    out: &mut O,
) -> Status
    ensures does { Does (issue_files names.entry.spec.now) (issue_outcome names.entry.out.now) issue_asks
        (sources D.faults E.faults R.faults holder.old issuer.old dice.old) (sources D.faults E.faults R.faults holder.new issuer.new dice.new)
        (world (C.state cabinet.old) (O.state out.old)) (world (C.state cabinet.new) (O.state out.new)) result }
    ensures wallet { Gave D.gives D.unasked D.faults holder.old holder.new }
    ensures reader { Gave E.gives E.unasked E.faults issuer.old issuer.new }
    ensures words { GaveWords R.gives R.faults dice.old dice.new }
{
    let spec: Spec = match read_file(alloc, names.spec, cabinet) {
        Ok(spec) => spec,
        Err(status) => return status,
    };
    let issued = match issue_package(alloc, &spec, holder, issuer, dice) {
        Ok(issued) => issued,
        Err(fault) => return status_of(fault),
    };
    let Ok(lines) = issue_lines(alloc, &spec, &issued) else {
        return Status::Memory;
    };
    match cabinet.write(names.out, issued.package.as_slice()) {
        Ok(()) => {}
        Err(CabinetFault::Failed) => return Status::Cabinet,
        Err(CabinetFault::Memory) => return Status::Memory,
    }
    print_lines(&lines, Status::Done, out)
}

/// Does what `issue` does with words in its form: the wallet's device is the holder's, and the reader's is the issuer's.
pub fn issue<C: Cabinet, D: KeyDevice, E: KeyDevice, R: Dice, O: Sink>(
    alloc: Global,
    words: &[Word],
    cabinet: &mut C,
    holder: &mut Recorder<D>,
    issuer: &mut Recorder<E>,
    dice: &mut Dealt<R>,
    out: &mut O,
) -> Status
    requires { is_in_form issue_row words.now ≡ true }
    ensures does { Does (named_files issue_row words.now) (issue_outcome (out_of words.now)) issue_asks
        (sources D.faults E.faults R.faults holder.old issuer.old dice.old) (sources D.faults E.faults R.faults holder.new issuer.new dice.new)
        (world (C.state cabinet.old) (O.state out.old)) (world (C.state cabinet.new) (O.state out.new)) result }
    ensures wallet { Gave D.gives D.unasked D.faults holder.old holder.new }
    ensures reader { Gave E.gives E.unasked E.faults issuer.old issuer.new }
    ensures words { GaveWords R.gives R.faults dice.old dice.new }
{
    issue_named(alloc, names_of(words), cabinet, holder, issuer, dice, out)
}
