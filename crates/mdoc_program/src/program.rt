// The top call: everything that the program does.
ghost use Rattle.std.specs.Prelude.{◌≡◌, ◌↔◌, true, IfSome, IsNone};
ghost use Rattle.key_device.specs.Gave.{Gave};
ghost use Rattle.mdoc_outside.specs.GaveWords.{GaveWords};
ghost use Rattle.mdoc_program.specs.Agreeing.{Agreeing};
ghost use Rattle.mdoc_frame.specs.Asking.{sources};
ghost use Rattle.mdoc_program.specs.Commands.{asks_of, work_of};
ghost use Rattle.mdoc_frame.specs.Pairs.{is_in_form};
ghost use Rattle.mdoc_program.specs.Order.{order, row, files_named};
ghost use Rattle.mdoc_program.specs.Orders.{order_seen};
ghost use Rattle.mdoc_program.specs.Runs.{Runs};
ghost use Rattle.mdoc_frame.specs.Steps.{Does};
ghost use Rattle.mdoc_frame.specs.World.{world};

use crate::order::{Order, order_of};
use crate::{Command, Status};
use key_device::{KeyDevice, Recorder};
use mdoc_draft::draft;
use mdoc_import::import;
use mdoc_issue::issue;
use mdoc_outside::{Cabinet, Dealt, Dice, Sink, Word};
use std::alloc::Global;

// Does what the command of an order does.
fn dispatch<C: Cabinet, D: KeyDevice, E: KeyDevice, R: Dice, O: Sink>(
    alloc: Global,
    order: Order<'_>,
    moment: i64,
    cabinet: &mut C,
    wallet_device: &mut Recorder<D>,
    reader_device: &mut Recorder<E>,
    dice: &mut Dealt<R>,
    out: &mut O,
) -> Status
    requires { is_in_form (row order.command) order.words.now ≡ true }
    ensures does { Does (files_named (order_seen order.entry)) (work_of order.entry.command order.entry.words.now moment) (asks_of order.entry.command order.entry.words.now moment)
        (sources D.faults E.faults R.faults wallet_device.old reader_device.old dice.old) (sources D.faults E.faults R.faults wallet_device.new reader_device.new dice.new)
        (world (C.state cabinet.old) (O.state out.old)) (world (C.state cabinet.new) (O.state out.new)) result }
    ensures wallet { Gave D.gives D.unasked D.faults wallet_device.old wallet_device.new }
    ensures reader { Gave E.gives E.unasked E.faults reader_device.old reader_device.new }
    ensures words { GaveWords R.gives R.faults dice.old dice.new }
{
    match order.command {
        Command::Draft => draft(alloc, order.words, cabinet, out),
        Command::Issue => issue(
            alloc,
            order.words,
            cabinet,
            wallet_device,
            reader_device,
            dice,
            out,
        ),
        Command::Import => import(alloc, order.words, moment, cabinet, reader_device, out),
    }
}

/// Runs the command that the words give, over the files of the cabinet, and prints to the sink. The devices are those
/// of a wallet and of a reader. The moment, in seconds since 1970, is for commands that ask for one and aren't given
/// another one by the words.
#[tactic(auto, using(crate::proofs::AgreeingLemmas::agreeing))]
pub fn run<C: Cabinet, D: KeyDevice, E: KeyDevice, R: Dice, O: Sink>(
    alloc: Global,
    words: &[Word],
    moment: i64,
    cabinet: &mut C,
    wallet_device: &mut Recorder<D>,
    reader_device: &mut Recorder<E>,
    dice: &mut Dealt<R>,
    out: &mut O,
) -> Status
    // Usage exactly where the words aren't in the form of a command, and then nothing is done.
    ensures usage { (result ≡ Status.Usage) ↔ IsNone (order words.now) }
    ensures untouched { IsNone (order words.now) →
        world (C.state cabinet.new) (O.state out.new) ≡ world (C.state cabinet.old) (O.state out.old) }
    ensures unasked { IsNone (order words.now) →
        sources D.faults E.faults R.faults wallet_device.new reader_device.new dice.new ≡ sources D.faults E.faults R.faults wallet_device.old reader_device.old dice.old }
    // Else there are answers of the outside by which status, lines and files are the command's outcome.
    ensures runs { IfSome (order words.now) (λ order.
        Runs order moment (world (C.state cabinet.old) (O.state out.old)) (world (C.state cabinet.new) (O.state out.new))
        (sources D.faults E.faults R.faults wallet_device.old reader_device.old dice.old) (sources D.faults E.faults R.faults wallet_device.new reader_device.new dice.new) result) }
    // The devices told and the dice dealt what they give.
    ensures wallet { Gave D.gives D.unasked D.faults wallet_device.old wallet_device.new }
    ensures reader { Gave E.gives E.unasked E.faults reader_device.old reader_device.new }
    ensures words { GaveWords R.gives R.faults dice.old dice.new }
    // The lines of that outcome are those of each store that agrees with the one that was read, up to the released items.
    ensures agreeing { Agreeing }
{
    let Some(order) = order_of(words) else {
        return Status::Usage;
    };
    dispatch(
        alloc,
        order,
        moment,
        cabinet,
        wallet_device,
        reader_device,
        dice,
        out,
    )
}
