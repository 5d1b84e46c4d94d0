//! The start of a session.

ghost use Rattle.std.specs.Prelude.{◌≡◌, [], IfOk};
ghost use Rattle.cbor_view.specs.Shortest.{null_bytes};
ghost use Rattle.mdoc_outside.specs.Dealt.{dealt, inner as dice_of};
ghost use Rattle.mdoc_outside.specs.Faults.{HasCause};
ghost use Rattle.mdoc_outside.specs.GaveWords.{GaveWords};
ghost use Rattle.mdoc_outside.specs.declared.dice_fault.DiceFault.TheVariants as dices;
ghost use Rattle.key_device.specs.Ends.{came_to, dice_end};
ghost use Rattle.key_device.specs.Gave.{Gave};
ghost use Rattle.key_device.specs.Plan.{Follows, FollowsAll};
ghost use Rattle.key_device.specs.Recording.{inner, talk};
ghost use Rattle.key_device.specs.declared.device_fault.DeviceFault.TheVariants as devices;
ghost use Rattle.wallet_model.specs.Wallet.{announced, started, uuid};
ghost use Rattle.wallet_core.specs.Ends.{Cause, start_end};
ghost use Rattle.wallet_core.specs.Starting.{asked_for_key, drawn_id};

use crate::start_fault::StartFault;
use crate::started::Started;
use cbor_write::Build;
use engagement::write_engagement;
use key_device::{DeviceFault, KeyDevice, Made, Recorder};
use mdoc_outside::{Dealt, Dice, DiceFault, Memory, Octets};
use session_seal::WalletEngaged;
use std::alloc::Global;

/// Two words as bytes, each with its highest byte first.
#[tactic(auto, unfolding(wallet_model::specs::Wallet::uuid))]
fn uuid_of(first: u64, second: u64) -> [u8; 16]
    ensures { result ≡ uuid first second }
{
    let [a, b, c, d, e, f, g, h] = first.to_be_bytes();
    let [i, j, k, l, m, n, o, p] = second.to_be_bytes();
    [a, b, c, d, e, f, g, h, i, j, k, l, m, n, o, p]
}

/// The UUID of the peripheral server (ISO/IEC 18013-5, 8.2.1.1), of two new words.
#[tactic(auto, using(key_device::proofs::AllPlanLemmas::all_exits, mdoc_outside::proofs::GaveWordsLemmas::words_exits), unfolding(crate::specs::Starting::drawn_id))]
fn draw_id<R: Dice>(dice: &mut Dealt<R>) -> Result<[u8; 16], DiceFault>
    ensures asked { FollowsAll drawn_id [] [] (dealt dice.old) [] [] (dealt dice.new) (dice_end (λ id. id) result) }
    ensures gave { GaveWords R.gives R.faults dice.old dice.new }
    ensures cause { HasCause dices.Failed dices.Memory (R.faults (dice_of dice.old)) (R.faults (dice_of dice.new)) result }
{
    let first = match dice.next() {
        Ok(word) => word,
        Err(DiceFault::Failed) => return Err(DiceFault::Failed),
        Err(DiceFault::Memory) => return Err(DiceFault::Memory),
    };
    match dice.next() {
        Ok(second) => Ok(uuid_of(first, second)),
        Err(DiceFault::Failed) => Err(DiceFault::Failed),
        Err(DiceFault::Memory) => Err(DiceFault::Memory),
    }
}

/// The handover of a QR code: null (ISO/IEC 18013-5, 9.1.5.1).
fn no_handover(alloc: Global) -> Result<Octets, Memory>
    ensures { IfOk result (λ b. b ≡ null_bytes) }
{
    let mut out = Build::new(alloc);
    out.null()?;
    Ok(out.finish())
}

/// The session of a key that was made, with its engagement.
#[tactic(auto, unfolding(wallet_model::specs::Wallet::announced))]
fn announce(alloc: Global, id: &[u8; 16], made: &Made) -> Result<Started, Memory>
    ensures state { IfOk result (λ s. s.state ≡ announced id.now made.now) }
    ensures engagement { IfOk result (λ s. s.engagement ≡ s.state.engagement) }
{
    let engagement = write_engagement(alloc, &made.public, Some(id))?;
    let own = Octets::copy_of(alloc, engagement.as_slice())?;
    let handover = no_handover(alloc)?;
    Ok(Started {
        engagement,
        state: WalletEngaged::new(own, handover, made.key),
    })
}

/// The session with that UUID: the device is asked for a fresh key.
#[tactic(auto, using(key_device::proofs::PlanLemmas::exits, key_device::proofs::PlanLemmas::halted, key_device::proofs::GaveLemmas::gave_exits), unfolding(crate::specs::Starting::asked_for_key))]
fn start_with<D: KeyDevice>(
    alloc: Global,
    id: &[u8; 16],
    device: &mut Recorder<D>,
) -> Result<Started, DeviceFault>
    ensures asked { Follows (asked_for_key id.now) (talk device.old) (talk device.new) (came_to devices.Failed (λ s. s.state) result) }
    ensures gave { Gave D.gives D.unasked D.faults device.old device.new }
    ensures cause { HasCause devices.Failed devices.Memory (D.faults (inner device.old)) (D.faults (inner device.new)) result }
    ensures engagement { IfOk result (λ s. s.engagement ≡ s.state.engagement) }
{
    match device.fresh() {
        Ok(made) => match announce(alloc, id, &made) {
            Ok(started) => Ok(started),
            Err(_) => Err(DeviceFault::Memory),
        },
        Err(DeviceFault::Failed) => Err(DeviceFault::Failed),
        Err(DeviceFault::Memory) => Err(DeviceFault::Memory),
    }
}

/// Starts a session that a QR code announces (ISO/IEC 18013-5, 8.2.2.3): two words are drawn as the UUID, and then the
/// device is asked for a fresh key. It refuses where the device or the dice fail, and for want of memory.
pub fn start<D: KeyDevice, R: Dice>(
    alloc: Global,
    dice: &mut Dealt<R>,
    device: &mut Recorder<D>,
) -> Result<Started, StartFault>
    ensures asked { FollowsAll started (talk device.old) [] (dealt dice.old) (talk device.new) [] (dealt dice.new) (start_end result) }
    ensures gave { Gave D.gives D.unasked D.faults device.old device.new }
    ensures words { GaveWords R.gives R.faults dice.old dice.new }
    ensures cause { Cause (D.faults (inner device.old)) (D.faults (inner device.new)) (R.faults (dice_of dice.old)) (R.faults (dice_of dice.new)) result }
    ensures engagement { IfOk result (λ s. s.engagement ≡ s.state.engagement) }
{
    let id = match draw_id(dice) {
        Ok(id) => id,
        Err(fault) => return Err(StartFault::from(fault)),
    };
    match start_with(alloc, &id, device) {
        Ok(started) => Ok(started),
        Err(fault) => Err(StartFault::from(fault)),
    }
}
