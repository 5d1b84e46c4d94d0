//! Issuing by a spec.

ghost use Rattle.std.specs.Prelude.{◌≡◌, ◌≤◌, length, IfOk};
ghost use Rattle.issue_spec.specs.Spec.{fields};
ghost use Rattle.mdoc_outside.specs.Dealt.{dealt, inner as dice_of};
ghost use Rattle.mdoc_outside.specs.GaveWords.{GaveWords};
ghost use Rattle.key_device.specs.Gave.{Gave};
ghost use Rattle.key_device.specs.Plan.{FollowsAll};
ghost use Rattle.key_device.specs.Recording.{inner, talk};
ghost use Rattle.issuing.specs.Ends.{Cause, end_at};
ghost use Rattle.issuing.specs.Package.{issued_package, within_limit};
ghost use Rattle.store_write.specs.Written.{package_head};

use crate::copies::issue_copies;
use crate::issue_fault::IssueFault;
use crate::issued::Issued;
use crate::objects::document_type;
use crate::package_room::package_room;
use crate::signer::Signer;
use crate::signers::signer_of;
use cbor_write::Build;
use issue_spec::Spec;
use key_device::{KeyDevice, Recorder};
use mdoc_outside::{Dealt, Dice, LimitName, MOST_FILE_BYTES, Memory, Octets};
use std::alloc::Global;
use store_write::put_package_head;

/// The package of a spec up to its copies, with room for these.
fn begin(alloc: Global, spec: &Spec, signer: &Signer) -> Result<Build, Memory>
    ensures { IfOk result (λ b. b ≡ package_head (fields spec.now).doc_type (fields spec.now).uses_mac) }
{
    let mut build = Build::with_room(alloc, package_room(spec, signer))?;
    put_package_head(&mut build, document_type(spec), spec.uses_mac())?;
    Ok(build)
}

/// What was issued, where the package is within its limit.
#[tactic(auto, using(crate::proofs::LimitLemmas::above, crate::proofs::LimitLemmas::below))]
fn within_limit(root: Option<Octets>, bytes: Octets) -> Result<Issued, IssueFault>
    ensures { result ≡ within_limit root bytes }
{
    let length = bytes.as_slice().len();
    if length > MOST_FILE_BYTES {
        return Err(IssueFault::Limit(LimitName::PackageBytes, length as u64));
    }
    Ok(Issued {
        package: bytes,
        root,
    })
}

/// Issues the copies that a spec asks for (ISO/IEC 18013-5, 9.1.2). With a new signer, the issuer's device makes a root
/// key and a signer key and signs their certificates first. For each copy in order the holder's device makes a key,
/// four words are drawn for the salt of each element, and the issuer's device signs. It refuses where a device or the
/// dice fail, exactly where the package passes 16,777,216 bytes, and for want of memory.
pub fn issue<D: KeyDevice, E: KeyDevice, R: Dice>(
    alloc: Global,
    spec: &Spec,
    holder: &mut Recorder<D>,
    issuer: &mut Recorder<E>,
    dice: &mut Dealt<R>,
) -> Result<Issued, IssueFault>
    ensures asked { FollowsAll (issued_package (fields spec.now)) (talk holder.old) (talk issuer.old) (dealt dice.old)
        (talk holder.new) (talk issuer.new) (dealt dice.new) (end_at result) }
    ensures holder { Gave D.gives D.unasked D.faults holder.old holder.new }
    ensures issuer { Gave E.gives E.unasked E.faults issuer.old issuer.new }
    ensures words { GaveWords R.gives R.faults dice.old dice.new }
    ensures cause { Cause (D.faults (inner holder.old)) (D.faults (inner holder.new)) (E.faults (inner issuer.old)) (E.faults (inner issuer.new))
        (R.faults (dice_of dice.old)) (R.faults (dice_of dice.new)) result }
    ensures within { IfOk result (λ i. length i.package ≤ 16_777_216) }
{
    let signer = match signer_of(alloc, spec, issuer) {
        Ok(signer) => signer,
        Err(fault) => return Err(IssueFault::from(fault)),
    };
    let mut build = match begin(alloc, spec, &signer) {
        Ok(build) => build,
        Err(_) => return Err(IssueFault::Memory),
    };
    match issue_copies(alloc, &mut build, spec, &signer, holder, issuer, dice) {
        Ok(()) => {}
        Err(fault) => return Err(fault),
    }
    let Signer {
        key: _,
        certificate,
        root,
    } = signer;
    drop(certificate);
    within_limit(root, build.finish())
}
