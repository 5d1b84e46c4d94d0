// Laws of what devices gave.
ghost use Rattle.key_device.specs.Gave.{CountsFailed};
ghost use Rattle.key_device.specs.GaveForms.{IsOverWhatWasLeft, BeginsOverWhatWasLeft, IsOverAllThatWasLeft, IsUndealtOverAllThatWasLeft, ReplayCountsEach, ToyTellsEach, ToyCountsEach};

use crate::KeyDevice;

/// The count of a device's faults rose exactly where an exchange gained was told that it failed.
pub fn failures_told_are_counted<D: KeyDevice>()
    ensures { CountsFailed D.gives D.unasked D.faults }
{}

/// A plan that was followed over replaying devices is the plan over what was left of their tapes,
/// and what is left then is the rest; where a word was drawn of a list, the same holds of its words.
pub fn followed_plan_over_what_was_left<A>()
    ensures same { IsOverWhatWasLeft A }
    ensures begins { BeginsOverWhatWasLeft A }
    ensures all { IsOverAllThatWasLeft A }
    ensures undealt { IsUndealtOverAllThatWasLeft A }
{}

/// The replaying device and the toy count each failure once, up to the last value of a count, and
/// each exchange of the toy was told by a toy of its seed and owner.
pub fn own_devices_give_as_they_say()
    ensures replay_counts { ReplayCountsEach }
    ensures toy_tells { ToyTellsEach }
    ensures toy_counts { ToyCountsEach }
{}
