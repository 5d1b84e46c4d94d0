//! What comes over the link, and what a device is asked as a session starts, with what it tells. All that stands here
//! `tests/vectors/wallet_sessions` writes.

/// The line of a tape that a session starts with.
pub(crate) const FRESH: &str =
    "fresh -> 5 89babe4e5e270946e1160cfc3afe684bea2cd8fd30e54e83ed86586155ed66b5 39abc8c110ee553bb3a082152afe0b96790680467020b446a0b1469b3773e5a2\n";

/// A request for an element.
pub(crate) const WHOLE: &str =
    "00a26a655265616465724b6579d818584ba4010220012158203b5c100c9d8385bbd7aa53426a3b83e26e5db32344169909f061c9608294874b225820ae2d95100260407aadeaf1fa0cc5c08983331c8d70f7b27d4de3444846fbd8b664646174615859e73cb3d430a6ca6558be42154fa3aff0757b58282754cd9458e5fef6ae3ce86ceb09636942d0923c25da5f839a8c22b71f7edcfb730b66507074a8acff4252ba3e6b704720ac9e1d2e05cee7ba45362d30908118922ed43373";

/// The first half of it.
pub(crate) const FIRST_HALF: &str =
    "01a26a655265616465724b6579d818584ba4010220012158203b5c100c9d8385bbd7aa53426a3b83e26e5db32344169909f061c9608294874b225820ae2d95100260407aadeaf1fa0cc5c08983331c8d70f7b27d4de3444846fbd8b66464";

/// Its second half.
pub(crate) const SECOND_HALF: &str =
    "006174615859e73cb3d430a6ca6558be42154fa3aff0757b58282754cd9458e5fef6ae3ce86ceb09636942d0923c25da5f839a8c22b71f7edcfb730b66507074a8acff4252ba3e6b704720ac9e1d2e05cee7ba45362d30908118922ed43373";

/// The same request in the second round.
pub(crate) const NEXT: &str =
    "00a1646461746158597f93237eb96c920532668d103fdfabfe29b5b3bd5c246fdeb4f19cc549c95657604fd6bc25e4f5cbe57811500adc9bb57705a0aa3245de09c274b3d993d8fcdcc79bb52010d78bb5d44be5689293b2d68897ee8cd953d3f450";
