// How a run ended.
ghost use Rattle.std.specs.Prelude.{◌≡◌, Some};
ghost use Rattle.mdoc_frame.specs.Status.{status_code, status_text};
ghost use Rattle.mdoc_frame.specs.declared.status.Status.TheVariants.{Memory};

use crate::{FormCheck, Role};
use mdoc_outside as outside;
use mdoc_outside::LimitName;
use std::alloc::{AllocError, AllocFailed};
use std::fmt;

/// How a run of the program ended.
#[derive(Clone, Copy, Debug, PartialEq, Eq)]
pub enum Status {
    /// All is done.
    Done,
    /// The words of the command line aren't in the form of a command.
    Usage,
    /// There is no file of the name that the words give for this role.
    Missing(Role),
    /// The cabinet of files failed.
    Cabinet,
    /// The file of this role is outside its form, by this check, at this place.
    Form(Role, FormCheck, u64),
    /// The sink of what is printed failed.
    Sink,
    /// A key device failed.
    Device,
    /// The dice failed.
    Dice,
    /// A document is refused.
    Verdict,
    /// A limit that is exceeded, with the number that exceeds it.
    Limit(LimitName, u64),
    /// Want of memory.
    Memory,
}

impl Status {
    /// The exit status of the program.
    pub fn code(&self) -> u8
        ensures { result ≡ status_code self.now }
    {
        match self {
            Status::Done => 0,
            Status::Usage => 2,
            Status::Missing(_) => 3,
            Status::Cabinet => 4,
            Status::Form(..) => 5,
            Status::Sink => 6,
            Status::Device => 8,
            Status::Dice => 9,
            Status::Verdict => 11,
            Status::Limit(..) => 12,
            Status::Memory => 13,
        }
    }
}

impl fmt::Display for Status {
    ghost output = { λ status. Some (status_text status) };

    fn fmt<W: fmt::Write>(&self, f: &mut fmt::Formatter<W>) -> fmt::Result {
        match self {
            Status::Done => write!(f, "Done"),
            Status::Usage => write!(f, "Usage"),
            Status::Missing(role) => write!(f, "Missing {role}"),
            Status::Cabinet => write!(f, "Cabinet"),
            Status::Form(role, check, at) => write!(f, "Form {role} {check} {at}"),
            Status::Sink => write!(f, "Sink"),
            Status::Device => write!(f, "Device"),
            Status::Dice => write!(f, "Dice"),
            Status::Verdict => write!(f, "Verdict"),
            Status::Limit(name, number) => write!(f, "Limit {} {number}", name.text()),
            Status::Memory => write!(f, "Memory"),
        }
    }
}

impl From<outside::Memory> for Status {
    ghost from_gives = { λ _ e. e ≡ Memory };

    fn from(_: outside::Memory) -> Self {
        Status::Memory
    }
}

impl From<AllocError> for Status {
    ghost from_gives = { λ _ e. e ≡ Memory };

    fn from(_: AllocError) -> Self {
        Status::Memory
    }
}

impl<T: Drop> From<AllocFailed<T>> for Status {
    ghost from_gives = { λ _ e. e ≡ Memory };

    fn from(_: AllocFailed<T>) -> Self {
        Status::Memory
    }
}
