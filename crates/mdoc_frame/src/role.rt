// What a file is for.
ghost use Rattle.std.specs.Prelude.{◌≡◌, Some};
ghost use Rattle.mdoc_frame.specs.Status.{role_text};

use std::fmt;

/// What a file that the words of a command name is for.
#[derive(Clone, Copy, Debug, PartialEq, Eq)]
pub enum Role {
    /// The holder's store.
    Store,
    /// The wishes of a reader.
    Wishes,
    /// The holder's rules.
    Rules,
    /// What an issuer is to issue.
    Spec,
    /// What an issuer has issued.
    Package,
    /// The roots that a reader trusts.
    Roots,
    /// The roots of readers that a wallet trusts.
    Readers,
    /// The requests of a reader.
    Reader,
    /// A device engagement.
    Engagement,
    /// A handover request.
    Request,
    /// The record of a wallet's key device.
    WalletTape,
    /// The record of a reader's key device.
    ReaderTape,
    /// Random words.
    Dice,
    /// The order in which fragments are delivered.
    Schedule,
}

impl Role {
    // The name that is printed.
    fn text(&self) -> &'static str
        ensures { result.now ≡ role_text self.now }
    {
        match self {
            Role::Store => "Store",
            Role::Wishes => "Wishes",
            Role::Rules => "Rules",
            Role::Spec => "Spec",
            Role::Package => "Package",
            Role::Roots => "Roots",
            Role::Readers => "Readers",
            Role::Reader => "Reader",
            Role::Engagement => "Engagement",
            Role::Request => "Request",
            Role::WalletTape => "WalletTape",
            Role::ReaderTape => "ReaderTape",
            Role::Dice => "Dice",
            Role::Schedule => "Schedule",
        }
    }
}

impl fmt::Display for Role {
    ghost output = { λ role. Some (role_text role) };

    fn fmt<W: fmt::Write>(&self, f: &mut fmt::Formatter<W>) -> fmt::Result {
        f.write_str(self.text())
    }
}
