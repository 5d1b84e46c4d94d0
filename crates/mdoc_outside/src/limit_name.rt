// The names of limits.
ghost use Rattle.std.specs.Prelude.{◌≡◌};

/// The name of a limit that a file, a store or a session may pass.
#[derive(Clone, Copy, Debug, PartialEq, Eq)]
pub enum LimitName {
    FileBytes,
    PackageBytes,
    Documents,
    Namespaces,
    Items,
    Copies,
    Value,
    Name,
    Roots,
    Requests,
    Wishes,
    ScheduleLines,
    Fragments,
}

impl LimitName {
    ghost use Rattle.mdoc_outside.specs.LimitName.{limit_text};

    /// The name as it is printed.
    pub fn text(&self) -> &'static str
        ensures { result.now ≡ limit_text self.now }
    {
        match self {
            LimitName::FileBytes => "FileBytes",
            LimitName::PackageBytes => "PackageBytes",
            LimitName::Documents => "Documents",
            LimitName::Namespaces => "Namespaces",
            LimitName::Items => "Items",
            LimitName::Copies => "Copies",
            LimitName::Value => "Value",
            LimitName::Name => "Name",
            LimitName::Roots => "Roots",
            LimitName::Requests => "Requests",
            LimitName::Wishes => "Wishes",
            LimitName::ScheduleLines => "ScheduleLines",
            LimitName::Fragments => "Fragments",
        }
    }
}
