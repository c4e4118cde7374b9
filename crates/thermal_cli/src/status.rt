// The statuses of a run.
ghost use Rattle.std.specs.Prelude.{◌≡◌};
ghost use Rattle.thermal_cli.specs.Statuses.{code_of};

/// How a run ended.
#[derive(Clone, Copy, Debug, PartialEq, Eq)]
pub enum Status {
    /// The text was written whole.
    Fine,
    /// The input was refused.
    Refused,
    /// The words have no reading.
    Usage,
    /// Memory ran out.
    NoMemory,
    /// The source failed.
    SourceFault,
    /// The sink failed, and a front of the text was written.
    SinkFault,
    /// The text was written whole, and an interval is wider than the width that was asked for.
    WidthNotReached,
    /// The bundle has a fault.
    CertificateRefused,
}

impl Status {
    /// The exit code: 0 to 7, in the order of the variants.
    pub fn code(self) -> u8
        ensures { result ≡ code_of self }
    {
        match self {
            Status::Fine => 0,
            Status::Refused => 1,
            Status::Usage => 2,
            Status::NoMemory => 3,
            Status::SourceFault => 4,
            Status::SinkFault => 5,
            Status::WidthNotReached => 6,
            Status::CertificateRefused => 7,
        }
    }
}
