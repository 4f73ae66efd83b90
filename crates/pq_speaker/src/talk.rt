ghost use Rattle.std.specs.Prelude.{◌≡◌};
ghost use Rattle.pq_speaker.specs.Rules.{has_failed, is_asking, is_before_installed, is_greeting, is_installing};

/// How far a control session is.
#[derive(Clone, Copy, Debug, PartialEq, Eq)]
pub enum Talk {
    /// The switch hasn't said HELLO yet.
    Greeting,
    /// The switch was asked which one it is.
    Asking,
    /// The messages were sent.
    Installing,
    /// The switch has carried the messages out.
    Installed,
    /// The session is over.
    Failed(Reason),
}

/// Why a control session failed.
#[derive(Clone, Copy, Debug, PartialEq, Eq)]
pub enum Reason {
    /// The switch speaks another version of OpenFlow.
    BadVersion { version: u8 },
    /// A header states a length that no message of its type has.
    BadLength { length: u16 },
    /// The switch has another datapath number.
    OtherSwitch { datapath: u64 },
    /// The switch sent an ERROR before all was installed; `kind` is its type.
    SwitchError { kind: u16, code: u16 },
}

impl Talk {
    pub(crate) fn is_greeting(self) -> bool
        ensures { result ≡ is_greeting self }
    {
        matches!(self, Talk::Greeting)
    }

    pub(crate) fn is_asking(self) -> bool
        ensures { result ≡ is_asking self }
    {
        matches!(self, Talk::Asking)
    }

    pub(crate) fn is_installing(self) -> bool
        ensures { result ≡ is_installing self }
    {
        matches!(self, Talk::Installing)
    }

    pub(crate) fn is_before_installed(self) -> bool
        ensures { result ≡ is_before_installed self }
    {
        matches!(self, Talk::Greeting | Talk::Asking | Talk::Installing)
    }

    pub(crate) fn has_failed(self) -> bool
        ensures { result ≡ has_failed self }
    {
        matches!(self, Talk::Failed(_))
    }
}
