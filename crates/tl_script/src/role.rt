//! What a file that a command names is read as.

ghost use Rattle.std.specs.Prelude.{◌≤◌, ◌^◌};

/// What the words of the command line name.
#[derive(Clone, Copy, Debug, PartialEq, Eq)]
pub enum Role {
    Topology,
    Fragment,
    Script,
}

impl Role {
    /// The most bytes that its file has.
    pub fn most(self) -> u64
        ensures { result ≤ 2 ^ 32 }
    {
        match self {
            Role::Topology => 1_048_576,
            Role::Fragment => 8_388_608,
            Role::Script => 67_108_864,
        }
    }
}
