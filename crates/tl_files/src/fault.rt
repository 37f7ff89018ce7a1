//! The faults that end the program.

ghost use Rattle.std.specs.Prelude.{◌≡◌, ◌<◌, ◌^◌, OnOk};

use std::alloc::{AllocError, AllocFailed, Global};
use std::fmt;
use tl_beats::FragmentFault;
use tl_check::OnceFault;
use tl_script::AuditFault;
use tl_stream::TellFault;
use tl_text::{ByteOut, TextFault, WriteFault, write_all};
use tl_topology::TopoFault;

/// A fault outside a report and a script's output, told in one line on standard error: `tlcheck: CODE` or `tlcheck: CODE NUMBER`.
#[derive(Clone, Copy, Debug, PartialEq, Eq)]
pub struct Fault {
    /// The number of the refusal, 1 to 45.
    pub code: u8,
    /// The line, or what else the refusal names.
    pub number: Option<u64>,
}

impl Fault {
    /// Memory is refused.
    pub const MEMORY: Fault = Fault {
        code: 20,
        number: None,
    };

    /// A write fails.
    pub const WRITE: Fault = Fault {
        code: 19,
        number: None,
    };

    /// A file can't be opened or read.
    pub const FILE: Fault = Fault {
        code: 45,
        number: None,
    };

    /// Tells of it in one line. A fault where that finds no memory, or can't be written.
    pub fn tell<E: ByteOut>(self, alloc: Global, err: &mut E) -> Result<(), Fault>
        requires { E.failure_count err.old < 2 ^ 63 }
        ensures { OnOk result (E.failure_count err.new ≡ E.failure_count err.old) }
    {
        let line = format!(in alloc; "{self}\n")?;
        write_all(err, line.as_bytes())?;
        Ok(())
    }
}

impl fmt::Display for Fault {
    fn fmt<W: fmt::Write>(&self, f: &mut fmt::Formatter<W>) -> fmt::Result {
        let code = self.code;
        match self.number {
            Some(number) => write!(f, "tlcheck: {code} {number}"),
            None => write!(f, "tlcheck: {code}"),
        }
    }
}

impl<T: Drop> From<AllocFailed<T>> for Fault {
    ghost use Rattle.std.specs.Prelude.{None};

    ghost from_gives = { λ _ fault. fault ≡ record { code = 20; number = None } };

    fn from(_error: AllocFailed<T>) -> Fault {
        Fault::MEMORY
    }
}

impl From<AllocError> for Fault {
    ghost use Rattle.std.specs.Prelude.{None};

    ghost from_gives = { λ _ fault. fault ≡ record { code = 20; number = None } };

    fn from(_error: AllocError) -> Fault {
        Fault::MEMORY
    }
}

impl From<WriteFault> for Fault {
    ghost use Rattle.std.specs.Prelude.{None};

    ghost from_gives = { λ _ fault. fault ≡ record { code = 19; number = None } };

    fn from(_error: WriteFault) -> Fault {
        Fault::WRITE
    }
}

impl From<TopoFault> for Fault {
    ghost use Rattle.tl_files.specs.Faults.{of_topology};

    ghost from_gives = { λ found fault. fault ≡ of_topology found };

    fn from(found: TopoFault) -> Fault {
        Fault {
            code: found.code(),
            number: found.number(),
        }
    }
}

impl From<FragmentFault> for Fault {
    ghost use Rattle.tl_files.specs.Faults.{of_fragment};

    ghost from_gives = { λ found fault. fault ≡ of_fragment found };

    fn from(found: FragmentFault) -> Fault {
        match found {
            FragmentFault::ReadFault => Fault::FILE,
            _ => Fault {
                code: found.code(),
                number: found.number().map(u64::from),
            },
        }
    }
}

impl From<TextFault> for Fault {
    ghost use Rattle.tl_files.specs.Faults.{of_text};

    ghost from_gives = { λ found fault. fault ≡ of_text found };

    fn from(found: TextFault) -> Fault {
        match found {
            TextFault::ReadFault => Fault::FILE,
            TextFault::TooLong => Fault {
                code: 44,
                number: None,
            },
            TextFault::Memory => Fault::MEMORY,
        }
    }
}

impl From<OnceFault> for Fault {
    ghost use Rattle.tl_files.specs.Faults.{of_once};

    ghost from_gives = { λ found fault. fault ≡ of_once found };

    fn from(found: OnceFault) -> Fault {
        match found {
            OnceFault::Refused { code, number } => Fault {
                code,
                number: number.map(u64::from),
            },
            OnceFault::Memory => Fault::MEMORY,
            OnceFault::WriteFault => Fault::WRITE,
        }
    }
}

impl From<AuditFault> for Fault {
    ghost use Rattle.tl_files.specs.Faults.{of_audit};

    ghost from_gives = { λ found fault. fault ≡ of_audit found };

    fn from(fault: AuditFault) -> Fault {
        Fault {
            code: fault.code(),
            number: fault.number(),
        }
    }
}

impl From<TellFault> for Fault {
    fn from(found: TellFault) -> Fault {
        match found {
            TellFault::Memory => Fault::MEMORY,
            TellFault::WriteFault => Fault::WRITE,
        }
    }
}
