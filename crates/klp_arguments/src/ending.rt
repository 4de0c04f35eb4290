//! How a program ends that doesn't run.
ghost use Rattle.std.specs.Prelude.{◌≡◌};
ghost use Rattle.klp_arguments.specs.Asked.{status_of};
ghost use Rattle.klp_arguments.specs.declared.ending.Ending.TheVariants.{NoMemory};

use crate::program::Program;
use clap::Error;
use std::alloc::AllocError;
use std::io::Write;

/// The exit statuses if help or the version was asked for, of any other fault, and if the arguments are refused.
const SHOWN: u8 = 0;

const FAULT: u8 = 1;

const USAGE: u8 = 2;

/// Why a program doesn't run.
#[derive(Drop)]
pub(crate) enum Ending {
    /// The arguments ask for help, or for the version. The error has the text.
    Shown(Error),
    /// The arguments are refused.
    Refused,
    NoMemory,
}

impl From<AllocError> for Ending {
    ghost from_gives = { λ _ ending. ending ≡ NoMemory };

    fn from(_: AllocError) -> Ending {
        Ending::NoMemory
    }
}

impl Ending {
    /// Writes to `out` help or the version, as was asked for, or to `err` why the program doesn't run. Returns the exit
    /// status: 0 for help and the version, 2 for refused arguments, and 1 for lack of memory.
    pub(crate) fn report<W: Write, E: Write>(self, program: Program, out: &mut W, err: &mut E) -> u8
        ensures { result ≡ status_of self }
    {
        let name = program.name();
        match self {
            Ending::Shown(text) => {
                let _ = write!(out, "{text}");
                let _ = out.flush();
                SHOWN
            }
            Ending::Refused => {
                let usage = program.usage();
                let _ = writeln!(err, "{name}: usage: {usage} (man {name})");
                USAGE
            }
            Ending::NoMemory => {
                let _ = writeln!(err, "{name}: NoMemory");
                FAULT
            }
        }
    }
}
