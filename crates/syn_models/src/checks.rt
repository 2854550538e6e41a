//! The first fault of models that don't fit together.

ghost use Rattle.std.specs.Prelude.{◌≡◌, IfOk, option_map};
ghost use Rattle.std.specs.Option.{option_or};
ghost use Rattle.syn_models.specs.declared.flat_fault.FlatFault.TheVariants.{Undriven};
ghost use Rattle.syn_models.specs.Files.{IsFile, all_in};
ghost use Rattle.syn_models.specs.FlatFaults.{checks, first_of_models, first_undriven};

use crate::FlatFault;
use crate::files::File;
use crate::first_fault::first_subcircuit_fault;
use crate::undriven::first_undriven_name;
use std::alloc::{AllocError, Global};

impl From<AllocError> for FlatFault {
    ghost use Rattle.std.specs.Prelude.{◌≡◌};
    ghost use Rattle.syn_models.specs.declared.flat_fault.FlatFault.TheVariants.{NoMemory};

    ghost from_gives = { λ _ e. e ≡ NoMemory };

    fn from(_: AllocError) -> FlatFault {
        FlatFault::NoMemory
    }
}

/// The first fault of a subcircuit, or else the first name that is read and never defined.
pub(crate) fn file_fault(alloc: Global, file: &File<'_>) -> Result<Option<FlatFault>, AllocError>
    requires { IsFile file.now }
    ensures { IfOk result (λ r. r ≡ option_or (first_of_models checks (all_in file.now) (all_in file.now)) (option_map Undriven (first_undriven (all_in file.now) (all_in file.now)))) }
{
    match first_subcircuit_fault(alloc, file)? {
        Some(fault) => Ok(Some(fault)),
        None => match first_undriven_name(alloc, file)? {
            Some(name) => Ok(Some(FlatFault::Undriven(name))),
            None => Ok(None),
        },
    }
}
