//! The models of a file, with what is looked up in them.

ghost use Rattle.std.specs.Prelude.{◌≡◌, ◌^◌, ◌<◌, IfOk, length, map, true};
ghost use Rattle.syn_models.specs.Files.{IsFile};
ghost use Rattle.syn_models.specs.Models.{name_of};
ghost use Rattle.syn_models.specs.Views.{model_in};
ghost use Rattle.syn_netlist.specs.Words.{distinct};

use crate::hierarchy::Model;
use crate::ports::{Ports, all_ports, model_names};
use std::alloc::{AllocError, Global};
use syn_netlist::Names;

/// The models of a file, their names, and their ports.
#[derive(Drop)]
pub(crate) struct File<'a> {
    /// The models in order.
    pub models: &'a [Model],
    /// Their names, numbered in order.
    pub names: Names,
    /// Their ports in order.
    pub ports: Vec<Ports>,
}

/// The file of these models, of different names. The only error is want of memory.
pub(crate) fn file_of<'a>(alloc: Global, models: &'a [Model]) -> Result<File<'a>, AllocError>
    requires few { length models.now < 2 ^ 32 }
    requires distinct { distinct (map name_of (map model_in models.now)) ≡ true }
    ensures models { IfOk result (λ file. file.models.now ≡ models.now) }
    ensures file { IfOk result IsFile }
{
    let names = model_names(alloc, models)?;
    let ports = all_ports(alloc, models)?;
    Ok(File {
        models,
        names,
        ports,
    })
}
