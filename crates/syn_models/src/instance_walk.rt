//! A walk through all instances, with a stack of its own.

ghost use Rattle.std.specs.Prelude.{◌≡◌, ◌≢◌, ◌+◌, ◌*◌, ◌++◌, ◌∷◌, [], length, true, IfOk, None, OnOk, Some};
ghost use Rattle.syn_models.specs.Called.{actuals_below};
ghost use Rattle.syn_models.specs.Files.{IsFile, all_in};
ghost use Rattle.syn_models.specs.Kept.{numbers_in};
ghost use Rattle.syn_models.specs.Models.{model_named};
ghost use Rattle.syn_models.specs.Opening.{Opened, Opens};
ghost use Rattle.syn_models.specs.Views.{model_in};
ghost use Rattle.syn_models.specs.Walking.{IsWalk, IsWalked};
ghost use Rattle.syn_netlist.specs.Numbers.{all_below};

use crate::files::File;
use crate::hierarchy::{Bind, Model, StatementKind};
use crate::met::{Instance, Level, Part, Place, Walked};
use crate::ports::number_named;
use std::alloc::{AllocError, Global};

// The model of this name, which is there.
fn inside_named<'a>(file: &File<'a>, name: &[u8]) -> &'a Model
    requires file { IsFile file.now }
    requires there { model_named (all_in file.now) name.now ≢ None }
    ensures { model_named (all_in file.now) name.now ≡ Some (model_in result.now) }
{
    match number_named(file.models, &file.names, name) {
        Some(number) => &file.models[number as usize],
        None => unreachable!(),
    }
}

// An instance, met at this place.
fn met_instance<'a>(outer: Place<'a>, binds: &'a [Bind], inside: &'a Model) -> Instance<'a>
    requires { actuals_below (length outer.home.now.names) binds.now ≡ true }
    ensures outer { result.outer ≡ outer.entry }
    ensures binds { result.binds.now ≡ binds.now }
    ensures inside { result.inside.now ≡ inside.now }
{
    Instance {
        outer,
        binds,
        inside,
    }
}

// A statement, met at this place.
fn met_part<'a>(place: Place<'a>, kind: &'a StatementKind) -> Part<'a>
    requires { all_below (length place.home.now.names) (numbers_in kind.now) ≡ true }
    ensures place { result.place ≡ place.entry }
    ensures kind { result.kind.now ≡ kind.now }
{
    Part { place, kind }
}

// A turn of the walk: the highest level ends, or goes on by one statement. The statements and twice the instances that were
// met, less the levels, are one more, so memory bounds the turns.
fn turn<'a>(
    file: &File<'a>,
    level: Level<'a>,
    walked: &mut Walked<'a>,
    levels: &mut Vec<Level<'a>>,
) -> Result<(), AllocError>
    requires file { IsFile file.now }
    requires walk { IsWalk (all_in file.now) walked.old.main.now walked.old.instances.items walked.old.parts.items (levels.old.items ++ level ∷ []) }
    ensures main { walked.new.main.now ≡ walked.old.main.now }
    ensures walk { OnOk result (IsWalk (all_in file.now) walked.new.main.now walked.new.instances.items walked.new.parts.items levels.new.items) }
    ensures turns { OnOk result (length walked.new.parts.items + 2 * length walked.new.instances.items + length levels.old.items ≡ length walked.old.parts.items + 2 * length walked.old.instances.items + length levels.new.items) }
{
    let place = level.place;
    let statements = place.home.statements.as_slice();
    if level.at >= statements.len() {
        return Ok(());
    }
    let kind = &statements[level.at].kind;
    let at = level.at + 1;
    levels.push(Level { place, at })?;
    match kind {
        StatementKind::Subckt(c) => {
            let inside = inside_named(file, c.model.as_slice());
            let instance = met_instance(place, c.binds.as_slice(), inside);
            walked.instances.push(instance)?;
            let number = walked.instances.len();
            levels.push(Level {
                place: Place {
                    number,
                    home: inside,
                },
                at: 0,
            })?;
        }
        StatementKind::Inputs(_)
        | StatementKind::Outputs(_)
        | StatementKind::Clock(_)
        | StatementKind::Latch(_)
        | StatementKind::Table(_) => walked.parts.push(met_part(place, kind))?,
    }
    Ok(())
}

/// All instances and statements, in the order in which the main model's statements, opened, have them. The only error is
/// want of memory.
pub(crate) fn walk<'a>(
    alloc: Global,
    file: &File<'a>,
    main: &'a Model,
) -> Result<Walked<'a>, AllocError>
    requires file { IsFile file.now }
    requires opens { (tree : Opened) × Opens (all_in file.now) (model_in main.now).statements tree }
    ensures main { IfOk result (λ w. w.main.now ≡ main.now) }
    ensures walked { IfOk result (λ w. IsWalked (all_in file.now) main.now w.instances.items w.parts.items) }
{
    let mut walked = Walked {
        main,
        instances: Vec::new(alloc),
        parts: Vec::new(alloc),
    };
    let mut levels = Vec::new(alloc);
    levels.push(Level {
        place: Place {
            number: 0,
            home: main,
        },
        at: 0,
    })?;
    while let Some(level) = levels.pop() {
        turn(file, level, &mut walked, &mut levels)?;
    }
    Ok(walked)
}
