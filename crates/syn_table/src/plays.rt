//! What each step tells its seat.

ghost use Rattle.syn_table.specs.Steps.{TellsClaim, TellsRelease, TellsRow, TellsPin, TellsUnpin, TellsCount, TellsKey, TellsKeySet, TellsMade, TellsRedefined, TellsFreed};

use crate::Known;
use atomic_table::Play;

pub(crate) struct Claims;

impl Play<u8, Known> for Claims {
    ghost then = { TellsClaim };
}

pub(crate) struct Releases;

impl Play<u8, Known> for Releases {
    ghost then = { TellsRelease };
}

pub(crate) struct LoadsRow;

impl Play<u8, Known> for LoadsRow {
    ghost then = { TellsRow };
}

pub(crate) struct Pins;

impl Play<u8, Known> for Pins {
    ghost then = { TellsPin };
}

pub(crate) struct TakesPinBack;

impl Play<u8, Known> for TakesPinBack {
    ghost then = { TellsUnpin };
}

pub(crate) struct LoadsCount;

impl Play<u8, Known> for LoadsCount {
    ghost then = { TellsCount };
}

pub(crate) struct LoadsKey;

impl Play<u8, Known> for LoadsKey {
    ghost then = { TellsKey };
}

pub(crate) struct SetsKey;

impl Play<u8, Known> for SetsKey {
    ghost then = { TellsKeySet };
}

pub(crate) struct MakesRow;

impl Play<u8, Known> for MakesRow {
    ghost then = { TellsMade };
}

pub(crate) struct RedefinesRow;

impl Play<u8, Known> for RedefinesRow {
    ghost then = { TellsRedefined };
}

pub(crate) struct FreesRow;

impl Play<u8, Known> for FreesRow {
    ghost then = { TellsFreed };
}
