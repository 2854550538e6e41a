//! Paths into the top of a node, one after the other.

ghost use Rattle.std.specs.Prelude.{◌≡◌, ◌+◌, ◌<◌, [], IfOk, false, length, true};
ghost use Rattle.syn_rows.specs.Rows.{InOrder};
ghost use Rattle.syn_paths.specs.Tops.{FallsBelow, label_in};
ghost use Rattle.syn_paths.specs.Adding.{AreStarts};
ghost use Rattle.syn_paths.specs.Rooms.{HoldsPaths, IsExhausted, IsRoom};

use crate::path_search::{Ways, follow, search, source_of};
use crate::room::Room;
use std::alloc::AllocError;
use syn_rows::Row;

// One path more into the top of a node at a level, where there is one.
fn add_path(
    rows: &[Row],
    labels: &[u32],
    root: u32,
    level: u32,
    room: &mut Room,
) -> Result<bool, AllocError>
    requires order { InOrder rows.now }
    requires root { root < length rows.now }
    requires falls { FallsBelow rows.now (label_in labels.now) root }
    requires room { IsRoom (length rows.now) room.old }
    requires starts { AreStarts rows.now labels.now root level room.old.starts.items }
    requires paths { HoldsPaths rows.now labels.now root level room.old.next.items room.old.sources.items room.old.touched.items }
    ensures room { IfOk result (λ yes. IsRoom (length rows.now) room.new) }
    ensures starts { IfOk result (λ yes. room.new.starts.items ≡ room.old.starts.items) }
    ensures paths { IfOk result (λ yes. HoldsPaths rows.now labels.now root level room.new.next.items room.new.sources.items room.new.touched.items) }
    ensures more { IfOk result (λ yes. yes ≡ true → length room.new.sources.items ≡ length room.old.sources.items + 1) }
    ensures same { IfOk result (λ yes. yes ≡ false → length room.new.sources.items ≡ length room.old.sources.items) }
    ensures stamp { IfOk result (λ yes. yes ≡ false → 0 < room.new.marks.stamp) }
    ensures searched { IfOk result (λ yes. yes ≡ false → IsExhausted rows.now room.new) }
{
    let _ = labels;
    let _ = (root, level);
    let stamp = room.marks.next();
    room.trail.clear();
    room.waiting.clear();
    let ways = Ways {
        rows,
        near: room.near.as_slice(),
    };
    let found = search(
        ways,
        room.next.as_slice(),
        room.starts.as_slice(),
        room.marks.ins.as_mut_slice(),
        room.marks.outs.as_mut_slice(),
        stamp,
        &mut room.trail,
        &mut room.waiting,
    )?;
    let Some(i) = found else { return Ok(false) };
    room.sources.push(source_of(room.trail.as_slice(), i))?;
    follow(
        room.next.as_mut_slice(),
        room.trail.as_slice(),
        i,
        &mut room.touched,
    )?;
    Ok(true)
}

/// So many paths into the top of a node at a level, where there are as many: else as many as there are. The only error is
/// want of memory.
pub(crate) fn add_paths(
    rows: &[Row],
    labels: &[u32],
    root: u32,
    level: u32,
    count: usize,
    room: &mut Room,
) -> Result<bool, AllocError>
    requires order { InOrder rows.now }
    requires root { root < length rows.now }
    requires falls { FallsBelow rows.now (label_in labels.now) root }
    requires room { IsRoom (length rows.now) room.old }
    requires starts { AreStarts rows.now labels.now root level room.old.starts.items }
    requires paths { HoldsPaths rows.now labels.now root level room.old.next.items room.old.sources.items room.old.touched.items }
    requires none { room.old.sources.items ≡ [] }
    ensures room { IfOk result (λ yes. IsRoom (length rows.now) room.new) }
    ensures starts { IfOk result (λ yes. room.new.starts.items ≡ room.old.starts.items) }
    ensures paths { IfOk result (λ yes. HoldsPaths rows.now labels.now root level room.new.next.items room.new.sources.items room.new.touched.items) }
    ensures all { IfOk result (λ yes. yes ≡ true → length room.new.sources.items ≡ count) }
    ensures fewer { IfOk result (λ yes. yes ≡ false → length room.new.sources.items < count) }
    ensures stamp { IfOk result (λ yes. yes ≡ false → 0 < room.new.marks.stamp) }
    ensures searched { IfOk result (λ yes. yes ≡ false → IsExhausted rows.now room.new) }
{
    while room.sources.len() < count {
        if !add_path(rows, labels, root, level, room)? {
            return Ok(false);
        }
    }
    Ok(true)
}
