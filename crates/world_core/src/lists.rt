//! Lists whose memory is taken at once.
ghost use Rattle.std.specs.Prelude.{◌≡◌, ◌≤◌, ◌<◌, ◌++◌, ◌∷◌, [], vec_len, vec_capacity, replicate, true, IfOk};

use smc_num::NoMemory;
use std::alloc::Global;

/// Appends within the capacity.
pub fn push_within<T: Drop>(list: &mut Vec<T>, item: T)
    requires { vec_len list.old < vec_capacity list.old }
    ensures items { list.new.items ≡ list.old.items ++ item ∷ [] }
    ensures capacity { vec_capacity list.old ≤ vec_capacity list.new }
{
    let _ = list.push(item);
}

/// Room for so many.
pub fn with_room<T: Drop>(alloc: Global, room: u32) -> Result<Vec<T>, NoMemory>
    ensures { IfOk result (λ list. (list.items ≡ []) × (room ≤ vec_capacity list)) }
{
    match Vec::with_capacity(alloc, room as usize) {
        Ok(list) => Ok(list),
        Err(_) => Err(NoMemory),
    }
}

/// As many that are true.
pub fn all_up(alloc: Global, count: u8) -> Result<Vec<bool>, NoMemory>
    ensures { IfOk result (λ paths. paths.items ≡ replicate count true) }
{
    let mut paths = Vec::new(alloc);
    match paths.resize(count as usize, true) {
        Ok(()) => Ok(paths),
        Err(_) => Err(NoMemory),
    }
}
