// A machine that writes down what it is told, up to a limit.
ghost use Rattle.std.specs.Prelude.{◌≡◌, ◌<◌, ◌^◌, length};

use std::alloc::Global;
use turn_cell::Machine;

/// What one of two speakers says.
#[derive(Clone, Copy, Debug, PartialEq, Eq)]
pub struct Said {
    pub by: u32,
    pub what: u32,
}

#[derive(Drop)]
pub struct Journal {
    limit: u32,
    said: Vec<Said>,
    ghost few: { length said.items < 2 ^ 32 },
}

impl Journal {
    pub fn new(alloc: Global, limit: u32) -> Journal {
        Journal {
            limit,
            said: Vec::new(alloc),
        }
    }

    // How far the speaker came: what it said is 0, 1 and so on, each once and in this order. None where it isn't.
    pub fn heard(&self, by: u32) -> Option<u32> {
        let mut next = 0u32;
        for said in self.said.as_slice() {
            if said.by == by {
                if said.what != next {
                    return None;
                }
                next = next.checked_add(1)?;
            }
        }
        Some(next)
    }
}

impl Machine for Journal {
    ghost use Rattle.std.specs.Prelude.{◌≡◌, ◌++◌, ◌∷◌, [], ⊤};
    ghost use Rattle.std.specs.Bool.{MatchBool};

    type Call = Said;

    type Reply = bool;

    type Fixed = u32;

    type Entry = Said;

    ghost fixed = { λ j. j.limit };

    ghost list = { λ j. j.said.items };

    ghost step = { λ fixed before call reply after. MatchBool reply (after ≡ before ++ call ∷ []) (after ≡ before) };

    ghost allowed = { λ fixed call. ⊤ };

    fn apply(&mut self, call: Said) -> bool {
        if self.said.len() >= self.limit as usize {
            return false;
        }
        if self.said.reserve(1).is_err() {
            return false;
        }
        self.said.push_reserved(call);
        true
    }

    fn entries(&self) -> u32 {
        self.said.len() as u32
    }
}
