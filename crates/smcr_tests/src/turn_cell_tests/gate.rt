// A machine with no entries that stays inside a call until it is let go, or a bounded number of turns have passed.
use std::alloc::Global;
use std::sync::Arc;
use std::sync::atomic::{AtomicU64, Ordering};
use std::thread;
use turn_cell::Machine;

// How often a thread looks for a signal before it gives up.
const LOOKS: u32 = 1_000_000;

/// Two signals: the machine is inside a call, and it may leave.
#[derive(Drop)]
pub struct Signals {
    pub inside: AtomicU64,
    pub leave: AtomicU64,
}

impl Signals {
    pub fn new() -> Signals {
        Signals {
            inside: AtomicU64::new(0),
            leave: AtomicU64::new(0),
        }
    }
}

// Looks for the signal, and gives way to other threads. It answers whether the signal came.
pub fn comes(signal: &AtomicU64) -> bool {
    for _ in 0..LOOKS {
        if signal.load(Ordering::SeqCst) == 1 {
            return true;
        }
        thread::yield_now();
    }
    false
}

#[derive(Drop)]
pub struct Gate {
    signals: Arc<Signals, Global>,
}

impl Gate {
    pub fn new(signals: Arc<Signals, Global>) -> Gate {
        Gate { signals }
    }
}

impl Machine for Gate {
    ghost use Rattle.std.specs.Prelude.{⊤, []};

    // Whether to stay inside until the signal comes.
    type Call = bool;

    // Whether the machine was let go.
    type Reply = bool;

    type Fixed = ();

    type Entry = ();

    ghost fixed = { λ g. tt };

    ghost list = { λ g. [] };

    ghost step = { λ fixed before call reply after. ⊤ };

    ghost allowed = { λ fixed call. ⊤ };

    fn apply(&mut self, stay: bool) -> bool {
        if !stay {
            return true;
        }
        self.signals.inside.store(1, Ordering::SeqCst);
        comes(&self.signals.leave)
    }

    fn entries(&self) -> u32 {
        0
    }
}
