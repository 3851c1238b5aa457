//! Why a text is no scene.

ghost use Rattle.std.specs.Prelude.{◌≡◌};
ghost use Rattle.scene_text.specs.declared.faults.LineFault.TheVariants.{NoMemory as NoRoom, Bad};

use std::alloc::{AllocError, AllocFailed};
use thiserror::Error;

/// What is wrong with a line. Of the faults of one line the first in this order counts; from
/// [`LineKind::Name`] on they are those of single words, of which the leftmost counts.
#[derive(Clone, Copy, Debug, PartialEq, Eq)]
pub enum LineKind {
    /// A byte outside the printable ones, 32 to 126.
    Char,
    /// The first word, or a setting's name, is none that is known.
    Word,
    /// There are too many or too few words.
    Count,
    /// A line stands where it may not, as a setting behind another line.
    Order,
    /// A setting or an actor comes a second time.
    Again,
    /// No name.
    Name,
    /// No side, or no end.
    Side,
    /// No number.
    Number,
    /// No bytes.
    Bytes,
    /// No subnet.
    Subnet,
    /// Neither yes nor no.
    Answer,
    /// A number outside the range of its place.
    Range,
}

/// Why a text is not read as a scene.
#[derive(Debug, Drop, Error)]
pub enum SceneFault {
    #[error("no memory")]
    NoMemory,
    /// This line, counted from 1, is the first that is refused.
    #[error("line {line}: {kind:?}")]
    BadLine { line: u32, kind: LineKind },
    /// This line, counted from 1, is the first that is refused: it passes this limit of the scene.
    #[error("line {line}: more than {limit}")]
    TooMany { line: u32, limit: u32 },
}

/// Why one line is not taken.
#[derive(Debug, Drop)]
pub enum LineFault {
    NoMemory,
    Bad(LineKind),
    Passes { limit: u32 },
}

impl From<AllocError> for LineFault {
    ghost from_gives = { λ _ e. e ≡ NoRoom };

    fn from(_e: AllocError) -> LineFault {
        LineFault::NoMemory
    }
}

impl<T: Drop> From<AllocFailed<T>> for LineFault {
    ghost from_gives = { λ _ e. e ≡ NoRoom };

    fn from(_e: AllocFailed<T>) -> LineFault {
        LineFault::NoMemory
    }
}

impl From<LineKind> for LineFault {
    ghost from_gives = { λ kind e. e ≡ Bad kind };

    fn from(kind: LineKind) -> LineFault {
        LineFault::Bad(kind)
    }
}
