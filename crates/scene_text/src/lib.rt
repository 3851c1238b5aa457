//! The texts of this project: scenes, which are read, and histories, which are printed.
//!
//! A scene is a text of lines; what it means, and which line is refused for what, stands as a
//! function on bytes in `specs/`, and [`read_scene`] equals it. The text of a history stands there
//! too, and the program's printer equals that.
#![tactic(auto)]

mod commands;
mod faults;
mod grammar;
pub mod limits;
mod print;
mod scenes;
mod settings;
mod shapes;
pub mod spell;
mod words;

pub use faults::{LineFault, LineKind, SceneFault};
pub use grammar::{are_printable, fault_at, is_passed_over, read_scene, without_return};
pub use print::{print_scene, scenes_are_read_back};
pub use scenes::{Scene, SceneLine, SceneWhat, built_setup};
pub use words::{byte_of, cut, words_of};
