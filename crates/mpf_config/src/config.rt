//! The rows of a bundle.

ghost use Rattle.std.specs.Prelude.{map};
ghost use Rattle.std.specs.List.{All};
ghost use Rattle.mpf_config.specs.FewModes.{AreFewModes};
ghost use Rattle.mpf_sections.specs.Named.{IsNamed};
ghost use Rattle.mpf_sections.specs.Short.{IsShortSection};
ghost use Rattle.mpf_sections.specs.SectionView.{section_view};
ghost use Rattle.mpf_config.specs.Named.{IsNamedMode};
ghost use Rattle.mpf_config.specs.Short.{IsShortMode};
ghost use Rattle.mpf_config.specs.States.{HasStatesSection, HasStatesMode};
ghost use Rattle.mpf_config.specs.ModeView.{mode_view};

pub use mpf_sections::{CoilAction, Content, ControlAction, Debounce, Section};
use yaml_subset::keys::KeyHashing;

/// The machine text: its sections as written; in the rows of a bundle no name occurs twice.
#[derive(Drop)]
pub struct MachineText {
    pub sections: Vec<Section>,
}

/// The text of a mode: its sections as written; in the rows of a bundle no name occurs twice.
#[derive(Drop)]
pub struct ModeText {
    /// The name of the mode; in the rows of a bundle it has 1 to 64 bytes.
    pub name: Vec<u8>,
    pub sections: Vec<Section>,
}

/// Why a part of a bundle is not read.
#[derive(Clone, Copy)]
pub enum NoteKind {
    /// A section that is carried out nowhere.
    Skipped,
    /// A mode that is listed and has no text.
    Absent,
    /// A text that is neither the machine text nor that of a listed mode.
    Unlisted,
}

/// A part of a bundle that is not read, and is no fault.
#[derive(Drop)]
pub struct Note {
    pub kind: NoteKind,
    /// The name of the text that the note is about.
    pub text: Vec<u8>,
    /// The line of the section, or where the mode is listed, counted from 1; 0 for a text as a whole.
    pub line: u32,
    /// The name of the section, of the mode, or of the text.
    pub name: Vec<u8>,
}

/// The rows of a bundle. No list in them has more than 1,024 items. There are at most 64 modes, and
/// no two have the same name. Every name of a mode, of an entry or in an entry has 1 to 64 letters,
/// digits, `_`, `-` and `.`. Each profile of shots has a state.
#[derive(Drop)]
pub struct Config {
    /// The machine text.
    pub machine: MachineText,
    /// The modes that the machine text lists and that have a text, in the order of the list.
    pub modes: Vec<ModeText>,
    /// What was not read, in the order in which it is reported.
    pub notes: Vec<Note>,
    /// What makes the hashers of names. They start in a state that comes from the SipHash of the
    /// bundle.
    pub hashing: KeyHashing,
    ghost lists_short: { All IsShortSection (map section_view machine.sections.items)
        × All IsShortMode (map mode_view modes.items) },
    ghost have_states: { All HasStatesSection (map section_view machine.sections.items)
        × All HasStatesMode (map mode_view modes.items) },
    ghost few_modes: { AreFewModes (map mode_view modes.items) },
    ghost all_named: { ∥ All IsNamed (map section_view machine.sections.items)
        × All IsNamedMode (map mode_view modes.items) ∥₁ },
}
