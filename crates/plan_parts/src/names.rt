//! Names in pieces, which are borrowed from where they are written.

ghost use Rattle.std.specs.Prelude.{◌≡◌, OnOk, ◌++◌, true};
ghost use Rattle.machine_definitions.specs.Players.{player_event};
ghost use Rattle.plan_parts.specs.Effects.{event_ending, mode_event_name};
ghost use Rattle.plan_parts.specs.View.{pieces_text, has_one_piece};

use plan_tables::entries::ModeEvent;
use std::alloc::AllocError;

/// A name in six pieces, one after the other, each borrowed from where it is written. A piece that is not needed is
/// empty.
#[derive(Clone, Copy)]
pub struct NamePieces<'a> {
    pub shot: &'a [u8],
    pub joint: &'a [u8],
    pub stem: &'a [u8],
    pub front: &'a [u8],
    pub middle: &'a [u8],
    pub end: &'a [u8],
}

/// A name in three pieces.
pub fn join_pieces<'a>(front: &'a [u8], middle: &'a [u8], end: &'a [u8]) -> NamePieces<'a>
    ensures { pieces_text result ≡ front.now ++ middle.now ++ end.now }
{
    NamePieces {
        shot: b"",
        joint: b"",
        stem: b"",
        front,
        middle,
        end,
    }
}

/// A name as it is written.
pub fn whole(name: &[u8]) -> NamePieces<'_>
    ensures { pieces_text result ≡ name.now }
{
    join_pieces(b"", b"", name)
}

/// How the name of an event of a mode ends.
fn event_ending(which: ModeEvent) -> &'static [u8]
    ensures { result.now ≡ event_ending which }
{
    match which {
        ModeEvent::WillStart => b"_will_start",
        ModeEvent::Starting => b"_starting",
        ModeEvent::Started => b"_started",
        ModeEvent::Stopping => b"_stopping",
        ModeEvent::Stopped => b"_stopped",
    }
}

/// The name of this event of the mode of this name.
pub fn mode_event_name(which: ModeEvent, name: &[u8]) -> NamePieces<'_>
    ensures { pieces_text result ≡ mode_event_name which name.now }
{
    NamePieces {
        shot: b"",
        joint: b"",
        stem: b"",
        front: b"mode_",
        middle: name,
        end: event_ending(which),
    }
}

/// The name of the event that is posted when the variable of this name changes.
pub fn player_event(variable: &[u8]) -> NamePieces<'_>
    ensures { pieces_text result ≡ player_event variable.now }
{
    join_pieces(b"player_", b"", variable)
}

/// Whether the name is its last piece, as most are.
pub fn is_whole(name: &NamePieces) -> bool
    ensures exact { result ≡ has_one_piece name.now }
    ensures whole { result ≡ true → pieces_text name.now ≡ name.now.end.now }
{
    name.shot.is_empty()
        && name.joint.is_empty()
        && name.stem.is_empty()
        && name.front.is_empty()
        && name.middle.is_empty()
}

/// Writes the name into the text, in place of what was there.
pub fn write_name(text: &mut Vec<u8>, name: NamePieces) -> Result<(), AllocError>
    ensures { OnOk result (text.new.items ≡ pieces_text name.entry) }
{
    text.clear();
    write_piece(text, name.shot)?;
    write_piece(text, name.joint)?;
    write_piece(text, name.stem)?;
    write_piece(text, name.front)?;
    write_piece(text, name.middle)?;
    write_piece(text, name.end)
}

/// Writes a piece of a name after what is there. Most pieces are empty: the test makes them cheap.
fn write_piece(text: &mut Vec<u8>, piece: &[u8]) -> Result<(), AllocError>
    ensures { OnOk result (text.new.items ≡ text.old.items ++ piece.now) }
{
    if piece.is_empty() {
        return Ok(());
    }
    text.extend_from_slice(piece)
}
