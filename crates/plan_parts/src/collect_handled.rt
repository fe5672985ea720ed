//! The events that an entry handles, and those that it names.

ghost use Rattle.std.specs.Prelude.{◌≡◌, ◌++◌, map, OnOk};
ghost use Rattle.mpf_sections.specs.View.{handler_view, name_view};
ghost use Rattle.plan_parts.specs.Devices.{acts, events, texts as texts_of};
ghost use Rattle.plan_parts.specs.RowViews.{acts_view, controlled_by, controls_view, names_view};

use crate::names::{NamePieces, whole};
use crate::row_parts::{HandledName, ModeControl, add};
use mpf_config::{Handler, Name, as_handled};
use plan_tables::devices::Act;
use std::alloc::AllocError;

/// Each of the events does this.
pub(crate) fn collect_acts<'a>(
    event_acts: &mut Vec<(HandledName<'a>, Act)>,
    act: Act,
    handlers: &'a [Handler],
) -> Result<(), AllocError>
    ensures { OnOk result (acts_view event_acts.new.items
        ≡ acts_view event_acts.old.items ++ acts act (map handler_view handlers.now)) }
{
    for handler in handlers {
        add(
            event_acts,
            (HandledName::as_written(as_handled(handler)), act),
        )?;
    }
    Ok(())
}

/// Each of the events does this with a mode.
pub(crate) fn collect_controls<'a>(
    controls: &mut Vec<(HandledName<'a>, ModeControl)>,
    control: ModeControl,
    handlers: &'a [Handler],
) -> Result<(), AllocError>
    ensures { OnOk result (controls_view controls.new.items
        ≡ controls_view controls.old.items ++ map (controlled_by control) (events (map handler_view handlers.now))) }
{
    for handler in handlers {
        add(
            controls,
            (HandledName::as_written(as_handled(handler)), control),
        )?;
    }
    Ok(())
}

/// Names as they are written.
pub(crate) fn collect_names<'a>(
    texts: &mut Vec<NamePieces<'a>>,
    names: &'a [Name],
) -> Result<(), AllocError>
    ensures { OnOk result (names_view texts.new.items
        ≡ names_view texts.old.items ++ texts_of (map name_view names.now)) }
{
    for name in names {
        add(texts, whole(&name.text))?;
    }
    Ok(())
}
