//! What effect lists do, by names; and several effect lists in one buffer.

ghost use Rattle.std.specs.Prelude.{◌≡◌, ◌≤◌, ◌-◌, [], ◌∷◌, ◌++◌, length, map, take, drop, slice_index_or, OnOk};
ghost use Rattle.mpf_sections.specs.View.{name_view};
ghost use Rattle.plan_parts.specs.Devices.{texts};
ghost use Rattle.plan_parts.specs.Effects.{posts};
ghost use Rattle.plan_parts.specs.Lists.{with_last};
ghost use Rattle.plan_parts.specs.View.{pieces_text, effect_view};

use crate::names::{NamePieces, whole};
use crate::row_parts::add;
use machine_settings::VariableAction;
use mpf_config::Name;
use std::alloc::{AllocError, Global};
use std::marker::Model;

/// What is done with a coil. Powers are in thousandths of full power.
#[derive(Clone, Copy)]
pub enum Deed {
    /// It is pulsed for so many milliseconds with this power.
    Pulse { ms: u32, power: u16 },
    /// It is enabled with this power.
    Enable { power: u16 },
    /// It is disabled.
    Disable,
}

/// One thing that an effect list does.
#[derive(Clone, Copy)]
pub enum Effect<'a> {
    /// It posts the event of this name.
    Post(NamePieces<'a>),
    /// It does this with the coil of this name.
    Coil(&'a [u8], Deed),
    /// It does this with the variable of this name, with a number. If that changes the variable, it
    /// posts the event of the variable.
    Variable(&'a [u8], VariableAction, i64),
    /// A ball enters the ball device of the row, which posts the event of this name. The flag says
    /// whether the ball may have drained.
    Enter(NamePieces<'a>, bool),
    /// The ball that the ball device of the row ejects leaves it.
    Leave,
    /// A ball is lost from the ball device of the row: it leaves without being ejected.
    Lose,
    /// A ball that was on its way from the ball device of the row is on the playfield.
    Arrive,
    /// The first trough is asked for this many balls more.
    Request(u8),
    /// At least this many balls are to be in play: the first trough is asked for those that are missing.
    AddBalls(u8),
}

/// Effect lists, one after the other, in a buffer that is cleared and used again.
#[derive(Drop)]
pub struct EffectLists<'a> {
    /// What the lists do, one after the other.
    effects: Vec<Effect<'a>>,
    /// For each list, where its effects end in `effects`. Those of the next list begin there.
    ends: Vec<usize>,
}

impl<'a> Model for EffectLists<'a> {
    ghost use Rattle.std.specs.Prelude.{List};
    ghost use Rattle.plan_parts.specs.Effects.{Effect as EffectValue};

    ghost Value = { List (List EffectValue) };

    ghost use Rattle.std.specs.Prelude.{◌≡◌, true, length};
    ghost use Rattle.plan_parts.specs.Lists.{are_ends, lists_view};

    ghost view = { lists_view };

    ghost invariant = { λ l. are_ends 0 l.ends.items (length l.effects.items) ≡ true };
}

impl<'a> EffectLists<'a> {
    ghost use Rattle.std.specs.Prelude.{◌≡◌, ◌<◌, [], ◌∷◌, ◌++◌, length, map, slice_index_or, OnOk};
    ghost use Rattle.std.specs.List.{flat_map};
    ghost use Rattle.plan_parts.specs.Lists.{with_last};
    ghost use Rattle.plan_parts.specs.View.{effect_view};

    /// No list.
    pub fn new(alloc: Global) -> EffectLists<'a>
        ensures { result ≡ [] }
    {
        EffectLists {
            effects: Vec::new(alloc),
            ends: Vec::new(alloc),
        }
    }

    /// Removes all lists.
    pub fn clear(&mut self)
        ensures { self.new ≡ [] }
    {
        self.effects.clear();
        self.ends.clear();
    }

    /// Begins a list.
    pub fn begin(&mut self) -> Result<(), AllocError>
        ensures { OnOk result (self.new ≡ self.old ++ [] ∷ []) }
    {
        add(&mut self.ends, self.effects.len())
    }

    /// Adds an effect to the list that began last. If none has begun, the effect is lost.
    pub fn add(&mut self, effect: Effect<'a>) -> Result<(), AllocError>
        ensures { OnOk result (self.new ≡ with_last (effect_view effect.entry ∷ []) self.old) }
    {
        let count = self.ends.len();
        if count > 0 {
            add(&mut self.effects, effect)?;
            self.ends[count - 1] = self.effects.len();
        }
        Ok(())
    }

    /// How many lists there are.
    pub fn len(&self) -> usize
        ensures { result ≡ length self.now }
    {
        self.ends.len()
    }

    /// The list of this number. It is empty if there are not so many.
    pub fn list(&self, number: usize) -> &[Effect<'a>]
        ensures { map effect_view result.now ≡ slice_index_or self.now number [] }
    {
        if number >= self.ends.len() {
            return &[];
        }
        let begin = begin_of(&self.ends, number);
        part_of(&self.effects, begin, self.ends[number])
    }

    /// What all lists do, one after the other.
    pub fn effects(&self) -> &[Effect<'a>]
        ensures { map effect_view result.now ≡ flat_map (λ es. es) self.now }
    {
        &self.effects
    }
}

/// Where the list of this number begins, if these are the ends of lists.
fn begin_of(ends: &[usize], number: usize) -> usize
    requires { number ≤ length ends.now }
    ensures { result ≡ slice_index_or (0 ∷ ends.now) number 0 }
{
    if number == 0 {
        return 0;
    }
    ends[number - 1]
}

/// The effects from here to there.
fn part_of<'e, 'a>(effects: &'e [Effect<'a>], begin: usize, end: usize) -> &'e [Effect<'a>]
    requires rise { begin ≤ end }
    requires within { end ≤ length effects.now }
    ensures { result.now ≡ take (end - begin) (drop begin effects.now) }
{
    &effects[begin..end]
}

/// The list that began last posts the event.
pub(crate) fn post<'a>(lists: &mut EffectLists<'a>, event: NamePieces<'a>) -> Result<(), AllocError>
    ensures { OnOk result (lists.new ≡ with_last (posts (pieces_text event.entry) ∷ []) lists.old) }
{
    lists.add(Effect::Post(event))
}

/// Begins a list that posts the event.
pub(crate) fn post_in_next<'a>(
    lists: &mut EffectLists<'a>,
    event: NamePieces<'a>,
) -> Result<(), AllocError>
    ensures { OnOk result (lists.new ≡ lists.old ++ (posts (pieces_text event.entry) ∷ []) ∷ []) }
{
    lists.begin()?;
    post(lists, event)
}

/// Begins a list that does this.
pub(crate) fn do_in_next<'a>(
    lists: &mut EffectLists<'a>,
    effect: Effect<'a>,
) -> Result<(), AllocError>
    ensures { OnOk result (lists.new ≡ lists.old ++ (effect_view effect.entry ∷ []) ∷ []) }
{
    lists.begin()?;
    lists.add(effect)
}

/// The list that began last posts the events of these names.
pub(crate) fn post_each<'a>(
    lists: &mut EffectLists<'a>,
    names: &'a [Name],
) -> Result<(), AllocError>
    ensures { OnOk result (lists.new ≡ with_last (map posts (texts (map name_view names.now))) lists.old) }
{
    for name in names {
        post(lists, whole(&name.text))?;
    }
    Ok(())
}
