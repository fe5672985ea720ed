//! The plan, and its tables read by number and by text.

use crate::devices::{BallTarget, DeviceRow, RowId};
use crate::entries::{
    Action, Binding, BindingId, CoilId, CoilLimits, EventId, GameEvent, GameRules, ListId,
    Listener, Mode, ModeEntry, ModeId, SwitchEntry, SwitchId, SwitchKind, VariableId, Work,
};
use crate::names::NameSets;
use crate::placing::{
    bindings_by_mode, feeders_by_target, place_of_trough, places_by_event, rows_by_mode,
    target_place,
};
use crate::table::Table;
use crate::works::works_by_event;
use std::alloc::{AllocError, Global};
use std::marker::Model;

/// What a plan is made of.
#[derive(Drop)]
pub struct Tables {
    /// The names of the events, of the switches, of the coils and of the variables.
    pub names: NameSets,
    /// In the order of the machine's list.
    pub modes: Vec<ModeEntry>,
    /// At the places of their names.
    pub switches: Vec<SwitchEntry>,
    /// At the places of their names.
    pub coils: Vec<CoilLimits>,
    /// The effect lists.
    pub lists: Vec<Vec<Action>>,
    /// In plan order.
    pub bindings: Vec<Binding>,
    /// The rows of devices, in plan order.
    pub rows: Vec<DeviceRow>,
    /// For each row the first of its effect lists; the others follow it.
    pub row_lists: Vec<ListId>,
    /// The rules of the game; none if there is no game.
    pub game: Option<GameRules>,
}

/// The plan of a configuration. Each number in it is that of an entry of its table, no two events,
/// switches, coils or variables have one name, and each table is within its limit.
#[derive(Drop)]
pub struct Plan {
    tables: Tables,
    /// For each event the places of what is bound to it.
    places: Vec<Vec<BindingId>>,
    /// For each event its work.
    works: Vec<Work>,
    /// For each mode the places of its bindings.
    mode_bindings: Vec<Vec<BindingId>>,
    /// For each mode its rows.
    mode_rows: Vec<Vec<RowId>>,
    /// For the playfield, and then for each row, the ball devices that eject their balls there.
    feeders: Vec<Vec<RowId>>,
}

impl Model for Plan {
    ghost use Rattle.plan_tables.specs.PlanView.{PlanView};

    ghost Value = { PlanView };

    ghost use Rattle.std.specs.Prelude.{◌≡◌, length};
    ghost use Rattle.plan_tables.specs.declared.table.Table.TheVariants.{Switches, Coils};
    ghost use Rattle.plan_tables.specs.PlanFields.{name_sets_view, plan_view, HasFeeders, HasModeBindings, HasModeRows};
    ghost use Rattle.plan_tables.specs.PlanFields.{HasPlaces, HasWorks};
    ghost use Rattle.plan_tables.specs.Valid.{IsValid};

    ghost view = { plan_view };

    ghost invariant = { λ p. IsValid (plan_view p) × HasPlaces (plan_view p) p.places.items
        × HasWorks (plan_view p) p.works.items
        × (length p.tables.switches.items ≡ length (name_sets_view p.tables.names Switches))
        × (length p.tables.coils.items ≡ length (name_sets_view p.tables.names Coils))
        × HasModeBindings (plan_view p) p.mode_bindings.items × HasModeRows (plan_view p) p.mode_rows.items
        × HasFeeders (plan_view p) p.feeders.items };
}

impl Plan {
    ghost use Rattle.std.specs.Prelude.{◌≡◌, ◌<◌, length, slice_get, Contains, IfSome, IfNone, IfOk};
    ghost use Rattle.plan_tables.specs.PlanView.{name_of_event, event_named, game_event, name_of_variable};
    ghost use Rattle.plan_tables.specs.PlanView.{variable_named, mode_at, may_hold_ball_end, switch_at, switch_named};
    ghost use Rattle.plan_tables.specs.PlanView.{listeners_of, posts_of, coil_at, coil_named, actions_at, places_of};
    ghost use Rattle.plan_tables.specs.PlanView.{row_at, rows_of, feeders_of, list_of_row, first_trough, work_of};
    ghost use Rattle.plan_tables.specs.declared.table.Table.TheVariants.{Switches, Coils};
    ghost use Rattle.plan_tables.specs.PlanFields.{name_sets_view, tables_view};
    ghost use Rattle.std.specs.List.{All};
    ghost use Rattle.plan_tables.specs.declared.entries.Owner.TheVariants as owners;
    ghost use Rattle.plan_tables.specs.Owned.{bindings_of_owner};
    ghost use Rattle.plan_tables.specs.Valid.{HasGame, IsRowWithin, IsTargetThere, IsValid, IsWorkAt};
    ghost use Rattle.plan_tables.specs.Devices.{IsWithinLimits, list_count};

    /// The plan of these tables, which have to be valid, with a name for each switch and each coil.
    ///
    /// # Errors
    ///
    /// `AllocError`: memory ran out.
    pub fn new(alloc: Global, tables: Tables) -> Result<Plan, AllocError>
        requires valid { IsValid (tables_view tables) }
        requires switches { length tables.switches.items ≡ length (name_sets_view tables.names Switches) }
        requires coils { length tables.coils.items ≡ length (name_sets_view tables.names Coils) }
        ensures { IfOk result (λ p. p ≡ tables_view tables) }
    {
        let events = tables.names.of(Table::Events).len();
        let places = places_by_event(alloc, events, &tables.bindings)?;
        let works = works_by_event(alloc, events, &tables.modes, tables.game)?;
        let modes = tables.modes.len();
        let mode_bindings = bindings_by_mode(alloc, modes, &tables.bindings)?;
        let mode_rows = rows_by_mode(alloc, modes, &tables.rows)?;
        let feeders = feeders_by_target(alloc, &tables.rows)?;
        Ok(Plan {
            tables,
            places,
            works,
            mode_bindings,
            mode_rows,
            feeders,
        })
    }

    /// How many events there are. They are numbered from 0.
    pub fn event_count(&self) -> usize
        ensures count { result ≡ length self.now.events }
        ensures valid { IsValid self.now }
    {
        self.tables.names.of(Table::Events).len()
    }

    /// The name of an event of the plan.
    pub fn event_name(&self, event: EventId) -> &[u8]
        requires { event.0 < length self.now.events }
        ensures name { result.now ≡ name_of_event self.now event }
        ensures valid { IsValid self.now }
    {
        let names = self.tables.names.of(Table::Events).as_slice();
        names[event.0 as usize].as_slice()
    }

    /// The event of this name; none if no event has it.
    pub fn find_event(&self, name: &[u8]) -> Option<EventId>
        ensures event { result ≡ event_named self.now name.now }
        ensures found { IfSome result (λ e. slice_get self.now.events e.0 ≡ Some name.now) }
        ensures absent { IfNone result (¬ (Contains self.now.events name.now)) }
        ensures valid { IsValid self.now }
    {
        let place = self.tables.names.of(Table::Events).get_index_of(name)?;
        Some(EventId(place as u16))
    }

    /// What the machine itself does when it takes an event of the plan.
    pub fn work(&self, event: EventId) -> Work
        requires { event.0 < length self.now.events }
        ensures work { result ≡ work_of self.now event }
        ensures found { IsWorkAt self.now event result }
        ensures valid { IsValid self.now }
    {
        self.works[event.0 as usize]
    }

    /// How many modes there are. They are numbered from 0.
    pub fn mode_count(&self) -> usize
        ensures count { result ≡ length self.now.modes }
        ensures valid { IsValid self.now }
    {
        self.tables.modes.len()
    }

    /// The name of a mode of the plan.
    pub fn mode_name(&self, mode: ModeId) -> &[u8]
        requires { mode.0 < length self.now.modes }
        ensures name { result.now ≡ (mode_at self.now mode).name }
        ensures valid { IsValid self.now }
    {
        &self.tables.modes[mode.0 as usize].name
    }

    /// What the plan says of a mode of it.
    pub fn mode(&self, mode: ModeId) -> Mode
        requires { mode.0 < length self.now.modes }
        ensures mode { result ≡ (mode_at self.now mode).mode }
        ensures valid { IsValid self.now }
    {
        self.tables.modes[mode.0 as usize].mode
    }

    /// Whether a mode of the plan may hold the end of the ball: its settings say so, and there is a game.
    pub fn may_hold_ball_end(&self, mode: ModeId) -> bool
        requires { mode.0 < length self.now.modes }
        ensures holds { result ≡ may_hold_ball_end self.now mode }
        ensures valid { IsValid self.now }
    {
        self.tables.game.is_some() && self.tables.modes[mode.0 as usize].mode.holds_ball_end
    }

    /// How many switches there are. They are numbered from 0.
    pub fn switch_count(&self) -> usize
        ensures count { result ≡ length self.now.switches }
        ensures valid { IsValid self.now }
    {
        self.tables.switches.len()
    }

    /// The name of a switch of the plan.
    pub fn switch_name(&self, switch: SwitchId) -> &[u8]
        requires { switch.0 < length self.now.switches }
        ensures name { result.now ≡ (switch_at self.now switch).name }
        ensures valid { IsValid self.now }
    {
        let names = self.tables.names.of(Table::Switches).as_slice();
        names[switch.0 as usize].as_slice()
    }

    /// The switch of this name; none if no switch has it.
    pub fn find_switch(&self, name: &[u8]) -> Option<SwitchId>
        ensures switch { result ≡ switch_named self.now name.now }
        ensures found { IfSome result (λ s. (switch_at self.now s).name ≡ name.now) }
        ensures within { IfSome result (λ s. s.0 < length self.now.switches) }
        ensures valid { IsValid self.now }
    {
        let place = self.tables.names.of(Table::Switches).get_index_of(name)?;
        Some(SwitchId(place as u16))
    }

    /// How a switch of the plan is read.
    pub fn switch_kind(&self, switch: SwitchId) -> SwitchKind
        requires { switch.0 < length self.now.switches }
        ensures kind { result ≡ (switch_at self.now switch).kind }
        ensures valid { IsValid self.now }
    {
        self.tables.switches[switch.0 as usize].kind
    }

    /// The devices that listen to a switch of the plan, in the order of their rows.
    pub fn listeners(&self, switch: SwitchId) -> &[Listener]
        requires { switch.0 < length self.now.switches }
        ensures listeners { result.now ≡ listeners_of self.now switch }
        ensures valid { IsValid self.now }
    {
        self.tables.switches[switch.0 as usize].listeners.as_slice()
    }

    /// Whether a ball that presses a switch of the plan has arrived on the playfield.
    pub fn confirms_playfield(&self, switch: SwitchId) -> bool
        requires { switch.0 < length self.now.switches }
        ensures confirms { result ≡ (switch_at self.now switch).confirms_playfield }
        ensures valid { IsValid self.now }
    {
        self.tables.switches[switch.0 as usize].confirms_playfield
    }

    /// What a switch of the plan posts, in order, when it becomes active, or inactive.
    pub fn posts(&self, switch: SwitchId, active: bool) -> &[EventId]
        requires { switch.0 < length self.now.switches }
        ensures posts { result.now ≡ posts_of self.now switch active }
        ensures valid { IsValid self.now }
    {
        let posts = &self.tables.switches[switch.0 as usize];
        if active {
            posts.active.as_slice()
        } else {
            posts.inactive.as_slice()
        }
    }

    /// How many coils there are. They are numbered from 0.
    pub fn coil_count(&self) -> usize
        ensures count { result ≡ length self.now.coils }
        ensures valid { IsValid self.now }
    {
        self.tables.coils.len()
    }

    /// The name of a coil of the plan.
    pub fn coil_name(&self, coil: CoilId) -> &[u8]
        requires { coil.0 < length self.now.coils }
        ensures name { result.now ≡ (coil_at self.now coil).name }
        ensures valid { IsValid self.now }
    {
        let names = self.tables.names.of(Table::Coils).as_slice();
        names[coil.0 as usize].as_slice()
    }

    /// The coil of this name; none if no coil has it.
    pub fn find_coil(&self, name: &[u8]) -> Option<CoilId>
        ensures coil { result ≡ coil_named self.now name.now }
        ensures found { IfSome result (λ c. (coil_at self.now c).name ≡ name.now) }
        ensures within { IfSome result (λ c. c.0 < length self.now.coils) }
        ensures valid { IsValid self.now }
    {
        let place = self.tables.names.of(Table::Coils).get_index_of(name)?;
        Some(CoilId(place as u16))
    }

    /// What a coil of the plan may be sent.
    pub fn coil_limits(&self, coil: CoilId) -> CoilLimits
        requires { coil.0 < length self.now.coils }
        ensures limits { result ≡ (coil_at self.now coil).limits }
        ensures valid { IsValid self.now }
    {
        self.tables.coils[coil.0 as usize]
    }

    /// How many variables there are. They are numbered from 0.
    pub fn variable_count(&self) -> usize
        ensures count { result ≡ length self.now.variables }
        ensures valid { IsValid self.now }
    {
        self.tables.names.of(Table::Variables).len()
    }

    /// The name of a variable of the plan.
    pub fn variable_name(&self, variable: VariableId) -> &[u8]
        requires { variable.0 < length self.now.variables }
        ensures name { result.now ≡ name_of_variable self.now variable }
        ensures valid { IsValid self.now }
    {
        let names = self.tables.names.of(Table::Variables).as_slice();
        names[variable.0 as usize].as_slice()
    }

    /// The variable of this name; none if no variable has it.
    pub fn find_variable(&self, name: &[u8]) -> Option<VariableId>
        ensures variable { result ≡ variable_named self.now name.now }
        ensures found { IfSome result (λ v. slice_get self.now.variables v.0 ≡ Some name.now) }
        ensures absent { IfNone result (¬ (Contains self.now.variables name.now)) }
        ensures valid { IsValid self.now }
    {
        let place = self.tables.names.of(Table::Variables).get_index_of(name)?;
        Some(VariableId(place as u16))
    }

    /// The rules of the game; none if the plan has no game.
    pub fn game(&self) -> Option<GameRules>
        ensures game { result ≡ self.now.game }
        ensures valid { IsValid self.now }
    {
        self.tables.game
    }

    /// This one of the events of the plan's game.
    pub fn game_event(&self, which: GameEvent) -> EventId
        requires { HasGame self.now }
        ensures event { result ≡ game_event self.now which }
        ensures within { result.0 < length self.now.events }
    {
        self.tables.game.unwrap().events[which.index()]
    }

    /// How many effect lists there are. They are numbered from 0.
    pub fn list_count(&self) -> usize
        ensures count { result ≡ length self.now.lists }
        ensures valid { IsValid self.now }
    {
        self.tables.lists.len()
    }

    /// The actions of an effect list of the plan, in order.
    pub fn list(&self, list: ListId) -> &[Action]
        requires { list.0 < length self.now.lists }
        ensures actions { result.now ≡ actions_at self.now list }
        ensures valid { IsValid self.now }
    {
        self.tables.lists[list.0 as usize].as_slice()
    }

    /// How many bindings there are. They are numbered from 0.
    pub fn binding_count(&self) -> usize
        ensures count { result ≡ length self.now.bindings }
        ensures valid { IsValid self.now }
    {
        self.tables.bindings.len()
    }

    /// A binding of the plan.
    pub fn binding(&self, binding: BindingId) -> Binding
        requires { binding.0 < length self.now.bindings }
        ensures binding { slice_get self.now.bindings binding.0 ≡ Some result }
        ensures valid { IsValid self.now }
    {
        self.tables.bindings[binding.0 as usize]
    }

    /// The bindings of an event of the plan, by their places, in plan order.
    pub fn bindings_of(&self, event: EventId) -> &[BindingId]
        requires { event.0 < length self.now.events }
        ensures places { result.now ≡ places_of self.now event }
        ensures valid { IsValid self.now }
    {
        self.places[event.0 as usize].as_slice()
    }

    /// All bindings, in plan order.
    pub fn bindings(&self) -> &[Binding]
        ensures bindings { result.now ≡ self.now.bindings }
        ensures valid { IsValid self.now }
    {
        &self.tables.bindings
    }

    /// The rows of devices, in plan order. They are numbered from 0.
    pub fn rows(&self) -> &[DeviceRow]
        ensures rows { result.now ≡ self.now.rows }
        ensures valid { IsValid self.now }
    {
        &self.tables.rows
    }

    /// The row of a device of the plan.
    pub fn row(&self, row: RowId) -> DeviceRow
        requires { row.0 < length self.now.rows }
        ensures row { result ≡ row_at self.now row }
        ensures within { IsRowWithin self.now row }
        ensures limits { IsWithinLimits result.settings }
        ensures valid { IsValid self.now }
    {
        self.tables.rows[row.0 as usize]
    }

    /// The bindings of a mode of the plan, by their places, in plan order.
    pub fn bindings_of_mode(&self, mode: ModeId) -> &[BindingId]
        requires { mode.0 < length self.now.modes }
        ensures places { result.now ≡ bindings_of_owner self.now (owners.Mode mode) }
        ensures within { All (λ b. b.0 < length self.now.bindings) result.now }
        ensures valid { IsValid self.now }
    {
        self.mode_bindings[mode.0 as usize].as_slice()
    }

    /// The rows of a mode of the plan, in plan order.
    pub fn rows_of_mode(&self, mode: ModeId) -> &[RowId]
        requires { mode.0 < length self.now.modes }
        ensures rows { result.now ≡ rows_of self.now (owners.Mode mode) }
        ensures within { All (λ r. r.0 < length self.now.rows) result.now }
        ensures valid { IsValid self.now }
    {
        self.mode_rows[mode.0 as usize].as_slice()
    }

    /// The ball devices that eject their balls to a target of the plan, in plan order.
    pub fn feeders(&self, target: BallTarget) -> &[RowId]
        requires { IsTargetThere (length self.now.rows) target }
        ensures feeders { result.now ≡ feeders_of self.now target }
        ensures within { All (λ r. r.0 < length self.now.rows) result.now }
        ensures valid { IsValid self.now }
    {
        self.feeders[target_place(target)].as_slice()
    }

    /// The first trough, in plan order; none if the plan has no trough.
    pub fn first_trough(&self) -> Option<RowId>
        ensures trough { result ≡ first_trough self.now }
        ensures within { IfSome result (λ r. r.0 < length self.now.rows) }
        ensures valid { IsValid self.now }
    {
        let place = place_of_trough(self.tables.rows.as_slice())?;
        Some(RowId(place as u16))
    }

    /// An effect list of a row of the plan, by its number from 0 in the row.
    pub fn list_of_row(&self, row: RowId, list: u16) -> ListId
        requires row { row.0 < length self.now.rows }
        requires list { list < list_count (row_at self.now row).settings }
        ensures list { result ≡ list_of_row self.now row list }
        ensures within { result.0 < length self.now.lists }
        ensures valid { IsValid self.now }
    {
        ListId(self.tables.row_lists[row.0 as usize].0 + u32::from(list))
    }
}
