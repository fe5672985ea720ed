//! How many coils a mode may hold when it stops.

ghost use Rattle.std.specs.Prelude.{◌≡◌, ◌<◌, ◌≤◌, ◌∷◌, [], length};
ghost use Rattle.std.specs.List.{All, filter, flat_map, range_with_len};
ghost use Rattle.plan_tables.specs.declared.entries.Owner.TheVariants as owners;
ghost use Rattle.plan_tables.specs.Devices.{list_count};
ghost use Rattle.plan_tables.specs.PlanView.{actions_at, list_of_row, row_at, actions_of_target, actions_of_binding};
ghost use Rattle.plan_tables.specs.PlanView.{actions_of_row, coils_enabled, row_numbers};
ghost use Rattle.plan_tables.specs.Valid.{IsTargetWithin};
ghost use Rattle.cascade_rank.specs.Marks.{AreMarked, IsCoilMarked, mark_of, coil_ids};

use plan_tables::{Action, ModeId, Plan, RowId, Target};

/// How many coils the mode's actions enable.
pub(crate) fn count_enabled(plan: &Plan, mode: ModeId) -> usize
    requires { mode.0 < length plan.now.modes }
    ensures { result ≡ length (coils_enabled plan.now (owners.Mode mode)) }
{
    let mut marks = [false; 256];
    mark_bindings(plan, mode, &mut marks);
    mark_rows(plan, mode, &mut marks);
    count_marked(&marks, plan.coil_count())
}

/// Marks what the bindings of the mode enable.
fn mark_bindings(plan: &Plan, mode: ModeId, marks: &mut [bool])
    requires mode { mode.0 < length plan.now.modes }
    requires marks { length marks.old ≡ 256 }
    ensures { AreMarked marks.old (flat_map (actions_of_binding plan.now (owners.Mode mode)) plan.now.bindings)
        marks.new }
{
    for place in plan.bindings_of_mode(mode) {
        mark_target(plan, plan.binding(*place).target, marks);
    }
}

fn mark_target(plan: &Plan, target: Target, marks: &mut [bool])
    requires target { IsTargetWithin plan.now target }
    requires marks { length marks.old ≡ 256 }
    ensures { AreMarked marks.old (actions_of_target plan.now target) marks.new }
{
    if let Target::Run(list) = target {
        mark_actions(plan.list(list), marks);
    }
}

/// Marks what the rows of the mode enable.
fn mark_rows(plan: &Plan, mode: ModeId, marks: &mut [bool])
    requires mode { mode.0 < length plan.now.modes }
    requires marks { length marks.old ≡ 256 }
    ensures { AreMarked marks.old (flat_map (actions_of_row plan.now (owners.Mode mode)) (row_numbers plan.now))
        marks.new }
{
    for row in plan.rows_of_mode(mode) {
        mark_lists(plan, *row, marks);
    }
}

/// Marks what the effect lists of a row enable.
fn mark_lists(plan: &Plan, row: RowId, marks: &mut [bool])
    requires row { row.0 < length plan.now.rows }
    requires marks { length marks.old ≡ 256 }
    ensures { AreMarked marks.old (flat_map (λ k. actions_at plan.now (list_of_row plan.now row k))
        (range_with_len 0 (list_count (row_at plan.now row).settings))) marks.new }
{
    let count = plan.row(row).settings.list_count() as u16;
    for list in 0..count {
        mark_actions(plan.list(plan.list_of_row(row, list)), marks);
    }
}

fn mark_actions(actions: &[Action], marks: &mut [bool])
    requires coils { All IsCoilMarked actions.now }
    requires marks { length marks.old ≡ 256 }
    ensures { AreMarked marks.old actions.now marks.new }
{
    for action in actions {
        mark_action(*action, marks);
    }
}

/// Marks the coil that an action enables, if it does that.
fn mark_action(action: Action, marks: &mut [bool])
    requires coil { IsCoilMarked action }
    requires marks { length marks.old ≡ 256 }
    ensures { AreMarked marks.old (action ∷ []) marks.new }
{
    if let Action::Enable { coil, .. } = action {
        marks[coil.0 as usize] = true;
    }
}

/// How many of so many coils are marked.
fn count_marked(marks: &[bool], count: usize) -> usize
    requires { count ≤ length marks.now }
    ensures { result ≡ length (filter (mark_of marks.now) (coil_ids count)) }
{
    let mut total = 0;
    for number in 0..count {
        if marks[number] {
            total += 1;
        }
    }
    total
}
