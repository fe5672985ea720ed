//! Coil rules: the entries of `flippers` and `autofire_coils`, by the names of their settings.

ghost use Rattle.std.specs.Prelude.{◌≡◌, option_map};
ghost use Rattle.mpf_sections.specs.CoilRules.{IsCoilRuleOf, coil_rule_view, coil_rules, name_at, quick_place, rule_by};
ghost use Rattle.mpf_sections.specs.CoilRules.{switch_at};
ghost use Rattle.mpf_sections.specs.TypedOf.{IsNeededAt};
ghost use Rattle.mpf_sections.specs.View.{entry_view, name_at_view};
ghost use Rattle.mpf_tables.specs.SectionTables.{named_in};

use crate::typed::NameAt;
use crate::values::{handlers_at, name_in, text};
use mpf_tables::tables::{AUTOFIRE_COILS_NAME, FLIPPERS_NAME};
use section_tables::rows::Entry;
use setting_values::values::{Handler, Name};

/// The kinds of coil rules.
#[derive(Clone, Copy)]
pub enum RuleKind {
    Flipper,
    Autofire,
}

/// How the entries of a section say a coil rule: of what kind it is, and the places of its settings
/// in the table of the section.
#[derive(Clone, Copy)]
pub struct RuleForm {
    pub kind: RuleKind,
    /// The place of its coil.
    pub coil: usize,
    /// The place of another coil that it may hold, if the table has such a setting.
    pub hold_coil: Option<usize>,
    /// The place of the switch at which it acts, if the table has such a setting.
    pub switch: Option<usize>,
    /// The place of the events that enable it.
    pub enables: usize,
    /// The place of the events that disable it.
    pub disables: usize,
}

/// An entry that does something with a coil: a flipper, or an autofire coil.
#[derive(Clone, Copy)]
pub struct CoilRule<'a> {
    pub form: RuleForm,
    pub name: &'a Name,
    /// Its coil, which lifts a flipper.
    pub coil: NameAt<'a>,
    /// The coil that holds a flipper up, if there is another for that: by default there is none.
    pub hold_coil: Option<NameAt<'a>>,
    /// The switch at which it acts: the button of a flipper, or the one that fires an autofire coil.
    pub switch: Option<NameAt<'a>>,
    /// The events that enable it: by default `ball_started`, at line 0.
    pub enables: &'a [Handler],
    /// The events that disable it: by default `ball_will_end`, at line 0.
    pub disables: &'a [Handler],
    /// The settings that are written, by their places in the table, in the order in which they are
    /// written.
    pub order: &'a [usize],
}

/// The form of the entries of `flippers`.
const FLIPPER: RuleForm = RuleForm {
    kind: RuleKind::Flipper,
    coil: 0,
    hold_coil: Some(1),
    switch: Some(2),
    enables: 3,
    disables: 4,
};

/// The form of the entries of `autofire_coils`.
const AUTOFIRE: RuleForm = RuleForm {
    kind: RuleKind::Autofire,
    coil: 0,
    hold_coil: None,
    switch: Some(1),
    enables: 2,
    disables: 3,
};

/// The sections whose entries are coil rules.
pub const COIL_RULE_SECTIONS: [&[u8]; 2] = [FLIPPERS_NAME, AUTOFIRE_COILS_NAME];

/// The form of the entries of the section of this name, if they are coil rules.
fn form_of(section: &[u8]) -> Option<RuleForm>
    ensures { result ≡ named_in section.now coil_rules }
{
    if section == FLIPPERS_NAME {
        return Some(FLIPPER);
    }
    if section == AUTOFIRE_COILS_NAME {
        return Some(AUTOFIRE);
    }
    None
}

/// The place, in the table of the section of this name, of the setting that names the switch which
/// an entry makes quick: coil rules with a switch do so.
pub fn quick_switch(section: &[u8]) -> Option<usize>
    ensures { result ≡ quick_place section.now }
{
    match form_of(section) {
        Some(form) => form.switch,
        None => None,
    }
}

/// The name at a place of an entry, where one has to be written; the entry's own in a row that no
/// table gives.
pub fn needed_name(entry: &Entry, at: usize) -> NameAt<'_>
    ensures { IsNeededAt at entry.now result }
{
    match name_in(text(entry, at)) {
        Some(name) => name,
        None => NameAt {
            line: entry.name.line,
            text: &entry.name.text,
        },
    }
}

/// The name at a place of an entry, if there is a place for it, and one is written.
fn name_at(entry: &Entry, at: Option<usize>) -> Option<NameAt<'_>>
    ensures { option_map name_at_view result ≡ name_at at (entry_view entry.now) }
{
    match at {
        Some(at) => name_in(text(entry, at)),
        None => None,
    }
}

/// The name at a place of an entry, where one has to be written if there is a place for it.
fn switch_at(entry: &Entry, at: Option<usize>) -> Option<NameAt<'_>>
    ensures { option_map name_at_view result ≡ switch_at at (entry_view entry.now) }
{
    match at {
        Some(at) => Some(needed_name(entry, at)),
        None => None,
    }
}

/// A coil rule, from an entry of this form.
#[tactic(auto, unfolding(crate::specs::CoilRules::rule_by))]
fn as_rule(entry: &Entry, form: RuleForm) -> CoilRule<'_>
    ensures { coil_rule_view result ≡ rule_by form (entry_view entry.now) }
{
    CoilRule {
        form,
        name: &entry.name,
        coil: needed_name(entry, form.coil),
        hold_coil: name_at(entry, form.hold_coil),
        switch: switch_at(entry, form.switch),
        enables: handlers_at(entry, form.enables),
        disables: handlers_at(entry, form.disables),
        order: entry.order(),
    }
}

/// The coil rule that an entry of the section of this name is; none if it is no coil rule.
pub fn as_coil_rule<'a>(section: &[u8], entry: &'a Entry) -> Option<CoilRule<'a>>
    ensures { IsCoilRuleOf section.now entry.now result }
{
    match form_of(section) {
        Some(form) => Some(as_rule(entry, form)),
        None => None,
    }
}
