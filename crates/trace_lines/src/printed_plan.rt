//! A plan, with what lines say of its modes, events, switches and variables.

ghost use Rattle.std.specs.Prelude.{◌≡◌, ◌++◌, [], map, IfOk, MatchOption};
ghost use Rattle.plan_tables.specs.PlanView.{mode_at};
ghost use Rattle.trace_lines.specs.LineTails.{event_tail, switch_tail, variable_word, event_tail_named};
ghost use Rattle.trace_lines.specs.LineTails.{switch_tail_named, switch_tails_of, variable_word_named, name_of_mode};

use crate::phrase::Phrase;
use plan_tables::{EventId, ModeId, Plan, SwitchId, VariableId};
use std::alloc::{AllocError, Global};
use std::marker::Model;

/// What the lines of a switch say after their owner, by the level.
#[derive(Drop)]
pub struct SwitchTails {
    /// ` switch NAME inactive`, and LF.
    pub inactive: Phrase,
    /// ` switch NAME active`, and LF.
    pub active: Phrase,
}

/// A plan whose trace is printed. What lines say of a mode, an event, a switch or a variable is put
/// together once, when this is made.
#[derive(Drop)]
pub struct PrintedPlan<'p> {
    plan: &'p Plan,
    /// The name of each mode.
    mode_names: Vec<Phrase>,
    /// Of each event ` event NAME`, and LF.
    event_tails: Vec<Phrase>,
    switch_tails: Vec<SwitchTails>,
    /// Of each variable `NAME `.
    variable_words: Vec<Phrase>,
}

impl<'p> Model for PrintedPlan<'p> {
    ghost use Rattle.std.specs.Prelude.{◌≡◌, map};
    ghost use Rattle.plan_tables.specs.PlanView.{PlanView};
    ghost use Rattle.trace_lines.specs.LineTails.{name_of_mode, event_tail_named, switch_tails_of, variable_word_named};

    ghost Value = { PlanView };

    ghost view = { λ t. t.plan.now };

    ghost invariant = { λ t. (t.mode_names.items ≡ map name_of_mode t.plan.now.modes)
        × (t.event_tails.items ≡ map event_tail_named t.plan.now.events)
        × (t.switch_tails.items ≡ map switch_tails_of t.plan.now.switches)
        × (t.variable_words.items ≡ map variable_word_named t.plan.now.variables) };
}

impl<'p> PrintedPlan<'p> {
    /// Makes these texts of a plan.
    ///
    /// # Errors
    ///
    /// Memory ran out.
    pub fn new(alloc: Global, plan: &'p Plan) -> Result<PrintedPlan<'p>, AllocError>
        ensures { IfOk result (λ printed. printed ≡ plan.now) }
    {
        let mode_names = mode_names(alloc, plan)?;
        let event_tails = event_tails(alloc, plan)?;
        let switch_tails = switch_tails(alloc, plan)?;
        let variable_words = variable_words(alloc, plan)?;
        Ok(PrintedPlan {
            plan,
            mode_names,
            event_tails,
            switch_tails,
            variable_words,
        })
    }

    /// The plan itself.
    pub fn tables(&self) -> &'p Plan
        ensures { result.now ≡ self.now }
    {
        self.plan
    }

    /// The name of a mode: none if the plan lacks the mode.
    pub(crate) fn mode_name(&self, mode: ModeId) -> Option<&Phrase>
        ensures { MatchOption result ((mode_at self.now mode).name ≡ [])
            (λ name. name.now ≡ (mode_at self.now mode).name) }
    {
        self.mode_names.get(mode.0 as usize)
    }

    /// ` event NAME`, and LF: none if the plan lacks the event.
    pub(crate) fn event_tail(&self, event: EventId) -> Option<&Phrase>
        ensures { MatchOption result (event_tail self.now event ≡ event_tail_named [])
            (λ tail. tail.now ≡ event_tail self.now event) }
    {
        self.event_tails.get(event.0 as usize)
    }

    /// ` switch NAME active`, or `inactive`, and LF: none if the plan lacks the switch.
    pub(crate) fn switch_tail(&self, switch: SwitchId, active: bool) -> Option<&Phrase>
        ensures { MatchOption result (switch_tail self.now switch active ≡ switch_tail_named [] active)
            (λ tail. tail.now ≡ switch_tail self.now switch active) }
    {
        let tails = self.switch_tails.get(switch.0 as usize)?;
        if active {
            Some(&tails.active)
        } else {
            Some(&tails.inactive)
        }
    }

    /// `NAME `: none if the plan lacks the variable.
    pub(crate) fn variable_word(&self, variable: VariableId) -> Option<&Phrase>
        ensures { MatchOption result (variable_word self.now variable ≡ variable_word_named [])
            (λ word. word.now ≡ variable_word self.now variable) }
    {
        self.variable_words.get(variable.0 as usize)
    }
}

/// The name of each mode.
fn mode_names(alloc: Global, plan: &Plan) -> Result<Vec<Phrase>, AllocError>
    ensures { IfOk result (λ names. names.items ≡ map name_of_mode plan.now.modes) }
{
    let mut names = Vec::with_capacity(alloc, plan.mode_count())?;
    for number in 0..plan.mode_count() {
        let name = Phrase::new(alloc, plan.mode_name(ModeId(number as u16)))?;
        names.push(name)?;
    }
    Ok(names)
}

/// What the lines of each event say after their owner.
fn event_tails(alloc: Global, plan: &Plan) -> Result<Vec<Phrase>, AllocError>
    ensures { IfOk result (λ tails. tails.items ≡ map event_tail_named plan.now.events) }
{
    let mut tails = Vec::with_capacity(alloc, plan.event_count())?;
    for number in 0..plan.event_count() {
        let name = plan.event_name(EventId(number as u16));
        let tail = phrase_of(alloc, b" event ", name, b"\n")?;
        tails.push(tail)?;
    }
    Ok(tails)
}

/// What the lines of each switch say after their owner.
fn switch_tails(alloc: Global, plan: &Plan) -> Result<Vec<SwitchTails>, AllocError>
    ensures { IfOk result (λ tails. tails.items ≡ map switch_tails_of plan.now.switches) }
{
    let mut tails = Vec::with_capacity(alloc, plan.switch_count())?;
    for number in 0..plan.switch_count() {
        let name = plan.switch_name(SwitchId(number as u16));
        let inactive = phrase_of(alloc, b" switch ", name, b" inactive\n")?;
        let active = phrase_of(alloc, b" switch ", name, b" active\n")?;
        tails.push(SwitchTails { inactive, active })?;
    }
    Ok(tails)
}

/// The name of each variable, and a blank.
fn variable_words(alloc: Global, plan: &Plan) -> Result<Vec<Phrase>, AllocError>
    ensures { IfOk result (λ words. words.items ≡ map variable_word_named plan.now.variables) }
{
    let mut words = Vec::with_capacity(alloc, plan.variable_count())?;
    for number in 0..plan.variable_count() {
        let name = plan.variable_name(VariableId(number as u16));
        let word = phrase_of(alloc, b"", name, b" ")?;
        words.push(word)?;
    }
    Ok(words)
}

/// Three texts, one after the other.
fn phrase_of(alloc: Global, word: &[u8], name: &[u8], end: &[u8]) -> Result<Phrase, AllocError>
    ensures { IfOk result (λ phrase. phrase ≡ word.now ++ name.now ++ end.now) }
{
    let mut text = Vec::from_slice(alloc, word)?;
    text.extend_from_slice(name)?;
    text.extend_from_slice(end)?;
    Phrase::new(alloc, &text)
}
