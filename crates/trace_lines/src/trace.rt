//! The lines of a trace, as text.

ghost use Rattle.std.specs.Prelude.{◌≡◌, ◌+◌, ◌≤◌, OnOk, [], ◌∷◌, ◌++◌, codes, length};
ghost use Rattle.std.specs.List.{flat_map};
ghost use Rattle.std.specs.Fmt.{decimal, signed_decimal};
ghost use Rattle.std.specs.Io.KnownBytes.{Appends};
ghost use Rattle.plan_tables.specs.PlanView.{mode_at, name_of_variable, coil_at};
ghost use Rattle.coil_guard.specs.SentCommands.{coil_of};
ghost use Rattle.trace_lines.specs.LineText.{word_text, sent_text, skip_text, player_text, balls_text, rest_text};
ghost use Rattle.trace_lines.specs.LineText.{owner_text, line_text, off_text, off_texts};
ghost use Rattle.trace_lines.specs.LineTails.{variable_word};
ghost use Rattle.trace_lines.specs.Pages.{Puts};

use crate::front::{DIGITS, Front, MACHINE_LENGTH, START};
use crate::page::{Page, SHORT, WriteFailed};
use crate::printed_plan::PrintedPlan;
use coil_guard::Command;
use itoa::write_digits;
use plan_tables::{CoilId, ModeId, Owner, Plan, VariableId};
use std::io::{self, Write};
use written_machine::line::BallCounts;
use written_machine::{Happening, Line};

/// Room for what most lines have after their owner.
const TAIL: usize = SHORT;

/// Room for what most lines of a mode have after their front.
const NAME_AND_TAIL: usize = SHORT + TAIL;

/// Room for most lines of the machine, and for most lines of a mode.
const MACHINE_LINE: usize = START + TAIL;

const MODE_LINE: usize = START + NAME_AND_TAIL;

/// Puts the lines of a stimulus on the page.
pub fn put_trace<W: Write>(
    plan: &PrintedPlan<'_>,
    lines: &[Line],
    page: &mut Page,
    writer: &mut W,
) -> Result<(), WriteFailed>
    ensures { OnOk result (Puts (W.contents writer.old) page.old (W.contents writer.new) page.new
        (flat_map (line_text plan.now) lines.now)) }
{
    match lines.first() {
        None => Ok(()),
        Some(first) => put_lines(plan, Front::new(first.moment), lines, page, writer),
    }
}

/// Puts lines on the page, whatever moment the front is of. It is made anew only if a line is of
/// another moment than the one before.
fn put_lines<W: Write>(
    plan: &PrintedPlan<'_>,
    mut front: Front,
    lines: &[Line],
    page: &mut Page,
    writer: &mut W,
) -> Result<(), WriteFailed>
    ensures { OnOk result (Puts (W.contents writer.old) page.old (W.contents writer.new) page.new
        (flat_map (line_text plan.now) lines.now)) }
{
    for line in lines {
        front.turn_to(line.moment);
        put_owner(plan, line.owner, &front, page, writer)?;
        put_tail(plan, &line.happening, page, writer)?;
    }
    Ok(())
}

/// Writes that these coils were turned off at a moment.
pub fn write_off<W: Write>(
    plan: &Plan,
    moment: u64,
    coils: &[CoilId],
    writer: &mut W,
) -> io::Result<()>
    ensures { OnOk result (Appends (W.contents writer.old) (W.contents writer.new)
        (off_texts plan.now moment coils.now)) }
{
    for coil in coils {
        write_coil_off(plan, moment, *coil, writer)?;
    }
    Ok(())
}

fn write_coil_off<W: Write>(
    plan: &Plan,
    moment: u64,
    coil: CoilId,
    writer: &mut W,
) -> io::Result<()>
    ensures { OnOk result (Appends (W.contents writer.old) (W.contents writer.new) (off_text plan.now moment coil)) }
{
    write!(writer, "{moment} machine off ")?;
    writer.write_all(coil_name(plan, coil))?;
    writer.write_all(b"\n")
}

/// Puts the moment and the owner on the page, and makes room there for what most lines have after them.
fn put_owner<W: Write>(
    plan: &PrintedPlan<'_>,
    owner: Owner,
    front: &Front,
    page: &mut Page,
    writer: &mut W,
) -> Result<(), WriteFailed>
    ensures puts { OnOk result (Puts (W.contents writer.old) page.old (W.contents writer.new) page.new
        (decimal front.now ++ codes " " ++ owner_text plan.now owner)) }
    ensures room { OnOk result (length page.new + 32 ≤ 4096) }
{
    match owner {
        Owner::Machine => {
            page.make_room::<MACHINE_LINE, W>(writer)?;
            page.add_start::<START>(front.text(), front.digits() + MACHINE_LENGTH);
            Ok(())
        }
        Owner::Mode(mode) => {
            page.make_room::<MODE_LINE, W>(writer)?;
            // The digits, and the blank after them.
            page.add_start::<START>(front.text(), front.digits() + 1);
            put_mode_name(plan, mode, page, writer)
        }
    }
}

/// Puts the name of a mode on the page: nothing if the plan lacks it.
fn put_mode_name<W: Write>(
    plan: &PrintedPlan<'_>,
    mode: ModeId,
    page: &mut Page,
    writer: &mut W,
) -> Result<(), WriteFailed>
    requires { length page.old + 64 ≤ 4096 }
    ensures puts { OnOk result (Puts (W.contents writer.old) page.old (W.contents writer.new) page.new
        (mode_at plan.now mode).name) }
    ensures room { OnOk result (length page.new + 32 ≤ 4096) }
{
    match plan.mode_name(mode) {
        Some(name) => page.add_phrase::<TAIL, W>(name, writer),
        None => page.make_room::<TAIL, W>(writer),
    }
}

/// Puts what comes after the owner on the page: the word that says what happened, and what follows
/// it.
fn put_tail<W: Write>(
    plan: &PrintedPlan<'_>,
    happening: &Happening,
    page: &mut Page,
    writer: &mut W,
) -> Result<(), WriteFailed>
    requires { length page.old + 32 ≤ 4096 }
    ensures { OnOk result (Puts (W.contents writer.old) page.old (W.contents writer.new) page.new
        (codes " " ++ word_text happening.now ++ rest_text plan.now happening.now)) }
{
    match *happening {
        Happening::Event(event) => match plan.event_tail(event) {
            Some(tail) => page.add_phrase::<0, W>(tail, writer),
            None => page.put(b" event \n", writer),
        },
        Happening::Switch(switch, active) => match plan.switch_tail(switch, active) {
            Some(tail) => page.add_phrase::<0, W>(tail, writer),
            None if active => page.put(b" switch  active\n", writer),
            None => page.put(b" switch  inactive\n", writer),
        },
        Happening::Coil(command) => {
            page.put(b" coil ", writer)?;
            put_sent(command_name(plan.tables(), command), command, page, writer)
        }
        Happening::Skip(command) => {
            page.put(b" skip ", writer)?;
            put_skip(command_name(plan.tables(), command), command, page, writer)
        }
        Happening::Player(player, variable, value) => {
            put_player(plan, player, variable, value, page, writer)
        }
        Happening::Balls(_, counts) => {
            page.put(b" balls ", writer)?;
            put_balls(counts, page, writer)
        }
        Happening::Final(player, score) => {
            page.put(b" final ", writer)?;
            put_number(player as u64, b' ', page, writer)?;
            put_value(score, page, writer)
        }
    }
}

fn put_sent<W: Write>(
    name: &[u8],
    command: Command,
    page: &mut Page,
    writer: &mut W,
) -> Result<(), WriteFailed>
    ensures { OnOk result (Puts (W.contents writer.old) page.old (W.contents writer.new) page.new
        (sent_text name.now command)) }
{
    page.put(name, writer)?;
    match command {
        Command::Pulse { ms, power, .. } => {
            page.put(b" pulse ", writer)?;
            put_number(u64::from(ms), b' ', page, writer)?;
            put_number(u64::from(power), b'\n', page, writer)
        }
        Command::Enable { power, .. } => {
            page.put(b" enable ", writer)?;
            put_number(u64::from(power), b'\n', page, writer)
        }
        Command::Disable { .. } => page.put(b" disable\n", writer),
    }
}

fn put_skip<W: Write>(
    name: &[u8],
    command: Command,
    page: &mut Page,
    writer: &mut W,
) -> Result<(), WriteFailed>
    ensures { OnOk result (Puts (W.contents writer.old) page.old (W.contents writer.new) page.new
        (skip_text name.now command)) }
{
    page.put(name, writer)?;
    match command {
        Command::Pulse { .. } => page.put(b" pulse\n", writer),
        Command::Enable { .. } => page.put(b" enable\n", writer),
        Command::Disable { .. } => page.put(b" disable\n", writer),
    }
}

fn put_player<W: Write>(
    plan: &PrintedPlan<'_>,
    player: usize,
    variable: VariableId,
    value: i64,
    page: &mut Page,
    writer: &mut W,
) -> Result<(), WriteFailed>
    ensures { OnOk result (Puts (W.contents writer.old) page.old (W.contents writer.new) page.new
        (codes " player " ++ player_text player (name_of_variable plan.now variable) value)) }
{
    put_player_number(player, page, writer)?;
    put_variable(plan, variable, page, writer)?;
    put_value(value, page, writer)
}

/// Puts ` player `, the number of a player, and a blank on the page.
fn put_player_number<W: Write>(
    player: usize,
    page: &mut Page,
    writer: &mut W,
) -> Result<(), WriteFailed>
    ensures { OnOk result (Puts (W.contents writer.old) page.old (W.contents writer.new) page.new
        (codes " player " ++ decimal player ++ codes " ")) }
{
    if player < 10 {
        let mut text = *b" player 0                       ";
        text[8] += player as u8;
        return page.put_start::<START, W>(&text, 10, writer);
    }
    page.put(b" player ", writer)?;
    put_number(player as u64, b' ', page, writer)
}

/// Puts the name of a variable on the page, and a blank.
fn put_variable<W: Write>(
    plan: &PrintedPlan<'_>,
    variable: VariableId,
    page: &mut Page,
    writer: &mut W,
) -> Result<(), WriteFailed>
    ensures { OnOk result (Puts (W.contents writer.old) page.old (W.contents writer.new) page.new
        (variable_word plan.now variable)) }
{
    match plan.variable_word(variable) {
        Some(word) => page.put_phrase(word, writer),
        None => page.put(b" ", writer),
    }
}

fn put_balls<W: Write>(
    counts: BallCounts,
    page: &mut Page,
    writer: &mut W,
) -> Result<(), WriteFailed>
    ensures { OnOk result (Puts (W.contents writer.old) page.old (W.contents writer.new) page.new (balls_text counts)) }
{
    put_number(u64::from(counts.known), b' ', page, writer)?;
    put_number(u64::from(counts.counted), b' ', page, writer)?;
    put_number(u64::from(counts.transit), b' ', page, writer)?;
    put_number(u64::from(counts.playfield), b'\n', page, writer)
}

/// Puts a value on the page, and LF.
fn put_value<W: Write>(value: i64, page: &mut Page, writer: &mut W) -> Result<(), WriteFailed>
    ensures { OnOk result (Puts (W.contents writer.old) page.old (W.contents writer.new) page.new
        (signed_decimal value ++ 10 ∷ [])) }
{
    if value < 0 {
        page.put(b"-", writer)?;
    }
    put_number(value.unsigned_abs(), b'\n', page, writer)
}

/// Puts a number on the page, and the byte that ends it.
fn put_number<W: Write>(
    number: u64,
    end: u8,
    page: &mut Page,
    writer: &mut W,
) -> Result<(), WriteFailed>
    ensures { OnOk result (Puts (W.contents writer.old) page.old (W.contents writer.new) page.new
        (decimal number ++ end ∷ [])) }
{
    if number < 10 {
        return page.put(&[b'0' + number as u8, end], writer);
    }
    let mut room = [end; DIGITS + START];
    let start = write_digits(number, &mut room, DIGITS);
    page.put_start::<START, W>(&room[start..], DIGITS + 1 - start, writer)
}

/// The name of the coil of a command.
fn command_name(plan: &Plan, command: Command) -> &[u8]
    ensures { result.now ≡ (coil_at plan.now (coil_of command)).name }
{
    match command {
        Command::Pulse { coil, .. } => coil_name(plan, coil),
        Command::Enable { coil, .. } => coil_name(plan, coil),
        Command::Disable { coil } => coil_name(plan, coil),
    }
}

/// The name of a coil: nothing if the plan lacks it.
fn coil_name(plan: &Plan, coil: CoilId) -> &[u8]
    ensures { result.now ≡ (coil_at plan.now coil).name }
{
    if (coil.0 as usize) < plan.coil_count() {
        plan.coil_name(coil)
    } else {
        &[]
    }
}
