//! The certificate of an accepted configuration, as a text.

ghost use Rattle.std.specs.Prelude.{OnOk};
ghost use Rattle.std.specs.Io.KnownBytes.{Appends};
ghost use Rattle.config_checker.specs.CertificateText.{certificate_text, cost_lines, weight_lines, numbered_line};

use cascade_rank::switch_cost;
use plan_tables::entries::{EventId, SwitchId};
use std::io::{self, Write};
use written_machine::Checked;

/// Writes the certificate, in version 2: the bound, each switch with its cost (a change of it causes
/// at most so many lines), and each event with its weight.
///
/// # Errors
///
/// The writer's error. Any part of the text may have been written then.
pub fn write_certificate<W: Write>(checked: &Checked, writer: &mut W) -> io::Result<()>
    ensures { OnOk result (Appends (W.contents writer.old) (W.contents writer.new) (certificate_text checked.now)) }
{
    writeln!(writer, "pinball-certificate 2")?;
    writeln!(writer, "bound {}", checked.bound())?;
    write_switches(checked, writer)?;
    write_events(checked, writer)
}

/// Writes the lines of the switches.
fn write_switches<W: Write>(checked: &Checked, writer: &mut W) -> io::Result<()>
    ensures { OnOk result (Appends (W.contents writer.old) (W.contents writer.new) (cost_lines checked.now)) }
{
    let plan = checked.plan();
    let weights = checked.weights();
    for number in 0..plan.switch_count() {
        let switch = SwitchId(number as u16);
        let cost = switch_cost(plan, weights, switch);
        write_line(b"switch", plan.switch_name(switch), cost, writer)?;
    }
    Ok(())
}

/// Writes the lines of the events.
fn write_events<W: Write>(checked: &Checked, writer: &mut W) -> io::Result<()>
    ensures { OnOk result (Appends (W.contents writer.old) (W.contents writer.new) (weight_lines checked.now)) }
{
    let plan = checked.plan();
    let weights = checked.weights();
    for number in 0..plan.event_count() {
        let event = EventId(number as u16);
        let Some(weight) = weights.get(event) else {
            unreachable!()
        };
        write_line(b"event", plan.event_name(event), weight, writer)?;
    }
    Ok(())
}

/// Writes the line `WORD NAME NUMBER`.
fn write_line<W: Write>(word: &[u8], name: &[u8], number: u32, writer: &mut W) -> io::Result<()>
    ensures { OnOk result (Appends (W.contents writer.old) (W.contents writer.new)
        (numbered_line word.now (name.now, number))) }
{
    writer.write_all(word)?;
    writer.write_all(b" ")?;
    writer.write_all(name)?;
    writeln!(writer, " {number}")
}
