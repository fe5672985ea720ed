//! A bundle is read and checked, and the reply to it is written.

ghost use Rattle.std.specs.Prelude.{◌≡◌, ◌≢◌, ◌^◌, IfOk, OnOk, IfErr, IfSome, IsSome, IsErrOf, ◌⊎◌};
ghost use Rattle.std.specs.Io.KnownBytes.{Appends, IsAtEnd, Keeps};
ghost use Rattle.pinball_shell.specs.Reply.{reply_to, reply_with, verdict_of, accepted_of};
ghost use Rattle.pinball_shell.specs.ReplyView.{IsReplyBy, IsReplyWith, IsAnswerBy, text_of_checked, text_of_verified};
ghost use Rattle.pinball_shell.specs.ReplyView.{text_of_notes, text_of_refusal, lines_of_refusal, verdict_of_reply};
ghost use Rattle.pinball_shell.specs.CheckOutput.{acceptance_text, verification_text, check_output, verify_output};
ghost use Rattle.pinball_shell.specs.CheckOutput.{load_output};
ghost use Rattle.pinball_shell.specs.TextRead.{HasAtMost, HasMoreThan, IfBoth, AppendsFor, AppendsForBoth};

use crate::fault::{ShellFault, Verdict};
use crate::reply::{BundleRefusal, Reply};
use crate::text::read_all;
use config_checker::{Checked, Report, check, check_with, write_certificate, write_report};
use mpf_config::fault::write_fault;
use mpf_config::{Config, ConfigFault, Note, read_bundle, write_note};
use std::alloc::Global;
use std::io::{self, Read, Write};

/// The most bytes that a bundle may have: 8 MiB.
pub const BUNDLE_LIMIT: usize = 8_388_608;

/// The most bytes that a certificate may have: 1 MiB.
pub const CERTIFICATE_LIMIT: usize = 1_048_576;

/// Reads a bundle and writes what `check` prints for it: the notes on its rows, then `yes` and the
/// certificate, or why it is refused and `no`. If its rows cannot be read, an `error` line comes in
/// place of the notes.
///
/// Nothing is written before the answer is known.
///
/// # Errors
///
/// - `TooLong`: the bundle has more than 8 MiB.
/// - `Read`: the reader failed.
/// - `NoMemory`: memory ran out.
/// - `Write`: the writer failed. How much was written is not said.
///
/// After the first three nothing has been written.
pub fn check_text<R: Read, W: Write>(
    alloc: Global,
    reader: &mut R,
    writer: &mut W,
) -> Result<Verdict, ShellFault>
    ensures verdict { IfOk result (λ v. IfSome (R.remaining reader.old) (λ bundle. v ≡ verdict_of (reply_to bundle))) }
    ensures writes { OnOk result (AppendsFor (R.remaining reader.old) (W.contents writer.old) (W.contents writer.new)
        check_output) }
    ensures silent { IfErr result (λ e. e ≢ ShellFault.Write → Keeps (W.contents writer.old) (W.contents writer.new)) }
    ensures within { OnOk result (HasAtMost (2 ^ 23) (R.remaining reader.old)) }
    ensures too_long { IsErrOf result ShellFault.TooLong → HasMoreThan (2 ^ 23) (R.remaining reader.old) }
    ensures no_devices { IfErr result (λ e. e ≢ ShellFault.WrongDevice) }
{
    let bundle = read_all(alloc, reader, BUNDLE_LIMIT)?;
    check_bundle(alloc, &bundle, writer)
}

/// Writes what [`check_text`] writes for a bundle that is in memory already. Fails only by memory,
/// before anything is written, and by the writer.
pub fn check_bundle<W: Write>(
    alloc: Global,
    bundle: &[u8],
    writer: &mut W,
) -> Result<Verdict, ShellFault>
    ensures verdict { IfOk result (λ v. v ≡ verdict_of (reply_to bundle.now)) }
    ensures writes { OnOk result (Appends (W.contents writer.old) (W.contents writer.new) (check_output bundle.now)) }
    ensures silent { IfErr result (λ e. e ≢ ShellFault.Write → Keeps (W.contents writer.old) (W.contents writer.new)) }
    ensures fails { IfErr result (λ e. (e ≡ ShellFault.NoMemory) ⊎ (e ≡ ShellFault.Write)) }
{
    let reply = reply_to_text(alloc, bundle, None)?;
    answer_check(&reply, writer)
}

/// Reads a bundle and a certificate, and writes what `verify` prints for them: the notes on the
/// bundle's rows, then `yes` and the bound of the certificate's weights, or why they are refused
/// and `no`.
///
/// The whole bundle is read first, then the whole certificate, and then both are checked. Unless the
/// bundle was read to its end and is within its limit, the reader of the certificate is left as it
/// was. Nothing is written before the answer is known. The errors are those of [`check_text`]; a
/// certificate of more than 1 MiB is `TooLong` too.
pub fn verify_text<R: Read, Q: Read, W: Write>(
    alloc: Global,
    bundle: &mut R,
    certificate: &mut Q,
    writer: &mut W,
) -> Result<Verdict, ShellFault>
    ensures verdict { IfOk result (λ v. IfBoth (Q.remaining certificate.old) (R.remaining bundle.old)
        (λ certificate_text text. v ≡ verdict_of (reply_with certificate_text text))) }
    ensures writes { OnOk result (AppendsForBoth (Q.remaining certificate.old) (R.remaining bundle.old)
        (W.contents writer.old) (W.contents writer.new) verify_output) }
    ensures silent { IfErr result (λ e. e ≢ ShellFault.Write → Keeps (W.contents writer.old) (W.contents writer.new)) }
    ensures within { OnOk result (HasAtMost (2 ^ 23) (R.remaining bundle.old)
        × HasAtMost (2 ^ 20) (Q.remaining certificate.old)) }
    ensures too_long { IsErrOf result ShellFault.TooLong
        → HasMoreThan (2 ^ 23) (R.remaining bundle.old) ⊎ HasMoreThan (2 ^ 20) (Q.remaining certificate.old) }
    ensures bundle_first { (IsAtEnd (R.remaining bundle.new) × HasAtMost (2 ^ 23) (R.remaining bundle.old))
        ⊎ (certificate.new ≡ certificate.old) }
    ensures no_devices { IfErr result (λ e. e ≢ ShellFault.WrongDevice) }
{
    let text = read_all(alloc, bundle, BUNDLE_LIMIT)?;
    verify_bundle(alloc, &text, certificate, writer)
}

/// Reads a certificate, and writes what [`verify_text`] writes for it and a bundle that is in memory
/// already. The errors are those of [`verify_text`].
pub fn verify_bundle<Q: Read, W: Write>(
    alloc: Global,
    bundle: &[u8],
    certificate: &mut Q,
    writer: &mut W,
) -> Result<Verdict, ShellFault>
    ensures verdict { IfOk result (λ v. IfSome (Q.remaining certificate.old)
        (λ certificate_text. v ≡ verdict_of (reply_with certificate_text bundle.now))) }
    ensures writes { OnOk result (AppendsFor (Q.remaining certificate.old) (W.contents writer.old)
        (W.contents writer.new)
        (λ certificate_text. verify_output certificate_text bundle.now)) }
    ensures silent { IfErr result (λ e. e ≢ ShellFault.Write → Keeps (W.contents writer.old) (W.contents writer.new)) }
    ensures within { OnOk result (HasAtMost (2 ^ 20) (Q.remaining certificate.old)) }
    ensures too_long { IsErrOf result ShellFault.TooLong → HasMoreThan (2 ^ 20) (Q.remaining certificate.old) }
    ensures no_devices { IfErr result (λ e. e ≢ ShellFault.WrongDevice) }
{
    let reply = reply_with_certificate(alloc, bundle, certificate)?;
    answer_verify(&reply, writer)
}

/// Reads a bundle and checks it. For a bundle that is accepted it writes nothing, not even notes,
/// and gives the accepted configuration. For one that is refused it writes what `check` prints, and
/// gives nothing. The errors are those of [`check_text`].
pub fn load_text<R: Read, W: Write>(
    alloc: Global,
    reader: &mut R,
    writer: &mut W,
) -> Result<Option<Checked>, ShellFault>
    ensures loads { IfOk result (λ loaded. IfSome (R.remaining reader.old)
        (λ bundle. loaded ≡ accepted_of (reply_to bundle))) }
    ensures writes { OnOk result (AppendsFor (R.remaining reader.old) (W.contents writer.old) (W.contents writer.new)
        load_output) }
    ensures quiet { IfOk result (λ loaded. IsSome loaded → Keeps (W.contents writer.old) (W.contents writer.new)) }
    ensures silent { IfErr result (λ e. e ≢ ShellFault.Write → Keeps (W.contents writer.old) (W.contents writer.new)) }
    ensures within { OnOk result (HasAtMost (2 ^ 23) (R.remaining reader.old)) }
    ensures too_long { IsErrOf result ShellFault.TooLong → HasMoreThan (2 ^ 23) (R.remaining reader.old) }
    ensures no_devices { IfErr result (λ e. e ≢ ShellFault.WrongDevice) }
{
    let bundle = read_all(alloc, reader, BUNDLE_LIMIT)?;
    load_bundle(alloc, &bundle, writer)
}

/// Does what [`load_text`] does for a bundle that is in memory already. Fails only by memory, before
/// anything is written, and by the writer.
pub fn load_bundle<W: Write>(
    alloc: Global,
    bundle: &[u8],
    writer: &mut W,
) -> Result<Option<Checked>, ShellFault>
    ensures loads { IfOk result (λ loaded. loaded ≡ accepted_of (reply_to bundle.now)) }
    ensures writes { OnOk result (Appends (W.contents writer.old) (W.contents writer.new) (load_output bundle.now)) }
    ensures quiet { IfOk result (λ loaded. IsSome loaded → Keeps (W.contents writer.old) (W.contents writer.new)) }
    ensures silent { IfErr result (λ e. e ≢ ShellFault.Write → Keeps (W.contents writer.old) (W.contents writer.new)) }
    ensures fails { IfErr result (λ e. (e ≡ ShellFault.NoMemory) ⊎ (e ≡ ShellFault.Write)) }
{
    let reply = reply_to_text(alloc, bundle, None)?;
    if reply.answer.is_err() && write_checked(&reply, writer).is_err() {
        return Err(ShellFault::Write);
    }
    Ok(reply.answer.ok())
}

/// Reads a certificate, and verifies it on a bundle. Fails by memory and by the reader, and if the
/// certificate is too long.
fn reply_with_certificate<Q: Read>(
    alloc: Global,
    bundle: &[u8],
    certificate: &mut Q,
) -> Result<Reply, ShellFault>
    ensures exact { IfOk result (λ reply. IfSome (Q.remaining certificate.old)
        (λ certificate_text. IsReplyWith certificate_text bundle.now reply)) }
    ensures within { OnOk result (HasAtMost (2 ^ 20) (Q.remaining certificate.old)) }
    ensures too_long { IsErrOf result ShellFault.TooLong → HasMoreThan (2 ^ 20) (Q.remaining certificate.old) }
    ensures reads_only { IfErr result (λ e. e ≢ ShellFault.Write) }
    ensures no_devices { IfErr result (λ e. e ≢ ShellFault.WrongDevice) }
{
    let certificate_text = read_all(alloc, certificate, CERTIFICATE_LIMIT)?;
    reply_to_text(alloc, bundle, Some(certificate_text.as_slice()))
}

/// The reply to a bundle, with the weights of a certificate if there is one. Fails only by
/// memory.
fn reply_to_text(
    alloc: Global,
    bundle: &[u8],
    certificate: Option<&[u8]>,
) -> Result<Reply, ShellFault>
    ensures exact { IfOk result (IsReplyBy certificate.entry bundle.now) }
    ensures fails { IfErr result (λ e. e ≡ ShellFault.NoMemory) }
{
    let config = match read_bundle(alloc, bundle) {
        Ok(config) => config,
        Err(ConfigFault::NoMemory) => return Err(ShellFault::NoMemory),
        Err(ConfigFault::Bundle(fault)) => {
            return Ok(Reply {
                notes: Vec::new(alloc),
                answer: Err(BundleRefusal::Unread(fault)),
            });
        }
    };
    let answer = check_rows(alloc, &config, certificate)?;
    Ok(Reply {
        notes: config.notes,
        answer,
    })
}

/// Whether rows are accepted, or why not. Fails only by memory.
fn check_rows(
    alloc: Global,
    config: &Config,
    certificate: Option<&[u8]>,
) -> Result<Result<Checked, BundleRefusal>, ShellFault>
    ensures exact { IfOk result (IsAnswerBy certificate.entry config.now) }
    ensures fails { IfErr result (λ e. e ≡ ShellFault.NoMemory) }
{
    let answer = match certificate {
        None => check(alloc, config),
        Some(certificate) => check_with(alloc, config, certificate),
    };
    match answer {
        Ok(checked) => Ok(Ok(checked)),
        Err(Report::NoMemory) => Err(ShellFault::NoMemory),
        Err(Report::Faults(faults)) => Ok(Err(BundleRefusal::Unfit(faults))),
    }
}

/// Writes what `check` prints for a bundle, and gives the verdict. Fails only by the writer.
fn answer_check<W: Write>(reply: &Reply, writer: &mut W) -> Result<Verdict, ShellFault>
    ensures verdict { IfOk result (λ v. v ≡ verdict_of_reply reply.now) }
    ensures writes { OnOk result (Appends (W.contents writer.old) (W.contents writer.new) (text_of_checked reply.now)) }
    ensures fails { IfErr result (λ e. e ≡ ShellFault.Write) }
{
    match write_checked(reply, writer) {
        Ok(()) => Ok(reply.verdict()),
        Err(_) => Err(ShellFault::Write),
    }
}

/// Writes what `verify` prints for a bundle and a certificate, and gives the verdict. Fails only by the writer.
fn answer_verify<W: Write>(reply: &Reply, writer: &mut W) -> Result<Verdict, ShellFault>
    ensures verdict { IfOk result (λ v. v ≡ verdict_of_reply reply.now) }
    ensures writes { OnOk result (Appends (W.contents writer.old) (W.contents writer.new)
        (text_of_verified reply.now)) }
    ensures fails { IfErr result (λ e. e ≡ ShellFault.Write) }
{
    match write_verified(reply, writer) {
        Ok(()) => Ok(reply.verdict()),
        Err(_) => Err(ShellFault::Write),
    }
}

/// Writes what `check` prints for a bundle: the notes before the answer.
fn write_checked<W: Write>(reply: &Reply, writer: &mut W) -> io::Result<()>
    ensures { OnOk result (Appends (W.contents writer.old) (W.contents writer.new) (text_of_checked reply.now)) }
{
    write_notes(&reply.notes, writer)?;
    match &reply.answer {
        Ok(checked) => write_acceptance(checked, writer),
        Err(refusal) => write_refusal(refusal, writer),
    }
}

/// Writes what `verify` prints for a bundle and a certificate: the notes before the answer.
fn write_verified<W: Write>(reply: &Reply, writer: &mut W) -> io::Result<()>
    ensures { OnOk result (Appends (W.contents writer.old) (W.contents writer.new) (text_of_verified reply.now)) }
{
    write_notes(&reply.notes, writer)?;
    match &reply.answer {
        Ok(checked) => write_verification(checked, writer),
        Err(refusal) => write_refusal(refusal, writer),
    }
}

fn write_notes<W: Write>(notes: &[Note], writer: &mut W) -> io::Result<()>
    ensures { OnOk result (Appends (W.contents writer.old) (W.contents writer.new) (text_of_notes notes.now)) }
{
    for note in notes {
        write_note(note, writer)?;
    }
    Ok(())
}

fn write_refusal<W: Write>(refusal: &BundleRefusal, writer: &mut W) -> io::Result<()>
    ensures { OnOk result (Appends (W.contents writer.old) (W.contents writer.new) (text_of_refusal refusal.now)) }
{
    write_faults(refusal, writer)?;
    writer.write_all(b"no\n")
}

fn write_faults<W: Write>(refusal: &BundleRefusal, writer: &mut W) -> io::Result<()>
    ensures { OnOk result (Appends (W.contents writer.old) (W.contents writer.new) (lines_of_refusal refusal.now)) }
{
    match refusal {
        BundleRefusal::Unread(fault) => write_fault(fault, writer),
        BundleRefusal::Unfit(faults) => write_report(faults, writer),
    }
}

fn write_acceptance<W: Write>(checked: &Checked, writer: &mut W) -> io::Result<()>
    ensures { OnOk result (Appends (W.contents writer.old) (W.contents writer.new) (acceptance_text checked.now)) }
{
    writer.write_all(b"yes\n")?;
    write_certificate(checked, writer)
}

fn write_verification<W: Write>(checked: &Checked, writer: &mut W) -> io::Result<()>
    ensures { OnOk result (Appends (W.contents writer.old) (W.contents writer.new) (verification_text checked.now)) }
{
    writer.write_all(b"yes\n")?;
    writeln!(writer, "bound {}", checked.bound())
}
