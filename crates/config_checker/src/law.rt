//! What holds of every certificate that is written.

ghost use Rattle.config_checker.specs.ReadAgain.{FoundIsReadAgain, GivenIsReadAgain, ReadIsReadAgain};

/// The law of certificates, for every configuration that `check` or `check_with` accepts, whoever made
/// it, and whichever version of a certificate it was accepted with. `check_with` accepts it with the
/// text that `write_certificate` writes, and gives the same weights and the same bound. The same
/// holds of the rows of every bundle.
///
/// It does nothing: its contract is the law, over the answers that the calls give.
pub fn certificate_is_read_again()
    ensures found { FoundIsReadAgain }
    ensures given { GivenIsReadAgain }
    ensures read { ReadIsReadAgain }
{}
