//! A mode that the machine text lists.

ghost use Rattle.std.specs.Prelude.{◌≡◌};
ghost use Rattle.mpf_config.specs.BundleText.{mode_text_name};

use setting_values::values::Name;

/// A mode that is listed, with the name of its text.
#[derive(Drop)]
pub struct ListedMode<'a> {
    pub name: &'a Name,
    pub text: Vec<u8>,
    ghost is_named: { text.items ≡ mode_text_name name.now.text.items },
}
