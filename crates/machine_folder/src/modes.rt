//! The names of the modes that a machine text lists.

ghost use Rattle.std.specs.Prelude.{◌≡◌, ◌↔◌, IfOk, IfErr, IsTrue};
ghost use Rattle.machine_folder.specs.Bundles.{AreListed, MayListModes};
ghost use Rattle.mpf_config.specs.CodeViews.{names_only_view};

use memchr::{memchr, memmem};
use mpf_config::{ConfigFault, MODES_NAME, mode_names};
use pinball_shell::ShellFault;
use std::alloc::Global;

/// The names of the modes that a machine text lists. None where it has a fault: what reads the
/// bundle reports that. Fails only by memory.
pub fn readable_mode_names(alloc: Global, text: &[u8]) -> Result<Vec<Vec<u8>>, ShellFault>
    ensures names { IfOk result (λ names. AreListed text.now (names_only_view names)) }
    ensures fails { IfErr result (λ e. e ≡ ShellFault.NoMemory) }
{
    if !may_list_modes(text) {
        return Ok(Vec::new(alloc));
    }
    match mode_names(alloc, text) {
        Ok(modes) => Ok(modes),
        Err(ConfigFault::Bundle(_fault)) => Ok(Vec::new(alloc)),
        Err(ConfigFault::NoMemory) => Err(ShellFault::NoMemory),
    }
}

/// Whether a machine text may list modes, which saves reading it twice where it does not. Without
/// the word `modes` it has no such section: only an escape, in double quotes, could write that name
/// in another way.
fn may_list_modes(text: &[u8]) -> bool
    ensures { IsTrue result ↔ MayListModes text.now }
{
    memmem::find(text, MODES_NAME).is_some() || memchr(b'\\', text).is_some()
}
