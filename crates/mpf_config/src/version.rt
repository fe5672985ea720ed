//! The tree of a text, and the version in its first line.

ghost use Rattle.std.specs.Prelude.{◌≡◌};
ghost use Rattle.mpf_config.specs.BundleText.{has_version};
ghost use Rattle.mpf_config.specs.FaultLine.{yaml_kind_name};
ghost use Rattle.mpf_config.specs.Reading.{text_tree_at};
ghost use Rattle.mpf_config.specs.Gives.{GivesTree};

use crate::fault::{BundleFaultKind, ConfigFault};
use crate::spot::line_of;
use config_faults::Spot;
use std::alloc::Global;
use yaml_bytes::{split_line, trim_blanks};
use yaml_subset::fault::{TextFaultKind as YamlKind, YamlFault};
use yaml_subset::keys::KeyHashing;
use yaml_subset::reader::read_hashed;
use yaml_subset::tree::Tree;

/// The first line of a text, of the version that is read.
const VERSION_LINE: &[u8] = b"#config_version=6";

/// The name of a kind of the YAML reader.
fn yaml_kind_name(kind: YamlKind) -> &'static [u8]
    ensures { result.now ≡ yaml_kind_name kind }
{
    match kind {
        YamlKind::NotUtf8 => b"NotUtf8",
        YamlKind::Tab => b"Tab",
        YamlKind::Indent => b"Indent",
        YamlKind::DuplicateKey => b"DuplicateKey",
        YamlKind::Quote => b"Quote",
        YamlKind::Flow => b"Flow",
        YamlKind::NotInSubset => b"NotInSubset",
        YamlKind::TooDeep => b"TooDeep",
        YamlKind::TooLong => b"TooLong",
    }
}

fn has_version(text: &[u8]) -> bool
    ensures { result ≡ has_version text.now }
{
    let (line, _) = split_line(text);
    trim_blanks(line) == VERSION_LINE
}

/// The tree of the text of this name. The fault is Version, or Yaml with its kind as the key.
#[tactic(auto, unfolding(crate::specs::Reading::text_tree_at))]
pub fn tree_of<'a>(
    alloc: Global,
    hashing: KeyHashing,
    name: &[u8],
    text: &'a [u8],
) -> Result<Tree<'a>, ConfigFault>
    ensures { GivesTree result (text_tree_at name.now text.now) }
{
    if !has_version(text) {
        let fault = line_of(name, 1).fault(alloc, BundleFaultKind::Version)?;
        return Err(ConfigFault::Bundle(fault));
    }
    match read_hashed(alloc, hashing, text) {
        Ok(tree) => Ok(tree),
        Err(YamlFault::NoMemory) => Err(ConfigFault::NoMemory),
        Err(YamlFault::Text(fault)) => {
            let spot = Spot {
                text: name,
                line: fault.line,
                key: yaml_kind_name(fault.kind),
            };
            let fault = spot.fault(alloc, BundleFaultKind::Yaml(fault.kind))?;
            Err(ConfigFault::Bundle(fault))
        }
    }
}
