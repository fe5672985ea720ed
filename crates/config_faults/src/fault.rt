//! Why a bundle has no rows.

ghost use Rattle.std.specs.Prelude.{◌≡◌};
ghost use Rattle.config_faults.specs.FaultNames.{number_of, kind_name};
ghost use Rattle.config_faults.specs.declared.fault.ConfigFault.TheVariants.{NoMemory};

use std::alloc::{AllocError, AllocFailed};
use thiserror::Error;
use yaml_subset::fault::TextFaultKind as YamlKind;

/// What is wrong.
#[derive(Clone, Copy, Debug)]
pub enum BundleFaultKind {
    /// The bundle does not begin with a line `@ NAME`, has a bad `@` line, or has no machine text.
    Bundle,
    /// The text does not begin with `#config_version=6`.
    Version,
    /// The text is not in the subset of YAML that is read.
    Yaml(YamlKind),
    /// A text of this kind has no section of this name, and it is not skipped.
    UnknownSection,
    /// The section has no such setting.
    UnknownSetting,
    /// The setting does not take this value, or a name is not allowed.
    BadValue,
    /// A setting that is required is not written.
    Missing,
    /// An earlier text has this name, or the mode is listed before.
    Duplicate,
    /// The bundle or a list is above its limit.
    Limit,
}

impl BundleFaultKind {
    /// The number that the kind is printed with, 1 to 9.
    pub fn number(&self) -> u32
        ensures { result ≡ number_of self.now }
    {
        match self {
            BundleFaultKind::Bundle => 1,
            BundleFaultKind::Version => 2,
            BundleFaultKind::Yaml(_) => 3,
            BundleFaultKind::UnknownSection => 4,
            BundleFaultKind::UnknownSetting => 5,
            BundleFaultKind::BadValue => 6,
            BundleFaultKind::Missing => 7,
            BundleFaultKind::Duplicate => 8,
            BundleFaultKind::Limit => 9,
        }
    }

    /// The name that the kind is printed with.
    pub fn name(&self) -> &'static str
        ensures { result.now ≡ kind_name self.now }
    {
        match self {
            BundleFaultKind::Bundle => "Bundle",
            BundleFaultKind::Version => "Version",
            BundleFaultKind::Yaml(_) => "Yaml",
            BundleFaultKind::UnknownSection => "UnknownSection",
            BundleFaultKind::UnknownSetting => "UnknownSetting",
            BundleFaultKind::BadValue => "BadValue",
            BundleFaultKind::Missing => "Missing",
            BundleFaultKind::Duplicate => "Duplicate",
            BundleFaultKind::Limit => "Limit",
        }
    }
}

/// A fault: the name of its text, the line in that text, counted from 1, and its key. A text or key
/// of `-` means none. For a fault of the YAML reader the key is the name of its kind.
#[derive(Debug, Drop, Error)]
#[error("{} at line {}", .kind.name(), .line)]
pub struct BundleFault {
    pub kind: BundleFaultKind,
    pub text: Vec<u8>,
    pub line: u32,
    pub key: Vec<u8>,
}

/// Why a bundle was not read.
#[derive(Debug, Drop, Error)]
pub enum ConfigFault {
    /// Memory ran out.
    #[error("NoMemory")]
    NoMemory,
    /// The bundle has a fault: the first one.
    #[error(transparent)]
    Bundle(BundleFault),
}

impl From<AllocError> for ConfigFault {
    ghost from_gives = { λ _ e. e ≡ NoMemory };

    fn from(_e: AllocError) -> ConfigFault {
        ConfigFault::NoMemory
    }
}

impl<T: Drop> From<AllocFailed<T>> for ConfigFault {
    ghost from_gives = { λ _ e. e ≡ NoMemory };

    fn from(_e: AllocFailed<T>) -> ConfigFault {
        ConfigFault::NoMemory
    }
}
