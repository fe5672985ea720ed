//! What each variant of each error of the readers says.

use crate::cases::assert_text;
use crate::pen::Pen;
use config_faults::{BundleFault, BundleFaultKind, ConfigFault};
use mpf_values::{BadValue, ListFault};
use std::alloc::Global;
use std::fmt::Display;
use yaml_subset::YamlFault;
use yaml_subset::fault::{TextFault as YamlTextFault, TextFaultKind as YamlKind};

/// Adds what an error says.
fn say<E: Display + Drop>(pen: &mut Pen, error: E) {
    pen.value(error);
    pen.put(", ");
}

fn say_yaml_faults(pen: &mut Pen) {
    for kind in [
        YamlKind::NotUtf8,
        YamlKind::Tab,
        YamlKind::Indent,
        YamlKind::DuplicateKey,
        YamlKind::Quote,
        YamlKind::Flow,
        YamlKind::NotInSubset,
        YamlKind::TooDeep,
        YamlKind::TooLong,
    ] {
        say(pen, kind);
    }
    say(pen, YamlTextFault::new(YamlKind::Tab, 2));
    say(pen, YamlFault::NoMemory);
    say(pen, YamlFault::at(YamlKind::Flow, 3));
}

fn say_value_faults(pen: &mut Pen) {
    say(pen, BadValue);
    say(pen, ListFault::NoMemory);
    say(pen, ListFault::BadValue);
}

/// A fault of this kind at line 4.
fn fault_of(alloc: Global, kind: BundleFaultKind) -> BundleFault {
    BundleFault {
        kind,
        text: Vec::new(alloc),
        line: 4,
        key: Vec::new(alloc),
    }
}

fn say_config_faults(pen: &mut Pen) {
    for kind in [
        BundleFaultKind::Bundle,
        BundleFaultKind::Version,
        BundleFaultKind::Yaml(YamlKind::Tab),
        BundleFaultKind::UnknownSection,
        BundleFaultKind::UnknownSetting,
        BundleFaultKind::BadValue,
        BundleFaultKind::Missing,
        BundleFaultKind::Duplicate,
        BundleFaultKind::Limit,
    ] {
        let fault = fault_of(pen.alloc, kind);
        say(pen, fault);
    }
    let missing = fault_of(pen.alloc, BundleFaultKind::Missing);
    say(pen, ConfigFault::Bundle(missing));
    say(pen, ConfigFault::NoMemory);
}

#[test]
fn errors_say_their_words(rt: HostRuntime) {
    let mut pen = Pen::new(rt.alloc());
    say_yaml_faults(&mut pen);
    say_value_faults(&mut pen);
    say_config_faults(&mut pen);
    assert_text(
        &rt,
        &pen,
        "NotUtf8, Tab, Indent, DuplicateKey, Quote, Flow, NotInSubset, TooDeep, TooLong, \
Tab at line 2, NoMemory, Flow at line 3, \
BadValue, NoMemory, BadValue, \
Bundle at line 4, Version at line 4, Yaml at line 4, UnknownSection at line 4, UnknownSetting at line 4, \
BadValue at line 4, Missing at line 4, Duplicate at line 4, Limit at line 4, \
Missing at line 4, NoMemory, ",
    );
}
