//! Texts at the limits and above, and long ones.

use crate::cases::{Subject, assert_rows};

/// Keys one inside the other, and below the last a line that is deeper than all; then keys of 1,024
/// characters, with their quotes and the blanks before their colon.
pub(crate) const LIMITS: &str = "\
«32 ␣k:¶»«32  » => «32 №{<k>№=»<>32«32 }»
«32 ␣k:¶»«32  »text => «32 №{<k>№=»<text>33«32 }»
«32 ␣k:¶»«32  »[[[[[[[[]]]]]]]] => «32 №{<k>№=»33[33[33[33[33[33[33[33[]]]]]]]]«32 }»
«30 ␣k:¶»«30  »- k: a => «30 №{<k>№=»31[31{<k>31=<a>31}]«30 }»
«33 ␣k:¶»«33  » => TooDeep 33
«32 ␣k:¶»«32  »[[[[[[[[[]]]]]]]]] => TooDeep 33
«32 ␣k:¶»«32  »- a => TooDeep 33
«31 ␣k:¶»«31  »- k: a => TooDeep 32
«1024 é»: 1 => 1{<«1024 é»>1=<1>1}
«1024 é» : 1 => NotInSubset 1
{'«1022 é»': a} => 1{<«1022 é»>1=<a>1}
{'«1022 é»' : a} => NotInSubset 1
";

#[test]
fn a_mebibyte(rt: HostRuntime) {
    let rows = "«1048577 #» => TooLong 1\n«1048576 #» => 1{}";
    assert_rows(&rt, &Subject::Yaml, rows);
}

#[test]
fn many_keys_of_lines(rt: HostRuntime) {
    assert_rows(&rt, &Subject::Length, "«100000 k№:¶» => 100000 keys");
    let row = "«100000 k№:¶»k1:¶ => DuplicateKey 100001";
    assert_rows(&rt, &Subject::Yaml, row);
}

#[test]
fn many_keys_in_braces(rt: HostRuntime) {
    let row = "{«50000 k№: a,»k1: a} => DuplicateKey 1";
    assert_rows(&rt, &Subject::Yaml, row);
}
