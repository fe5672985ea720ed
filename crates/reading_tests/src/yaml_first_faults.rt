//! Which of several faults of a text is reported: on the first line that has a fault, the leftmost one. If two are at
//! the same place, it is that of a character that no text may have.

/// Characters that no line may have.
pub(crate) const CHARACTERS: &str = "\
a: \u{1} => NotInSubset 1
# \u{1} => NotInSubset 1
a: \"\u{7F}\" => NotInSubset 1
a: \u{85} => NotInSubset 1
\u{FEFF}a: b => NotInSubset 1
a: \u{FFFE} => NotInSubset 1
a: \u{FFFF} => NotInSubset 1
a: b\rc => NotInSubset 1
a: b\r => NotInSubset 1
a: b\u{B} => NotInSubset 1
a\u{0} => NotInSubset 1
a: b¶# \u{9F} => NotInSubset 2
a: 1\r¶b: 2\rc\r¶ => NotInSubset 2
";

/// Texts with several faults.
pub(crate) const FAULTS: &str = "\
\"a\u{1} => NotInSubset 1
a: \"b\\q\u{1} => Quote 1
[a,, \u{1}] => Flow 1
\t\u{1} => Tab 1
a: b¶  c: \u{1} => Indent 2
a: 1¶a: \u{1} => DuplicateKey 2
a: \"b\" c\u{1} => Quote 1
[a] b\u{1} => Flow 1
[a\u{1} => NotInSubset 1
a: b¶\tc: \" => Tab 2
a: \"b¶c: \u{1} => Quote 1
[a: b => NotInSubset 1
{a: b, a: \"c => DuplicateKey 1
['a'b, [ => Quote 1
'a\u{1} => NotInSubset 1
a: [b, 'c => Quote 1
";

/// Texts with a line that has to be an entry or an item and is none: that is at its first character, before
/// whatever else is wrong with the line.
pub(crate) const NO_ENTRIES: &str = "\
a: 1¶{x: 1, x: 2} => NotInSubset 2
- a¶{x: 1, x: 2} => NotInSubset 2
a: 1¶[b => NotInSubset 2
- a¶[b => NotInSubset 2
s:¶[ => NotInSubset 2
s:¶{ => NotInSubset 2
s:¶- a¶[ => NotInSubset 3
a: 1¶[b] c => NotInSubset 2
a: 1¶[b]: c => NotInSubset 2
a: 1¶[[[[[[[[[ => NotInSubset 2
- a¶[[[[[[[[[ => NotInSubset 2
a: 1¶\"b => NotInSubset 2
- a¶\"b => NotInSubset 2
a: 1¶\"b: c => NotInSubset 2
a: 1¶\"b\\q\": c => NotInSubset 2
a: 1¶'b' c => NotInSubset 2
a: 1¶'b':c => NotInSubset 2
a:¶  b: 1¶  [ => NotInSubset 3
a:¶  - b¶  [ => NotInSubset 3
a:¶  b: 1¶[ => NotInSubset 3
a:¶  - b¶[ => NotInSubset 3
- a: 1¶  [ => NotInSubset 2
-¶  a: 1¶  {x: 1, x: 2} => NotInSubset 3
a: 1¶[b¶a: 2 => NotInSubset 2
";

/// Texts with bytes that are not UTF-8. Here each character stands for the byte of its number: `ÿ` for
/// 255, which no UTF-8 text has.
pub(crate) const BYTES: &str = "\
ÿ => NotUtf8 1
a: b¶\u{C3} => NotUtf8 2
# ÿ => NotUtf8 1
a: \"bÿ => NotUtf8 1
[a, ÿ => NotUtf8 1
a: b: ÿ => NotInSubset 1
a: \"b\" cÿ => Quote 1
--- ÿ => NotInSubset 1
a\u{ED}\u{A0}\u{80}: 1 => NotUtf8 1
a: 1¶bÿ => NotInSubset 2
a: 1¶ÿ => NotUtf8 2
a: 1¶a: ÿ => DuplicateKey 2
\u{20}\tÿ => Tab 1
a: \u{C2}\u{85}ÿ => NotInSubset 1
a: ÿ\u{1} => NotUtf8 1
a: 'b'ÿ => NotUtf8 1
\u{C0}\u{80} => NotUtf8 1
a: 1¶b: ÿ¶\tc: => NotUtf8 2
a: 1¶a: 2¶b: ÿ => DuplicateKey 2
a: 1¶ÿa: 2¶a: => NotUtf8 2
a: \u{1}ÿ => NotInSubset 1
# \u{C3}\u{A9}ÿ => NotUtf8 1
\tÿ => Tab 1
---ÿ => NotUtf8 1
a: 1¶  bÿ => Indent 2
a: 1¶  ÿ => NotUtf8 2
a: &ÿ => NotInSubset 1
a: ÿ&b: c => NotUtf8 1
-\tÿ: b => Tab 1
- - ÿ => NotInSubset 1
- a¶bÿ => NotInSubset 2
a: [b, 'cÿ => NotUtf8 1
a: [b} ÿ => Flow 1
a: 1¶[b} ÿ => NotInSubset 2
a: 1¶ÿ[b} => NotUtf8 2
a: 1¶bÿ: &c => NotUtf8 2
- a¶ÿ => NotUtf8 2
";

/// Where on its line a fault stands. `ÿ` marks a place: directly behind the fault's place the row's fault is
/// answered; at it, or left of it, `NotUtf8`. The end of the line is a place too.
pub(crate) const PLACES: &str = "\
a: ,ÿ => NotInSubset 1
a: - ÿ => NotInSubset 1
a: @ÿ => NotInSubset 1
'a''ÿ => NotUtf8 1
a: \"b\\\"ÿ => NotUtf8 1
a: \"ÿ\\ => NotUtf8 1
a: \"\\ÿ => Quote 1
a: \"bÿ\\x\" => NotUtf8 1
a: \"b\\xÿ => Quote 1
a: 'ÿ' b => NotUtf8 1
a: 'b' cÿ => Quote 1
a: 'b' ÿ => NotUtf8 1
'a'#ÿ => Quote 1
'a':ÿ => Quote 1
'a',ÿ => Quote 1
{a: ]ÿ => Flow 1
[-,ÿ => Flow 1
[- ÿ => NotInSubset 1
[#ÿ => NotInSubset 1
[ÿ:, a] => NotUtf8 1
[a:,ÿ => Flow 1
['a' :]ÿ => Flow 1
['a'[ÿ => Quote 1
[a #ÿ => NotUtf8 1
[ #ÿ => NotUtf8 1
[a,,ÿ => Flow 1
[,ÿ => Flow 1
[[a]#ÿ => Flow 1
[a]#ÿ => Flow 1
[a: ÿ => NotInSubset 1
[[a]: ÿ => NotInSubset 1
[aÿ: b] => NotUtf8 1
{aÿ} => NotUtf8 1
{a}ÿ => Flow 1
{a, ÿ => Flow 1
{a #ÿ => NotUtf8 1
{a: }ÿ => Flow 1
{a: , ÿ => Flow 1
{a: b: ÿ => NotInSubset 1
{: ÿ => NotInSubset 1
{[ÿ => Flow 1
{a: 1, 'a': ÿ => DuplicateKey 1
{a: 1, a}ÿ => Flow 1
{a: 1, a: ÿ => DuplicateKey 1
[a, &ÿ => NotInSubset 1
[[[[[[[[{ÿ => TooDeep 1
[[[[[[[[ÿ{ => NotUtf8 1
[[a] bÿ => Flow 1
[[a] ÿ => NotUtf8 1
['a'}ÿ => Flow 1
[a:]ÿ => Flow 1
[[ÿa]# => NotUtf8 1
[ÿa]# => NotUtf8 1
[[ÿa]: b => NotUtf8 1
{a: bÿ: c} => NotUtf8 1
{aÿ, b: c} => NotUtf8 1
{aÿ: } => NotUtf8 1
{aÿ: , b => NotUtf8 1
{a: ÿ, a: 1 => NotUtf8 1
{a: 1, aÿ} => NotUtf8 1
['aÿ' :] => NotUtf8 1
['ÿ'[b]] => NotUtf8 1
";
