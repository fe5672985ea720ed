//! Mappings and sequences of lines.

/// Texts with trees, then texts with faults, the kind and the line of the first.
pub(crate) const BLOCKS: &str = "\
\u{20}=> 1{}
¶¶ => 1{}
# c => 1{}
\u{20}  # c¶\t# d¶ \t ¶ => 1{}
a: b => 1{<a>1=<b>1}
a: b¶ => 1{<a>1=<b>1}
a: b\r¶c: d\r¶ => 1{<a>1=<b>1 <c>2=<d>2}
¶¶a: b => 3{<a>3=<b>3}
# c¶a: b # d¶ => 2{<a>2=<b>2}
a: => 1{<a>1=<>1}
a:¶¶b: => 1{<a>1=<>1 <b>3=<>3}
a:¶  b: c => 1{<a>1=2{<b>2=<c>2}}
a:¶  b => 1{<a>1=<b>2}
a: # c¶  b => 1{<a>1=<b>2}
a:¶  b:¶    c: d¶  e: f¶g: h => 1{<a>1=2{<b>2=3{<c>3=<d>3} <e>4=<f>4} <g>5=<h>5}
a:¶  b: 1¶b: 2 => 1{<a>1=2{<b>2=<1>2} <b>3=<2>3}
\u{20} a: b¶  c: d => 1{<a>1=<b>1 <c>2=<d>2}
b => <b>1
¶  b => <b>2
- a => 1[<a>1]
- a¶- b => 1[<a>1 <b>2]
- => 1[<>1]
-¶- a => 1[<>1 <a>2]
- # c¶- a => 1[<>1 <a>2]
-¶  a => 1[<a>2]
-¶  a: b => 1[2{<a>2=<b>2}]
-¶  - a¶  - b => 1[2[<a>2 <b>3]]
- a: b => 1[1{<a>1=<b>1}]
- a: b¶  c: d => 1[1{<a>1=<b>1 <c>2=<d>2}]
-   a: b¶    c: d => 1[1{<a>1=<b>1 <c>2=<d>2}]
- a:¶    b: c => 1[1{<a>1=2{<b>2=<c>2}}]
- a:¶  - b => 1[1{<a>1=2[<b>2]}]
- a:¶  b: c => 1[1{<a>1=<>1 <b>2=<c>2}]
- a:¶- b => 1[1{<a>1=<>1} <b>2]
- a: b¶- c: d => 1[1{<a>1=<b>1} 2{<c>2=<d>2}]
a:¶- b¶- c => 1{<a>1=2[<b>2 <c>3]}
a:¶- b¶c: d => 1{<a>1=2[<b>2] <c>3=<d>3}
a:¶  - b¶  - c¶d: => 1{<a>1=2[<b>2 <c>3] <d>4=<>4}
a:¶- => 1{<a>1=2[<>2]}
a:¶- b:¶  - c¶- d => 1{<a>1=2[2{<b>2=3[<c>3]} <d>4]}
a:¶  - b: c¶    d: e¶  - f => 1{<a>1=2[2{<b>2=<c>2 <d>3=<e>3} <f>4]}
¶  a # b¶¶ => <a>2
#config_version=6¶switches:¶  s_left:¶    number: 1 # one¶¶  s_right:¶event_player:¶  s_left_active: a, b¶ => 2{<switches>2=3{<s_left>3=4{<number>4=<1>4} <s_right>6=<>6} <event_player>7=8{<s_left_active>8=<a, b>8}}
a:\r¶  b: 1\r¶\r¶c: 2\r¶ => 1{<a>1=2{<b>2=<1>2} <c>4=<2>4}
a:¶  b¶c :\t d\te \t# f¶ => 1{<a>1=<b>2 <c>3=<d\te>3}
\u{20} a:¶      b:¶  # c¶  ---: ...¶ => 1{<a>1=2{<b>2=<>2} <--->4=<...>4}
- a¶-   b # c¶-¶-\tc¶- # d¶ => 1[<a>1 <b>2 <>3 <c>4 <>5]
a:¶- b¶- c¶d:¶  - e¶f: g¶ => 1{<a>1=2[<b>2 <c>3] <d>4=5[<e>5] <f>6=<g>6}
- a: 1¶  b: 2¶-   c:¶    d: 3¶ => 1[1{<a>1=<1>1 <b>2=<2>2} 3{<c>3=<>3 <d>4=<3>4}]
- a:¶    b: 1¶- a:¶  - b¶  c:¶ => 1[1{<a>1=2{<b>2=<1>2}} 3{<a>3=4[<b>4] <c>5=<>5}]
-¶  a: 1¶-¶  - b¶-¶  text¶ => 1[2{<a>2=<1>2} 4[<b>4] <text>6]
\ta: b => Tab 1
\u{20}\ta: b => Tab 1
-\ta: b => Tab 1
- \ta: b => Tab 1
a:¶\tb => Tab 2
a: b¶\t- c => Tab 2
a: b¶  c: d => Indent 2
a:¶  b¶  c => Indent 3
b¶c => Indent 2
a:¶    b: c¶  d: e => Indent 3
\u{20} a: b¶c: d => Indent 2
- a¶  b => Indent 2
- a¶ - b => Indent 2
a:¶  - b¶ - c => Indent 3
- a: b¶   c: d => Indent 2
a: [b]¶  c => Indent 2
a: \"b\"¶  c: d => Indent 2
a:¶  - b¶    c => Indent 3
a: 1¶a: 2 => DuplicateKey 2
a: 1¶\"a\": 2 => DuplicateKey 2
a: 1¶b: 2¶a: c: d => DuplicateKey 3
- a: 1¶  a: 2 => DuplicateKey 2
a:¶  b:¶  b: => DuplicateKey 3
- - a => NotInSubset 1
- - => NotInSubset 1
-\t- a => NotInSubset 1
--- => NotInSubset 1
--- a => NotInSubset 1
... => NotInSubset 1
... # c => NotInSubset 1
---\t => NotInSubset 1
a: 1¶b => NotInSubset 2
a: 1¶- b => NotInSubset 2
- a¶b: c => NotInSubset 2
a:¶  - b¶  c: d => NotInSubset 3
a: b¶---¶ => NotInSubset 2
a:¶  b: c¶... => NotInSubset 3
a:¶  b: c¶  - d => NotInSubset 3
a:¶  \tb: 1 => Tab 2
- \ta: b: c => Tab 1
a:¶    b: 2¶  c: 2¶\td: 1 => Indent 3
\u{20} - a¶- b => Indent 2
- a: 1¶ b: 2 => Indent 2
a:¶- b¶   c => Indent 3
a:¶  b:¶    c:¶  b: => DuplicateKey 4
a: 1¶'a': 2 => DuplicateKey 2
a: 1¶'b' => NotInSubset 2
a: 1¶[b] => NotInSubset 2
a: 1¶¶- b => NotInSubset 3
a:¶  - b¶  c => NotInSubset 3
a:¶  b: 1¶- c => NotInSubset 3
a:¶  b¶- c => NotInSubset 3
a:¶  - b¶- c => NotInSubset 3
---¶a: b => NotInSubset 1
\u{20} a: b¶... # c => NotInSubset 2
";
