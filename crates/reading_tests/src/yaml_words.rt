//! Keys and scalars, plain and in quotes.

/// Texts with trees, then texts with faults, the kind and the line of the first.
pub(crate) const WORDS: &str = "\
a: b# c => 1{<a>1=<b# c>1}
a: b #c => 1{<a>1=<b>1}
a: b\t#c => 1{<a>1=<b>1}
a: b:c => 1{<a>1=<b:c>1}
a: :b => 1{<a>1=<:b>1}
a: -b => 1{<a>1=<-b>1}
a: ?b => 1{<a>1=<?b>1}
a: b c   => 1{<a>1=<b c>1}
a: b, c => 1{<a>1=<b, c>1}
a: b] => 1{<a>1=<b]>1}
a: b{c} => 1{<a>1=<b{c}>1}
a: it's => 1{<a>1=<it's>1}
a: b\tc => 1{<a>1=<b\tc>1}
a: b \t => 1{<a>1=<b>1}
a: --- => 1{<a>1=<--->1}
a: ... => 1{<a>1=<...>1}
a: b - c => 1{<a>1=<b - c>1}
a: b ? c => 1{<a>1=<b ? c>1}
a: b & c => 1{<a>1=<b & c>1}
a: b\u{2028}c => 1{<a>1=<b\u{2028}c>1}
a: \u{F6} => 1{<a>1=<\u{F6}>1}
a: 1.5s => 1{<a>1=<1.5s>1}
a: b\"c => 1{<a>1=<b\"c>1}
a:\tb => 1{<a>1=<b>1}
a : b => 1{<a>1=<b>1}
a #b => <a>1
a:b => <a:b>1
-a => <-a>1
a{b}: c => 1{<a{b}>1=<c>1}
a[0]: c => 1{<a[0]>1=<c>1}
a, b: c => 1{<a, b>1=<c>1}
a b: c => 1{<a b>1=<c>1}
\u{E4}: b => 1{<\u{E4}>1=<b>1}
-\ta => 1[<a>1]
\u{20}--- => <--->1
---a => <---a>1
.... => <....>1
- --- => 1[<--->1]
----: a => 1{<---->1=<a>1}
a: 'b' => 1{<a>1=<b>1}
a: '' => 1{<a>1=<>1}
a: 'it''s' => 1{<a>1=<it's>1}
a: '''' => 1{<a>1=<'>1}
a: \"b\" => 1{<a>1=<b>1}
a: \"\" => 1{<a>1=<>1}
a: \"\\\\\\\"\\n\\t\" => 1{<a>1=<\\\"¶\t>1}
a: \"b'c\" => 1{<a>1=<b'c>1}
a: 'b\"c' => 1{<a>1=<b\"c>1}
a: 'b\\n' => 1{<a>1=<b\\n>1}
a: \"b\" # c => 1{<a>1=<b>1}
a: \"b\"   => 1{<a>1=<b>1}
a: \"b\"\t#c => 1{<a>1=<b>1}
a: \"# b\" => 1{<a>1=<# b>1}
a: 'b: c' => 1{<a>1=<b: c>1}
a: \"[b]\" => 1{<a>1=<[b]>1}
a: \"b\tc\" => 1{<a>1=<b\tc>1}
a: \"\u{E4}\" => 1{<a>1=<\u{E4}>1}
a: ' b ' => 1{<a>1=< b >1}
a: '&b' => 1{<a>1=<&b>1}
'a': b => 1{<a>1=<b>1}
\"a\": b => 1{<a>1=<b>1}
\"a\" : b => 1{<a>1=<b>1}
\"a\": => 1{<a>1=<>1}
\"\": b => 1{<>1=<b>1}
\"a: b\": c => 1{<a: b>1=<c>1}
\"a # b\": c => 1{<a # b>1=<c>1}
\"a\":¶  b: c => 1{<a>1=2{<b>2=<c>2}}
\"a\" => <a>1
- \"a\" => 1[<a>1]
- \"a\": b => 1[1{<a>1=<b>1}]
- 'a':¶    'b' => 1[1{<a>1=<b>2}]
a: b:c#d¶e#f: :g¶-h: -i ?j¶ => 1{<a>1=<b:c#d>1 <e#f>2=<:g>2 <-h>3=<-i ?j>3}
a{b}: c{d}, [e]¶a: #b¶ => 1{<a{b}>1=<c{d}, [e]>1 <a>2=<>2}
-a: -b¶ => 1{<-a>1=<-b>1}
a: b c \t# d => 1{<a>1=<b c>1}
a, [b]{c}:d : e => 1{<a, [b]{c}:d>1=<e>1}
'a b': \"c\\td\" # e¶ => 1{<a b>1=<c\td>1}
- 'it''s'¶- \"\"¶ => 1[<it's>1 <>2]
\"a\" :¶  'b: #c'¶ => 1{<a>1=<b: #c>2}
'- a': ''¶ => 1{<- a>1=<>1}
- 'a': b¶  \"c\": d¶ => 1[1{<a>1=<b>1 <c>2=<d>2}]
'it''s' \t: b => 1{<it's>1=<b>1}
a: '' # c => 1{<a>1=<>1}
a: 'b\\n: # \"c\"' => 1{<a>1=<b\\n: # \"c\">1}
\"a\\\"b\\\\c\\nd\\te\tf\": g => 1{<a\"b\\c¶d\te\tf>1=<g>1}
a: \"b => Quote 1
a: 'b => Quote 1
\"a => Quote 1
'a'' => Quote 1
a: \"b\\q\" => Quote 1
a: \"\\u0041\" => Quote 1
a: \"b\" c => Quote 1
a: 'b'c => Quote 1
\"a\":b => Quote 1
\"a\"#c => Quote 1
a: \"\\ => Quote 1
a: \"b\\\" => Quote 1
\"a\" \"b\" => Quote 1
- \"a\" b => Quote 1
'a' b: c => Quote 1
a: b¶c: \"d => Quote 2
a: &b => NotInSubset 1
&a: b => NotInSubset 1
a: *b => NotInSubset 1
*a: b => NotInSubset 1
a: !b => NotInSubset 1
!a: b => NotInSubset 1
a: |b => NotInSubset 1
|a: b => NotInSubset 1
a: >b => NotInSubset 1
>a: b => NotInSubset 1
a: %b => NotInSubset 1
%a: b => NotInSubset 1
a: @b => NotInSubset 1
@a: b => NotInSubset 1
a: `b => NotInSubset 1
`a: b => NotInSubset 1
a: ,b => NotInSubset 1
a: ] => NotInSubset 1
a: } => NotInSubset 1
,a => NotInSubset 1
] => NotInSubset 1
} => NotInSubset 1
a: - b => NotInSubset 1
a: - => NotInSubset 1
a: : b => NotInSubset 1
: b => NotInSubset 1
? a => NotInSubset 1
? => NotInSubset 1
a: ? b => NotInSubset 1
a: b: c => NotInSubset 1
\"a\": \"b\": c => NotInSubset 1
a: b: => NotInSubset 1
- a: b: c => NotInSubset 1
a: 'b' c => Quote 1
a: \"b\"#c => Quote 1
'a':b => Quote 1
'a', b => Quote 1
'a': 'b': c => NotInSubset 1
a: |¶  b => NotInSubset 1
a: , b => NotInSubset 1
";
