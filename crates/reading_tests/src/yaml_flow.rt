//! Lists in brackets and mappings in braces.

/// Texts with trees, then texts with faults, the kind and the line of the first.
pub(crate) const FLOW: &str = "\
[] => 1[]
[ ] => 1[]
{} => 1{}
{ } => 1{}
[a] => 1[<a>1]
[a, b] => 1[<a>1 <b>1]
[a, b,] => 1[<a>1 <b>1]
[a , b , ] => 1[<a>1 <b>1]
[ a,b ] => 1[<a>1 <b>1]
[a,\tb] => 1[<a>1 <b>1]
{a: b} => 1{<a>1=<b>1}
{a: b, c: d} => 1{<a>1=<b>1 <c>1=<d>1}
{a: b,} => 1{<a>1=<b>1}
{ a : b } => 1{<a>1=<b>1}
{\"a\": b} => 1{<a>1=<b>1}
{'a' : \"b\"} => 1{<a>1=<b>1}
{a: [b, {c: d}]} => 1{<a>1=1[<b>1 1{<c>1=<d>1}]}
[[a], [b]] => 1[1[<a>1] 1[<b>1]]
[[]] => 1[1[]]
[{}] => 1[1{}]
[{a: b}, c] => 1[1{<a>1=<b>1} <c>1]
[[a] , b] => 1[1[<a>1] <b>1]
[a b] => 1[<a b>1]
[a:b] => 1[<a:b>1]
[-a] => 1[<-a>1]
[a#b] => 1[<a#b>1]
[a-] => 1[<a->1]
[\"a, b\"] => 1[<a, b>1]
['a', \"b\"] => 1[<a>1 <b>1]
[''] => 1[<>1]
[a] # c => 1[<a>1]
[:a] => 1[<:a>1]
[?a] => 1[<?a>1]
{a: -1} => 1{<a>1=<-1>1}
{a: b#c} => 1{<a>1=<b#c>1}
{a: \"b: c\"} => 1{<a>1=<b: c>1}
{a b: c d} => 1{<a b>1=<c d>1}
[[[[[[[[a]]]]]]]] => 1[1[1[1[1[1[1[1[<a>1]]]]]]]]
a: [b]¶c: {d: e} # f => 1{<a>1=1[<b>1] <c>2=2{<d>2=<e>2}}
a:¶  [b] => 1{<a>1=2[<b>2]}
- [a]¶- {b: c} => 1[1[<a>1] 2{<b>2=<c>2}]
- a: [b]¶  c: {} => 1[1{<a>1=1[<b>1] <c>2=2{}}]
a: {b: {c: {d: e}}} => 1{<a>1=1{<b>1=1{<c>1=1{<d>1=<e>1}}}}
a: [b, {c: 'd'}, ]¶ => 1{<a>1=1[<b>1 1{<c>1=<d>1}]}
- {a: b} # c¶-   []¶ => 1[1{<a>1=<b>1} 2[]]
a:¶  {b: c}¶d:¶ => 1{<a>1=2{<b>2=<c>2} <d>3=<>3}
# a¶[b]¶ => 2[<b>2]
{ \t} # a => 1{}
[a b , c] => 1[<a b>1 <c>1]
[a#b:c] => 1[<a#b:c>1]
{-a: b} => 1{<-a>1=<b>1}
{a: 'b, c' } => 1{<a>1=<b, c>1}
[ a b ,'it''s, so',\"\\\"]\", c#d , ] => 1[<a b>1 <it's, so>1 <\"]>1 <c#d>1]
{a: 1, 'b c' : [d, {e:\tf}] ,\"\": {}, }  => 1{<a>1=<1>1 <b c>1=1[<d>1 1{<e>1=<f>1}] <>1=1{}}
[{a: b}, {a: b}] => 1[1{<a>1=<b>1} 1{<a>1=<b>1}]
[[[[[[[[]]]]]]]] => 1[1[1[1[1[1[1[1[]]]]]]]]
a: 1¶b: [c, {d: [e]}] => 1{<a>1=<1>1 <b>2=2[<c>2 2{<d>2=2[<e>2]}]}
{a: b, a: c} => DuplicateKey 1
{a: b, \"a\": c} => DuplicateKey 1
[{a: 1, b: 2, a: 3}] => DuplicateKey 1
[\"a => Quote 1
[a, \"b => Quote 1
[\"a\":b] => Quote 1
[\"a\" b] => Quote 1
{\"a\":b} => Quote 1
[a => Flow 1
{a: b => Flow 1
[a,  => Flow 1
{ => Flow 1
[ => Flow 1
[a]] => Flow 1
[a] b => Flow 1
[a]: b => Flow 1
{a: b} c => Flow 1
[a,,b] => Flow 1
[,] => Flow 1
[,a] => Flow 1
{a} => Flow 1
{a, b: c} => Flow 1
{a: } => Flow 1
{a: , b: c} => Flow 1
{,} => Flow 1
{a:} => Flow 1
{a:[b]} => Flow 1
{\"a\":[b]} => Flow 1
[a:] => Flow 1
[a:, b] => Flow 1
{a: b] => Flow 1
[\"a\"} => Flow 1
[a} => Flow 1
[[a] b] => Flow 1
[[a] [b]] => Flow 1
[-] => Flow 1
[-, a] => Flow 1
[?] => Flow 1
{a: -} => Flow 1
[a{b}] => Flow 1
[a [b]] => Flow 1
{[a]: b} => Flow 1
{{a: b}: c} => Flow 1
[a #b] => Flow 1
[a, # b => Flow 1
{a: b # c} => Flow 1
{\"a\"} => Flow 1
{\"a\", b: c} => Flow 1
[a]#c => Flow 1
a: [b¶] => Flow 1
a: b¶c: {d => Flow 2
[[[[[[[[[a]]]]]]]]] => TooDeep 1
[[[[[[[[{a: b}]]]]]]]] => TooDeep 1
[&a] => NotInSubset 1
[*a] => NotInSubset 1
[!a] => NotInSubset 1
[|a] => NotInSubset 1
[>a] => NotInSubset 1
[%a] => NotInSubset 1
[@a] => NotInSubset 1
[`a] => NotInSubset 1
[a: b] => NotInSubset 1
[\"a\": b] => NotInSubset 1
{: a} => NotInSubset 1
{a: b: c} => NotInSubset 1
{a: \"b\": c} => NotInSubset 1
[- a] => NotInSubset 1
[? a] => NotInSubset 1
[#a] => NotInSubset 1
{? a: b} => NotInSubset 1
a: [b => Flow 1
a: [b] c => Flow 1
a: [b]#c => Flow 1
- [a} => Flow 1
[a]b => Flow 1
[a #] => Flow 1
[ #] => Flow 1
[[a]#] => Flow 1
{a #: b} => Flow 1
{a: => Flow 1
{\"a\": => Flow 1
{a: ]} => Flow 1
['a' :] => Flow 1
{a: 1, a} => Flow 1
['a'[b]] => Quote 1
a: {b: c, b: d} => DuplicateKey 1
{a: 1, 'a': => DuplicateKey 1
{a: 1, a: &b} => DuplicateKey 1
[[[[[[[[[]]]]]]]]] => TooDeep 1
[[[[[[[[{}]]]]]]]] => TooDeep 1
[#] => NotInSubset 1
[[a]: b] => NotInSubset 1
[a, &b, ]} => NotInSubset 1
";
