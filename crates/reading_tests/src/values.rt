//! Texts and the values that they have.

use crate::cases::{Subject, assert_rows};
use crate::pen::Pen;
use crate::yaml::tree_of;
use mpf_values::{BadValue, Item, ListFault, boolean, event, integer, list, name, power, time};
use std::fmt::Display;
use yaml_subset::Tree;
use yaml_subset::tree::Word;

// Each row of a table is a text in brackets and the value that it has, or `none`.

// Booleans.
const BOOLEANS: &str = "\
[yes] => true
[Yes] => true
[YES] => true
[true] => true
[True] => true
[TRUE] => true
[on] => true
[On] => true
[ON] => true
[no] => false
[No] => false
[NO] => false
[false] => false
[False] => false
[FALSE] => false
[off] => false
[Off] => false
[OFF] => false
[] => none
[yEs] => none
[yES] => none
[YEs] => none
[oN] => none
[oFF] => none
[oFf] => none
[nO] => none
[tRUE] => none
[TRUe] => none
[fALSE] => none
[y] => none
[n] => none
[1] => none
[0] => none
[yess] => none
[ye] => none
[yes ] => none
[ no] => none
[on!] => none
";

// Integers.
const INTEGERS: &str = "\
[0] => 0
[-0] => 0
[7] => 7
[007] => 7
[-12] => -12
[-0012] => -12
[1000000000] => 1000000000
[-1000000000] => -1000000000
[999999999] => 999999999
[00000000000000000000000000000001] => 1
[-00000000000000000000000000000000] => 0
[] => none
[-] => none
[--1] => none
[+1] => none
[1 ] => none
[ 1] => none
[- 1] => none
[1.0] => none
[1e3] => none
[0x10] => none
[1_000] => none
[12a] => none
[1-] => none
[1000000001] => none
[-1000000001] => none
[4294967297] => none
[18446744073709551617] => none
[-18446744073709551616] => none
[99999999999999999999999999] => none
[١] => none
";

// Times, in milliseconds.
const TIMES: &str = "\
[0] => 0
[10] => 10
[10ms] => 10
[007] => 7
[1.0ms] => 1
[1.000] => 1
[1.5s] => 1500
[00.5s] => 500
[0.125s] => 125
[0.0s] => 0
[0.001s] => 1
[0.001m] => 60
[0.001h] => 3600
[0.001d] => 86400
[2m] => 120000
[1.5m] => 90000
[0.5h] => 1800000
[1h] => 3600000
[1d] => 86400000
[10 s] => 10000
[10\ts] => 10000
[10 \t ms] => 10
[1.0 s] => 1000
[4294967295] => 4294967295
[4294967.295s] => 4294967295
[71582m] => 4294920000
[1193h] => 4294800000
[49d] => 4233600000
[49.710d] => 4294944000
[] => none
[s] => none
[ms] => none
[.5s] => none
[1.s] => none
[1.] => none
[.] => none
[-1] => none
[-1s] => none
[+1s] => none
[1 .5s] => none
[1. 5s] => none
[1,5s] => none
[1e3] => none
[1S] => none
[1MS] => none
[1sec] => none
[1ss] => none
[1 m s] => none
[1s ] => none
[ 1s] => none
[1us] => none
[1.5] => none
[0.5ms] => none
[1.001ms] => none
[0.0005s] => none
[1.0000s] => none
[1.5.5s] => none
[0.0001d] => none
[4294967296] => none
[4294967.296s] => none
[71583m] => none
[1194h] => none
[50d] => none
[49.711d] => none
[18446744073709551616] => none
[18446744073709551617ms] => none
[213503982335d] => none
";

// Powers, in thousandths of full power.
const POWERS: &str = "\
[0] => 0
[1] => 1000
[0.0] => 0
[1.0] => 1000
[1.000] => 1000
[0.5] => 500
[0.25] => 250
[0.255] => 255
[0.001] => 1
[0.999] => 999
[00.5] => 500
[01] => 1000
[0%] => 0
[0.1%] => 1
[25%] => 250
[025%] => 250
[12.5%] => 125
[99.9%] => 999
[100%] => 1000
[100.0%] => 1000
[] => none
[%] => none
[.5] => none
[1.] => none
[.5%] => none
[5.%] => none
[-0.5] => none
[-0] => none
[+1] => none
[0,5] => none
[half] => none
[1 ] => none
[ 1] => none
[25 %] => none
[25% ] => none
[25%%] => none
[0.2505] => none
[1.0000] => none
[0.9999] => none
[1.001] => none
[1.1] => none
[2] => none
[1000] => none
[12.55%] => none
[12.50%] => none
[100.1%] => none
[101%] => none
[1000%] => none
[18446744073709551616] => none
[18446744073709551617%] => none
";

// Names, which are the text itself.
const NAMES: &str = "\
[a] => a
[Z] => Z
[9] => 9
[_] => _
[-] => -
[.] => .
[s_left-2.b] => s_left-2.b
[abcdefghijklmnopqrstuvwxyzABCDEFGHIJKLMNOPQRSTUVWXYZ0123456789_-] => abcdefghijklmnopqrstuvwxyzABCDEFGHIJKLMNOPQRSTUVWXYZ0123456789_-
[] => none
[ ] => none
[a b] => none
[a\tb] => none
[a ] => none
[ a] => none
[a:b] => none
[a,b] => none
[a{] => none
[a/b] => none
[a!] => none
[é] => none
[abcdefghijklmnopqrstuvwxyzABCDEFGHIJKLMNOPQRSTUVWXYZ0123456789_-.] => none
";

// Handled events, and behind an event its condition: the current player's variable, how it is to compare and
// the number.
const EVENTS: &str = "\
[s_left.a-1_active] => s_left.a-1_active
[e{current_player.x==1}] => e x Equal 1
[e{current_player.x!=1}] => e x NotEqual 1
[e{current_player.x<1}] => e x Less 1
[e{current_player.x<=1}] => e x LessOrEqual 1
[e{current_player.x>1}] => e x Greater 1
[e{current_player.x>=1}] => e x GreaterOrEqual 1
[e{ \tcurrent_player.x == \t -1 \t}] => e x Equal -1
[e{current_player.x-1>=-2}] => e x-1 GreaterOrEqual -2
[e{current_player.a.b <1000000000}] => e a.b Less 1000000000
[] => none
[{current_player.x==1}] => none
[e ] => none
[e {current_player.x==1}] => none
[e{}] => none
[e{ }] => none
[e{current_player.x}] => none
[e{current_player.x==}] => none
[e{current_player.==1}] => none
[e{current_player.x=1}] => none
[e{current_player.x<>1}] => none
[e{current_player.x===1}] => none
[e{current_player.x< =1}] => none
[e{current_player.x==y}] => none
[e{current_player.x==+1}] => none
[e{current_player.x==1 2}] => none
[e{current_player.x y==1}] => none
[e{current_player .x==1}] => none
[e{current_player. x==1}] => none
[e{player.x==1}] => none
[e{x==1}] => none
[e{current_player.x==1000000001}] => none
[e{current_player.x==1] => none
[e{current_player.x==1}}] => none
[e{current_player.x==1} ] => none
[e{{current_player.x==1}] => none
[e}] => none
[e|2s] => none
";

// List texts at line 7: how many items they have, and each with its line.
const LIST_TEXTS: &str = "\
[] => 0
[ ,\t, ] => 0
[a] => 1 <a>7
[a, b] => 2 <a>7 <b>7
[a b\tc,d] => 4 <a>7 <b>7 <c>7 <d>7
[,a,,b ,] => 2 <a>7 <b>7
[a{x == 1}, b] => 2 <a{x == 1}>7 <b>7
[a{b, {c d} e} f] => 2 <a{b, {c d} e}>7 <f>7
[a} b] => 2 <a}>7 <b>7
[}{a b} c] => 2 <}{a b}>7 <c>7
[a {b c, d] => 2 <a>7 <{b c, d>7
";

// Nodes as YAML, and their items. An item that is empty is none.
const LIST_NODES: &str = "\
¶- a¶-¶- b c, => 2 <a>2 <b c,>4
[] => 0
{} => none
[[]] => none
";

/// What a text is to be read as.
pub(crate) enum Kind {
    Boolean,
    Integer,
    Time,
    Power,
    Name,
    Event,
    List,
}

fn show<V: Display + Drop>(pen: &mut Pen, value: Result<V, BadValue>) {
    match value {
        Ok(value) => pen.value(value),
        Err(_) => pen.put("none"),
    }
}

fn show_name(pen: &mut Pen, text: &[u8]) {
    match name(text) {
        Ok(name) => pen.bytes(name),
        Err(_) => pen.put("none"),
    }
}

fn show_event(pen: &mut Pen, text: &[u8]) {
    let Ok(event) = event(text) else {
        return pen.put("none");
    };
    pen.bytes(event.name);
    if let Some(condition) = event.condition {
        pen.put(" ");
        pen.bytes(condition.variable);
        pen.shown(condition.comparison);
        pen.also(condition.number);
    }
}

fn show_items(pen: &mut Pen, items: &[Item<'_>]) {
    pen.value(items.len());
    for item in items {
        pen.put(" ");
        pen.quoted(item.text, item.line);
    }
}

fn show_list(pen: &mut Pen, tree: &Tree) {
    match list(pen.alloc, tree) {
        Ok(items) => show_items(pen, &items),
        Err(ListFault::BadValue) => pen.put("none"),
        Err(ListFault::NoMemory) => pen.lose(),
    }
}

fn show_scalar_list(pen: &mut Pen, text: &[u8]) {
    show_list(pen, &Tree::Scalar(7, Word::Borrowed(text)));
}

/// Adds the value of a text that stands in brackets, or `none`.
pub(crate) fn show_value(pen: &mut Pen, kind: &Kind, text: &str) {
    let [b'[', text @ .., b']'] = text.as_bytes() else {
        return pen.put("no brackets");
    };
    match kind {
        Kind::Boolean => show(pen, boolean(text)),
        Kind::Integer => show(pen, integer(text)),
        Kind::Time => show(pen, time(text)),
        Kind::Power => show(pen, power(text)),
        Kind::Name => show_name(pen, text),
        Kind::Event => show_event(pen, text),
        Kind::List => show_scalar_list(pen, text),
    }
}

/// Adds the items of a YAML node.
pub(crate) fn show_nodes(pen: &mut Pen, text: &str) {
    if let Some(tree) = tree_of(pen, text.as_bytes()) {
        show_list(pen, &tree);
    }
}

#[test]
fn values(rt: HostRuntime) {
    assert_rows(&rt, &Subject::Value(Kind::Boolean), BOOLEANS);
    assert_rows(&rt, &Subject::Value(Kind::Integer), INTEGERS);
    assert_rows(&rt, &Subject::Value(Kind::Time), TIMES);
    assert_rows(&rt, &Subject::Value(Kind::Power), POWERS);
    assert_rows(&rt, &Subject::Value(Kind::Name), NAMES);
    assert_rows(&rt, &Subject::Value(Kind::Event), EVENTS);
    assert_rows(&rt, &Subject::Value(Kind::List), LIST_TEXTS);
    assert_rows(&rt, &Subject::Nodes, LIST_NODES);
}
