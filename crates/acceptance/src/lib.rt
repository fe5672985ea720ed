//! Tests from bytes to bytes: worked bundles, certificates and logs with what is printed for them. `worked_rows` says
//! how a row of a table is written. `rt try --test` gives a test 60 seconds, which is too little for those of long
//! texts and of readers that never end: give it `--seconds 900`.
#![tactic(auto)]

#[cfg(test)]
mod asserts;
#[cfg(test)]
mod checks;
#[cfg(test)]
mod plays;
