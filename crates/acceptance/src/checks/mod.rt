//! Tests of the calls that check and verify: bundles and certificates, readers and writers that fail, texts that are
//! joined, and the words of the command line.

mod balls;
mod bundles;
mod cascades;
mod certificates;
mod coils;
mod devices;
mod errors;
mod failures;
mod games;
mod hostile;
mod joined;
mod limits;
mod modes;
mod row;
mod shots;
mod three_machines;
mod words;
