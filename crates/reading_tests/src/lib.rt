//! Tests of the readers below, over their public calls: YAML texts, values, tables and bundles.
#![tactic(auto)]

#[cfg(test)]
mod balls;
#[cfg(test)]
mod bundles;
#[cfg(test)]
mod cases;
#[cfg(test)]
mod coils;
#[cfg(test)]
mod devices;
#[cfg(test)]
mod errors;
#[cfg(test)]
mod game;
#[cfg(test)]
mod pen;
#[cfg(test)]
mod saves;
#[cfg(test)]
mod shots;
#[cfg(test)]
mod tables;
#[cfg(test)]
mod values;
#[cfg(test)]
mod yaml;
#[cfg(test)]
mod yaml_blocks;
#[cfg(test)]
mod yaml_first_faults;
#[cfg(test)]
mod yaml_flow;
#[cfg(test)]
mod yaml_limits;
#[cfg(test)]
mod yaml_words;
