#![tactic(auto)]

#[cfg(test)]
mod day;
#[cfg(test)]
mod lines;
#[cfg(test)]
mod reserves;
pub mod trial;
