//! The low crates, each beside a plain body or values written by hand: sets of grains, streams, work flags, generated sessions,
//! rates and the state table. What their calls do is proved; that memory suffices and that the code runs is shown here.
#![tactic(auto)]

#[cfg(test)]
mod bits;
#[cfg(test)]
mod drills;
#[cfg(test)]
mod expect;
#[cfg(test)]
mod picks;
#[cfg(test)]
mod rates;
#[cfg(test)]
mod states;
#[cfg(test)]
mod streams;
