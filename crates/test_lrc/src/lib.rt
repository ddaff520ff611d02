//! Scripts that are drawn; and tests of what no run of a built program shows, each by a caller who knows nothing but contracts.
#![tactic(auto)]

#[cfg(test)]
mod intervals;
#[cfg(test)]
mod outcomes;
#[cfg(test)]
mod running;
#[cfg(test)]
mod scripts;
#[cfg(test)]
mod texts;
