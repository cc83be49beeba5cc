// Examples of values and packets, worked out by hand.
#![tactic(auto)]

#[cfg(test)]
mod fleets;
#[cfg(test)]
mod reads;
#[cfg(test)]
mod writes;
