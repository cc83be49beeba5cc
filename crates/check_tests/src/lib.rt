// Checks, alone and in layers, on examples worked out by hand.
#![tactic(auto)]

#[cfg(test)]
mod foreign;
#[cfg(test)]
mod leaves;
#[cfg(test)]
mod ports;
#[cfg(test)]
mod revocations;
#[cfg(test)]
mod signature;
