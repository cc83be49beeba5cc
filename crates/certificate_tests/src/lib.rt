// Certificates judged, on examples worked out by hand.
#![tactic(auto)]

#[cfg(test)]
mod asked;
#[cfg(test)]
mod base;
#[cfg(test)]
mod causes;
#[cfg(test)]
mod forced;
#[cfg(test)]
mod signs;
