// What the calls of a site test, ask, answer and leave, on examples worked out by hand.
#![tactic(auto)]

#[cfg(test)]
mod admits;
#[cfg(test)]
mod answers;
#[cfg(test)]
mod asked;
#[cfg(test)]
mod base;
#[cfg(test)]
mod bytes;
#[cfg(test)]
mod claims;
#[cfg(test)]
mod decides;
#[cfg(test)]
mod harbour;
#[cfg(test)]
mod hears;
#[cfg(test)]
mod leaves;
#[cfg(test)]
mod moves;
#[cfg(test)]
mod new_views;
#[cfg(test)]
mod proposes;
#[cfg(test)]
mod shown;
#[cfg(test)]
mod signs;
#[cfg(test)]
mod writes;
