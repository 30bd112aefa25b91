//! Tests of streams: when the replies of one that is served are written, and how it ends; and how replies are written to which no
//! request can lead.
#![tactic(auto)]

#[cfg(test)]
mod endings;
#[cfg(test)]
mod gathering;
#[cfg(test)]
mod lengths;
#[cfg(test)]
mod noted;
#[cfg(test)]
mod replies;
#[cfg(test)]
mod sizes;
#[cfg(test)]
mod unasked;
