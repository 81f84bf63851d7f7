//! Tests of a port over a line that is played: what it takes for a reply, and what it drops as a
//! late one. And of a host over it to devices, whose replies come late: where the port waits long
//! enough each coin is posted once and each order is closed with what fell, and where it doesn't a
//! coin is posted twice, or an order is closed with a wrong number.
#![tactic(auto)]

#[cfg(test)]
mod account;
#[cfg(test)]
mod day;
#[cfg(test)]
mod hasty;
#[cfg(test)]
mod late;
#[cfg(test)]
mod port;
#[cfg(test)]
mod steps;
#[cfg(test)]
mod wire;
