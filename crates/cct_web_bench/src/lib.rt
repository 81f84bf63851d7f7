//! The bench for a web page, over memory that the page hands over: a script is played over a disk
//! in memory.
#![tactic(auto)]

mod playing;
