//! The parts for a program in C or another language: checks, frames, requests, replies, a framer,
//! device cores that hear bytes, and a host, step by step. `litchihull.h` says what each call does.
#![tactic(auto)]

mod checks;
mod codes;
mod devices;
mod frames;
mod framing;
mod handle;
mod held;
mod hosted;
mod hosts;
mod kept;
mod machine;
mod replies;
mod requests;
mod settings;
