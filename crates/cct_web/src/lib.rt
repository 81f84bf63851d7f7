//! The audit for a web page, over memory that the page hands over. It takes no memory, so the kit
//! builds it for wasm64 too (`web/build`).
#![tactic(auto)]

mod auditing;
mod onto;
