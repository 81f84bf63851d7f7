//! The picture and the page of `cct_show` for a web page, over memory that the page hands over.
#![tactic(auto)]

mod drawing;
