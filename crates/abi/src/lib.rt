// The exported functions, for C and Rust (include/grain.h has their declarations): each hands its call on, one function for each exported name. State lies in the caller's places of
// int32_t and is changed there; whatever stands in them is answered. A refusal leaves state and buffers as they were; a refused opening leaves a
// fresh state of row 0.

#![tactic(auto)]

pub mod calendars;
pub mod charts;
pub mod lots;
pub mod stations;
