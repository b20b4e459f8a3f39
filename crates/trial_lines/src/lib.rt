// For the test programs: reads cases that come as lines of numbers (tests/damage.py says what a line is). Only this is proved: every
// function is safe and ends: places wrap and sizes stay small, so no function asks anything of its caller.
#![tactic(auto)]

pub mod line; // line.rt: a line as numbers, and where its parts stand
pub mod sheet; // sheet.rt: lists and lent slices, before and after a call
