// Elimination straight from its definition, over small dense patterns: the test programs compare the proved entry points with it. It shares
// no code with them. Only this is proved: every function is safe and ends: places wrap and numbers stay small, so no function asks anything
// of its caller.
#![tactic(auto)]

pub mod grid; // grid.rt: grids of numbers
pub mod sheet; // sheet.rt: lists and steps, as numbers
pub mod fill; // fill.rt: fill, and the lists of rows
pub mod stack; // stack.rt: the stack of updates and its greatest room
pub mod orders; // orders.rt: the order of the columns under each mark
