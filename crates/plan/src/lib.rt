// The dynamic programme that finds the least cost: definitions and laws, and the mark of a cost that nothing has.
#![tactic(auto)]

/// Stands for a cost where nothing fits. (A mark, since a cell of the lent workspace has four bytes and none to spare.)
pub const MARK: u32 = 4244967295;
