#![tactic(auto)]
// The bounds of a search, by arrays: the landmark table, a region's bound, and the landmark that a leaf picks.
pub mod yards; // yards.rt: what is computed of a yard: its aggregate by true distances, f, and its bound.
pub mod numbers; // numbers.rt: the aggregate of two numbers
pub mod picks; // picks.rt: the landmark that a leaf picks
pub mod regions; // regions.rt: a region's bound
pub mod rows; // rows.rt: LB and UB by the rows of the landmark table, and a crew's bound
pub mod table; // table.rt: the landmark table and the crews' rows, by walks over the roads
