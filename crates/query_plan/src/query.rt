//! A query as it is answered.

use crate::columns::Columns;
use crate::patterns::Patterns;

/// A SELECT query over one basic graph pattern. Its labels are its variables and its blank nodes, numbered from 0 in order
/// of first appearance.
#[derive(Debug, Drop)]
pub struct Query {
    pub columns: Columns,
    /// How many labels there are.
    pub labels: u8,
    pub distinct: bool,
    pub patterns: Patterns,
    /// How many rows are given at most.
    pub limit: Option<u64>,
    /// How many rows are left out first.
    pub offset: u64,
}
