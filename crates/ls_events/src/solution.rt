//! Solutions.
use cbl_base::Numbers;

/// The values of the free variables of the solver with a number, in order of declaration.
#[derive(Drop, Debug)]
pub struct Solution {
    pub solver: u32,
    pub values: Numbers,
}
