// Tests of trees.

mod lists;
mod validity;
