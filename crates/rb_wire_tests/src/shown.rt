// Tests of the lines that runs and tables print, and of the views of divisions.

mod endings;
mod expected;
mod literals;
mod tables;
mod views;
