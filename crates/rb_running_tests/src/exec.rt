// Tests of scripts on a host: scripts and the nodes that they give, both as texts.

mod calls;
mod files;
mod fuel;
mod kinds;
mod operators;
mod over;
mod scripts;
mod shown;
mod steps;
mod words;
