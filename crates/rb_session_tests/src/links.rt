// Tests of links in memory and over frames, of those whose table others change, and of what is dialled.

mod dials;
mod exchanges;
mod frame_links;
mod meddled_links;
