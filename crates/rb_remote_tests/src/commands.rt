// Tests of the commands over links that are dialled, and over sessions that come, in memory.

mod calls;
mod commands;
mod desks;
mod dialled;
mod events;
mod failures;
mod hostile;
mod hub_links;
mod hubs;
mod jsons;
mod keeps;
mod near_runs;
mod others;
mod pairs;
mod payloads;
mod replies;
mod servers;
mod sessions;
mod texts;
