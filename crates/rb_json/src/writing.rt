// Writing requests and replies in JSON.

pub(crate) mod exprs;
pub(crate) mod replies;
pub(crate) mod requests;
pub(crate) mod steps;
pub(crate) mod values;
