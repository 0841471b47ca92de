// Which classes may be those of a service.

use rb_trees::{Seq, TypeError};
use rb_types::check_service;

#[test]
fn a_service_without_classes_is_typed(rt: HostRuntime) -> Result<(), TypeError> {
    check_service(rt.alloc(), &Seq::new(rt.alloc()))
}
