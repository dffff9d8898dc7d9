//! Links of list nodes: the place of the next node, or none, in 32 bits.
use node_list::Link;
use std::mem::size_of;
use std::process::Abort;

/// Checks that a link has 4 bytes, and keeps the place 0, the greatest place and no place.
#[test]
fn a_link_has_four_bytes(rt: HostRuntime) {
    assert!(rt; size_of::<Link>() == 4 && Link::none().get() == None);
    assert!(rt;
        Link::to(0).get() == Some(0) && Link::to(4_294_967_294).get() == Some(4_294_967_294)
    );
}
