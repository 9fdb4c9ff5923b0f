use super::expect::expect;
use std::process::Abort;
use std::test::Fail;
use vk_nodes::{Node, Nodes, RangeState};

/// Of two slots two are taken, each once, and a third is none; one that was given back is taken again.
fn expect_slots(rt: &impl Abort, nodes: &mut Nodes) -> Result<(), Fail> {
    let first = nodes.take().ok_or("no slot")?;
    let second = nodes.take().ok_or("no slot")?;
    assert!(rt; first != second);
    assert!(rt; nodes.take().is_none());
    expect(rt, "slots", nodes.slots(), 2);
    nodes.give(first);
    expect(rt, "free slots", nodes.free_slots(), 1);
    expect(rt, "the first", nodes.take(), Some(first));
    Ok(())
}

/// A node is put into its slot alone.
fn expect_node(rt: &impl Abort, nodes: &mut Nodes) -> Result<(), Fail> {
    let first = nodes.take().ok_or("no slot")?;
    let second = nodes.take().ok_or("no slot")?;
    let node = Node {
        start: 1024,
        size: 64,
        before: Some(second),
        after: None,
        previous_free: None,
        next_free: None,
        state: RangeState::Optimal,
    };
    nodes.set(first, node);
    expect(rt, "the node", nodes.get(first), node);
    expect(rt, "the other one", nodes.get(second), Node::empty());
    Ok(())
}

#[test]
fn slots(rt: HostRuntime) -> Result<(), Fail> {
    let mut nodes = Nodes::new(rt.alloc());
    assert!(rt; nodes.take().is_none());
    nodes.reserve(2)?;
    expect_slots(&rt, &mut nodes)?;
    let mut others = Nodes::new(rt.alloc());
    others.reserve(2)?;
    expect_node(&rt, &mut others)
}
