//! A number of a linked list: its label and its neighbours.

ghost use Rattle.std.specs.Prelude.{◌≡◌, ◌<◌, length};
ghost use Rattle.places.specs.Links.{node_of, with_label, with_before, with_after};

/// No number: what follows the last one, and what precedes the first.
pub(crate) const NONE: u32 = u32::MAX;

/// The label of a number, which increases along the list, and its neighbours in the list.
#[derive(Clone, Copy)]
pub(crate) struct Node {
    pub(crate) label: u64,
    pub(crate) before: u32,
    pub(crate) after: u32,
}

/// The label of a number, and for `NONE` 0, which is below all labels.
pub(crate) fn label_of(nodes: &[Node], number: u32) -> u64
    ensures { result ≡ (node_of nodes.now number).label }
{
    match nodes.get(number as usize) {
        Some(node) => node.label,
        None => 0,
    }
}

/// The node of a number.
pub(crate) fn node_at(nodes: &[Node], number: u32) -> Node
    requires { number < length nodes.now }
    ensures { result ≡ node_of nodes.now number }
{
    nodes[number as usize]
}

pub(crate) fn set_label(nodes: &mut [Node], number: u32, label: u64)
    requires { number < length nodes.old }
    ensures { nodes.new ≡ with_label nodes.old number label }
{
    nodes[number as usize].label = label;
}

pub(crate) fn set_before(nodes: &mut [Node], number: u32, before: u32)
    requires { number < length nodes.old }
    ensures { nodes.new ≡ with_before nodes.old number before }
{
    nodes[number as usize].before = before;
}

/// Writes the forward link of a number, unless it is `NONE`.
pub(crate) fn set_after(nodes: &mut [Node], number: u32, after: u32)
    ensures { nodes.new ≡ with_after nodes.old number after }
{
    if (number as usize) < nodes.len() {
        nodes[number as usize].after = after;
    }
}
