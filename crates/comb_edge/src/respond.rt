// Stage 7: what an edge reports of the shadows at its ends.
#![tactic(auto, using(laws::specs::Tests::tests), unfolding(rules::specs::Respond::available, rules::specs::Respond::shown, rules::specs::Respond::limit, rules::specs::Respond::meeting))]

ghost use Rattle.std.specs.Prelude.{◌≡◌, not, eqb};
ghost use Rattle.laws.specs.Choice.{◌and◌, ◌or◌};
ghost use Rattle.rules.specs.Registers.{same_node};
ghost use Rattle.rules.specs.Respond as Respond;

use crate::length::{half, is_odd, is_zero, joint};
use rules::finding::{Finding, Length, OddRemaining, Side};
use rules::index::{NodeIndex, VertexIndex};
use rules::registers::VertexRegisters;

// "available: no node, not virtual"
fn is_available(shadow: VertexRegisters) -> bool
    ensures { result ≡ Respond.available shadow }
{
    shadow.node == NodeIndex(65_535) && !shadow.is_virtual
}

// A node as a finding shows it: neither no node nor the virtual node is a number.
fn shown(node: NodeIndex) -> Option<NodeIndex>
    ensures { result ≡ Respond.shown node }
{
    match node {
        NodeIndex(65_534 | 65_535) => None,
        _ => Some(node),
    }
}

fn side(shadow: VertexRegisters, vertex: VertexIndex) -> Side
    ensures { result ≡ Respond.side shadow vertex.0 }
{
    Side {
        node: shown(shadow.node),
        touch: shown(shadow.root),
        vertex,
    }
}

// "16: odd remaining at joint speed 2"; else "remaining / joint speed"
fn limit(speed: u32, remaining: Length) -> Result<Finding, OddRemaining>
    ensures { result ≡ Respond.limit speed remaining }
{
    if speed != 2 {
        return Ok(Finding::GrowLength(remaining));
    }
    if is_odd(remaining) {
        return Err(OddRemaining);
    }
    Ok(Finding::GrowLength(half(remaining)))
}

// "0 with neither end available"
fn is_conflict(left: VertexRegisters, right: VertexRegisters, remaining: Length) -> bool
    ensures { result ≡ (Respond.is_zero remaining and not (Respond.available left) and not (Respond.available right)) }
{
    is_zero(remaining) && !is_available(left) && !is_available(right)
}

// What the shadows of the ends v and w report where they are not idle, with what remains between them.
pub fn meeting(
    left: VertexRegisters,
    right: VertexRegisters,
    v: VertexIndex,
    w: VertexIndex,
    remaining: Length,
) -> Result<Finding, OddRemaining>
    ensures { result ≡ Respond.meeting left right v.0 w.0 remaining }
{
    if is_conflict(left, right, remaining) {
        return Ok(Finding::Conflict(side(left, v), side(right, w)));
    }
    limit(joint(left.speed, right.speed), remaining)
}

// "equal shadow nodes, or joint speed not positive"
pub fn is_idle(left: VertexRegisters, right: VertexRegisters) -> bool
    ensures { result ≡ (same_node left.node right.node or eqb (Respond.joint left.speed right.speed) 0) }
{
    left.node == right.node || joint(left.speed, right.speed) == 0
}
