// Why an image is refused: numbers 1 to 11, in order of checking.
#![tactic(auto)]

ghost use Rattle.std.specs.Prelude.{◌≡◌, ◌≢◌, ◌+◌, ◌<◌, ◌≤◌, OnOk, false};
ghost use Rattle.laws.specs.First.{first};
ghost use Rattle.laws.specs.Table.{table};
ghost use Rattle.rules.specs.Image.{refuse_if, vertex_count, head_refusal, vertex_refusal, edges_at, edge_refusal, unit_refusal, image_refusal};
ghost use Rattle.image_refusal.specs.Check.{check_of, is_end_of, record_refusal, misnames};

use image_records::{EdgeRecord, UnitRecord};
use rules::refusal::Refusal;

#[tactic(auto, unfolding(crate::specs::Check::check_of))]
fn refuse_if(test: bool, why: Refusal) -> Result<(), Refusal>
    ensures value { result ≡ check_of (refuse_if test why) }
    ensures passed { OnOk result (test ≡ false) }
{
    if test { Err(why) } else { Ok(()) }
}

// "Bounds: V 1..256, E and U 0..1,024"; "5: bytes run out before the counted records"
#[tactic(auto, using(crate::proofs::Checks::checks), unfolding(rules::specs::Image::head_refusal))]
fn head_refusal(bytes: &[u8]) -> Result<(), Refusal>
    ensures { result ≡ check_of (head_refusal bytes.now) }
{
    let header = image_records::read_header(bytes);
    refuse_if(!header.is_image, Refusal::NotAnImage)?;
    refuse_if(
        header.vertices == 0 || header.vertices > 256,
        Refusal::VertexCount,
    )?;
    refuse_if(header.edges > 1024, Refusal::EdgeCount)?;
    refuse_if(header.units > 1024, Refusal::UnitCount)?;
    refuse_if(bytes.len() < header.session, Refusal::CutShort)
}

// "6: vertex record with another value"
#[tactic(auto, using(crate::proofs::Checks::checks), unfolding(rules::specs::Image::vertex_refusal))]
fn vertex_refusal(bytes: &[u8], v: u16) -> Result<(), Refusal>
    ensures { result ≡ check_of (vertex_refusal bytes.now v) }
{
    let vertex = image_records::vertex_record(bytes, v);
    let bad_layer = vertex.layer > 32767 && vertex.layer != 65535;
    refuse_if(
        vertex.default_virtual > 1 || bad_layer,
        Refusal::VertexRecord,
    )
}

#[tactic(auto, using(crate::proofs::Checks::checks), unfolding(crate::specs::Check::is_end_of))]
fn is_end(v: u16, edge: EdgeRecord) -> bool
    ensures { result ≡ is_end_of v edge }
{
    edge.left == v || edge.right == v
}

// What an edge's own record shows: 7, 8 and 9.
#[tactic(auto, using(crate::proofs::Checks::checks), unfolding(crate::specs::Check::record_refusal))]
fn record_refusal(edge: EdgeRecord, vertices: u16) -> Result<(), Refusal>
    ensures value { result ≡ check_of (record_refusal vertices edge) }
    ensures ends { OnOk result ((edge.left < vertices) × (edge.right < vertices) × (edge.left ≢ edge.right)) }
{
    let outside = edge.left >= vertices || edge.right >= vertices;
    let stray = edge.condition != 65535 && !is_end(edge.condition, edge);
    refuse_if(outside || edge.left == edge.right, Refusal::EdgeEnds)?;
    refuse_if(edge.weight > 1_000_000, Refusal::Weight)?;
    refuse_if(stray, Refusal::Condition)
}

// "vertex not 65,535 for kind 0, not an end for kind 1"
#[tactic(auto, using(crate::proofs::Checks::checks), unfolding(crate::specs::Check::misnames, laws::specs::Choice::pick))]
fn misnames(unit: UnitRecord, edge: EdgeRecord) -> bool
    ensures { result ≡ misnames unit edge }
{
    if unit.kind == 0 {
        unit.vertex != 65535
    } else {
        !is_end(unit.vertex, edge)
    }
}

#[tactic(auto, using(crate::proofs::Checks::checks), unfolding(rules::specs::Image::unit_refusal, crate::specs::Check::misnames))]
fn unit_refusal(bytes: &[u8], u: u16) -> Result<(), Refusal>
    ensures { result ≡ check_of (unit_refusal bytes.now u) }
{
    let edges = image_records::read_header(bytes).edges;
    let unit = image_records::unit_record(bytes, u);
    let edge = image_records::edge_record(bytes, unit.edge);
    refuse_if(
        unit.kind > 1 || unit.edge >= edges || misnames(unit, edge),
        Refusal::UnitRecord,
    )
}

// "10: this edge is some end's 17th": how many edges end at each vertex is counted on the way.
#[tactic(auto, using(crate::proofs::Counts::edge_checks, crate::proofs::Counts::turn, laws::specs::Table::get_or_table, std::proofs::lemmas::Bool::Decides::nat_tests))]
fn edge_refusal(bytes: &[u8], vertices: u16, e: u16, counts: &mut [u8; 256]) -> Result<(), Refusal>
    requires below { (vertices ≡ vertex_count bytes.now) × (vertices ≤ 256) }
    requires counted { counts.old ≡ table 256 (edges_at bytes.now e) }
    ensures value { result ≡ check_of (edge_refusal bytes.now e) }
    ensures counted { OnOk result (counts.new ≡ table 256 (edges_at bytes.now (e + 1))) }
{
    let edge = image_records::edge_record(bytes, e);
    record_refusal(edge, vertices)?;
    let left = usize::from(edge.left);
    let right = usize::from(edge.right);
    refuse_if(counts[left] >= 16 || counts[right] >= 16, Refusal::Crowded)?;
    counts[left] += 1;
    counts[right] += 1;
    Ok(())
}

#[tactic(auto, using(crate::proofs::Walks::walks))]
fn edges_refusal(bytes: &[u8], vertices: u16, n: u16) -> Result<(), Refusal>
    requires { (vertices ≡ vertex_count bytes.now) × (vertices ≤ 256) }
    ensures { result ≡ check_of (first n (edge_refusal bytes.now)) }
{
    let mut counts = [0u8; 256];
    for e in 0..n {
        edge_refusal(bytes, vertices, e, &mut counts)?;
    }
    Ok(())
}

// "Records are checked by index, vertices, edges, units; each record in the order shown"
#[tactic(auto, using(crate::proofs::Opening::opening))]
pub fn image_refusal(bytes: &[u8]) -> Result<(), Refusal>
    ensures { result ≡ check_of (image_refusal bytes.now) }
{
    head_refusal(bytes)?;
    let header = image_records::read_header(bytes);
    (0..header.vertices).try_for_each(|v| vertex_refusal(bytes, v))?;
    edges_refusal(bytes, header.vertices, header.edges)?;
    (0..header.units).try_for_each(|u| unit_refusal(bytes, u))
}
